//! Which sets are written where a command names bugs of several.

use crate::failing_store::FailsAtAnyCall;
use crate::left_as_before::REPORTS;
use base_faults::StoreFault;
use memory_desk::PlainDesk;
use std::alloc::Global;
use store_contract::Records;
use test_doubles::answer_to;

// How many images a store has been given after a script.
fn images_after(alloc: Global, store: &mut FailsAtAnyCall<PlainDesk>, script: &str) -> usize {
    drop(answer_to(alloc, store, script));
    store.images()
}

// Whether these bugs, in this order, wait on the bug of this number.
fn are_waiting(store: &mut FailsAtAnyCall<PlainDesk>, number: u64, bugs: &[u64]) -> bool {
    match store.waiting_on(number) {
        Ok(numbers) => numbers.as_slice() == bugs,
        Err(_) => false,
    }
}

#[test]
fn block_writes_the_set_of_its_bug_alone(rt: HostRuntime) {
    let alloc = rt.alloc();
    let mut store = FailsAtAnyCall::new(PlainDesk::new(alloc, 1), 0, StoreFault::Device);
    assert!(rt; images_after(alloc, &mut store, REPORTS) == 3);
    assert!(rt; images_after(alloc, &mut store, "block 1 by 2 3\n") == 4);
    assert!(rt; are_waiting(&mut store, 2, &[1]));
    assert!(rt; images_after(alloc, &mut store, "merge 2 3\nunblock 1 by 3\n") == 6);
    assert!(rt; are_waiting(&mut store, 3, &[]));
}
