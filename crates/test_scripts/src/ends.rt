//! How scripts end: they run to their end, stop reading, or stop in a part.
//! Each is the example that stands at its definition in `desk_run/specs/Running.antt`.

use crate::scripts::writes;
use base_faults::StoreFault;
use desk_run::{FailAt, ScriptEnd, ScriptFault};
use memory_desk::PlainDesk;

#[test]
fn a_script_runs_to_its_end(rt: HostRuntime) {
    let alloc = rt.alloc();
    let mut desk = PlainDesk::new(alloc, 1);
    let script = b"@report foo 1 normal a\nclose 1\n@show 2\n";
    let written = "OK 1\n> close 1\nOK 1\nNO no such bug 2\n";
    assert!(rt; writes(alloc, &mut desk, script, Ok(ScriptEnd::Refused), written));
}

#[test]
fn a_script_stops_reading(rt: HostRuntime) {
    let alloc = rt.alloc();
    let mut desk = PlainDesk::new(alloc, 1);
    let script = b"@report foo 1 normal a\nclose 1\n\xff\n";
    assert!(rt;
        writes(
            alloc,
            &mut desk,
            script,
            Err(ScriptFault::NotUtf8(3)),
            "OK 1\n"
        )
    );
    // bug 1 was not closed
    let written = "> close 1\nOK 1\n";
    assert!(rt;
        writes(
            alloc,
            &mut desk,
            b"close 1\n",
            Ok(ScriptEnd::Accepted),
            written
        )
    );
}

#[test]
fn a_script_stops_in_a_part(rt: HostRuntime) {
    let alloc = rt.alloc();
    let fault = StoreFault::Full;
    let mut store = FailAt::new(PlainDesk::new(alloc, 1), 2, fault);
    let script = b"@report foo 1 normal a\nclose 1\n@show 1\n";
    let written = "OK 1\n> close 1\nStore fault: full.\n";
    assert!(rt;
        writes(
            alloc,
            &mut store,
            script,
            Err(ScriptFault::Store(fault)),
            written
        )
    );
    // bug 1 was not closed
    let written = "> close 1\nOK 1\n";
    assert!(rt;
        writes(
            alloc,
            &mut store,
            b"close 1\n",
            Ok(ScriptEnd::Accepted),
            written
        )
    );
}
