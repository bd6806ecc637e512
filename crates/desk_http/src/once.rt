//! Control messages that have an id.

ghost use Rattle.std.specs.Prelude.{◌≡◌, string_bytes};
ghost use Rattle.base_words.specs.Texts.{IsText};
ghost use Rattle.base_words.specs.Ids.{IsId};
ghost use Rattle.store_contract.specs.Store.{Holds};
ghost use Rattle.http_requests.specs.Requests.{Once};
ghost use Rattle.http_requests.specs.Told.{IsTold};
ghost use Rattle.http_answers.specs.Crashes.{LeavesAnswered};
ghost use Rattle.http_answers.specs.Faults.{counted_with};
ghost use Rattle.http_answers.specs.Repeats.{IsOnceAnswer};
ghost use Rattle.http_requests.specs.Shown.{shown, message_asked};
ghost use Rattle.http_answers.specs.Stored.{stored};

use http_answers::{id_in_use, tell_lines};
use http_requests::{OnceRequest, Reply, store_fault};
use message_receiving::{OnceFault, receive_once};
use std::alloc::Global;
use store_contract::Records;

/// Takes a control message that has an id: lines that were taken before are not taken again.
/// That the id is in use is told before its lines are cut, so also where there is no memory for
/// them.
pub(crate) fn answer_once<S: Records>(alloc: Global, store: &mut S, request: &OnceRequest) -> Reply
    requires id { IsId (string_bytes request.now.id) }
    requires sender { IsText (string_bytes request.now.message.from) }
    ensures answer { Holds S.is_kept S.is_honest store.old store.new
        (IsOnceAnswer (string_bytes request.now.id) (message_asked request.now.message)
        (stored S.desk S.keeping store.old) result.fault (shown result) (stored S.desk S.keeping store.new)) }
    ensures crash { Holds S.is_kept S.is_honest store.old store.new (LeavesAnswered S.leaves store.old store.new
        (Once (string_bytes request.now.id) (message_asked request.now.message)) (S.desk store.old, S.keeping store.old) result.fault
        (S.desk store.new, S.keeping store.new)) }
    ensures count { S.faults store.new ≡ counted_with result.fault (S.faults store.old) }
    ensures told { IsTold result.fault (shown result) }
{
    let message = &request.message;
    let received = receive_once(
        alloc,
        store,
        request.id.as_str(),
        message.from.as_str(),
        message.message.as_str(),
    );
    match received {
        Ok(received) => tell_lines(alloc, &received, message.message.as_str()),
        Err(OnceFault::BadId) => unreachable!("the id is one"),
        Err(OnceFault::Reused) => id_in_use(),
        Err(OnceFault::Store(fault)) => store_fault(fault),
    }
}
