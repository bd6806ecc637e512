//! Control messages.

ghost use Rattle.std.specs.Prelude.{◌≡◌, string_bytes};
ghost use Rattle.base_words.specs.Texts.{IsText};
ghost use Rattle.store_contract.specs.Store.{Holds};
ghost use Rattle.http_requests.specs.Requests.{Always, PostControl};
ghost use Rattle.http_requests.specs.Told.{IsTold};
ghost use Rattle.http_answers.specs.Crashes.{LeavesAnswered};
ghost use Rattle.http_answers.specs.Faults.{IsAnswer, counted_with};
ghost use Rattle.http_requests.specs.Shown.{shown, message_asked};

use http_answers::tell_lines;
use http_requests::{MessageRequest, Reply};
use message_receiving::receive;
use std::alloc::Global;
use store_contract::Records;

/// Takes a control message.
pub(crate) fn answer_message<S: Records>(
    alloc: Global,
    store: &mut S,
    request: &MessageRequest,
) -> Reply
    requires { IsText (string_bytes request.now.from) }
    ensures answer { Holds S.is_kept S.is_honest store.old store.new (IsAnswer (PostControl (message_asked request.now))
        (S.desk store.old) result.fault (shown result) (S.desk store.new)) }
    ensures stays { Holds S.is_kept S.is_honest store.old store.new (S.keeping store.new ≡ S.keeping store.old) }
    ensures crash { Holds S.is_kept S.is_honest store.old store.new (LeavesAnswered S.leaves store.old store.new
        (Always (PostControl (message_asked request.now))) (S.desk store.old, S.keeping store.old) result.fault
        (S.desk store.new, S.keeping store.new)) }
    ensures count { S.faults store.new ≡ counted_with result.fault (S.faults store.old) }
    ensures told { IsTold result.fault (shown result) }
{
    let from = request.from.as_str();
    let message = request.message.as_str();
    let received = receive(alloc, store, from, message);
    tell_lines(alloc, &received, message)
}
