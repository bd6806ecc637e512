//! The laws of requests.
//! Their bodies are empty: the contracts are the laws.

ghost use Rattle.std.specs.Prelude.{◌≡◌, ◌≤◌, ◌+◌, ◌⊎◌, ℕ, List, Some, None, Err, false, length};
ghost use Rattle.httparse.specs.Grammar.{RequestHead};
ghost use Rattle.http_bytes.specs.Head.{BeginsWithHead, HasNoHead};
ghost use Rattle.http_requests.specs.Asking.{asked_of};
ghost use Rattle.http_requests.specs.Answer.{Answer};
ghost use Rattle.http_requests.specs.Memory.{takes_memory, IsHeadStatus};
ghost use Rattle.http_routes.specs.Parts.{path_of};
ghost use Rattle.http_routes.specs.Routes.{HasNoRoute};
ghost use Rattle.http_requests.specs.Taken.{size_of, TakesRequest, TakesHeadAlone};

/// An input asks one thing at most, so that its answer does not depend on the pieces in which its
/// bytes come.
pub fn an_input_has_one_request()
    ensures { (input : List ℕ) (head other : RequestHead) (rest left : List ℕ) → BeginsWithHead input head rest
        → BeginsWithHead input other left → asked_of head rest ≡ asked_of other left }
{}

/// What is taken from a reader whose bytes are known.
/// Where the head asks for no body, or there is no head, nothing after the piece with which that is
/// seen; else no byte after the body, but for what came with the head's last byte.
pub fn nothing_is_taken_after_a_request()
    ensures head { (input left : List ℕ) (head : RequestHead) (rest : List ℕ) → TakesRequest (Some input) (Some left)
        → BeginsWithHead input head rest → size_of head ≡ None → TakesHeadAlone (Some input) (Some left) }
    ensures wrong { (input left : List ℕ) → TakesRequest (Some input) (Some left) → HasNoHead input
        → TakesHeadAlone (Some input) (Some left) }
    ensures body { (input left : List ℕ) (head : RequestHead) (rest : List ℕ) (size : ℕ)
        → TakesRequest (Some input) (Some left) → BeginsWithHead input head rest → size_of head ≡ Some size
        → (length rest ≤ length left + size) ⊎ TakesHeadAlone (Some input) (Some left) }
{}

/// What takes no memory is refused by its head, whatever bytes come after it.
/// Every 405, 411, 413 and 501 takes none; nor does a 404 for want of a route.
pub fn what_takes_no_memory_is_refused()
    ensures refused { (head : RequestHead) → takes_memory head ≡ false
        → (refusal : Answer) × ((rest : List ℕ) → asked_of head rest ≡ Err refusal) }
    ensures statuses { (head : RequestHead) (rest : List ℕ) (refusal : Answer) → asked_of head rest ≡ Err refusal
        → IsHeadStatus refusal.status → takes_memory head ≡ false }
    ensures no_route { (head : RequestHead) → HasNoRoute (path_of head.target) → takes_memory head ≡ false }
{}
