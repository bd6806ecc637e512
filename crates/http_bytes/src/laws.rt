//! The law of heads.
//! Its body is empty: the contract is the law.

ghost use Rattle.std.specs.Prelude.{◌≡◌, ℕ, List};
ghost use Rattle.httparse.specs.Grammar.{RequestHead};
ghost use Rattle.http_bytes.specs.Head.{BeginsWithHead};

/// An input begins with one head at most, and so has one rest.
pub fn an_input_begins_with_one_head()
    ensures { (input : List ℕ) (head other : RequestHead) (rest left : List ℕ) → BeginsWithHead input head rest
        → BeginsWithHead input other left → (head ≡ other) × (rest ≡ left) }
{}
