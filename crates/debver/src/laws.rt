//! Laws of the definitions that the contracts of this crate cite.
//! Each body is empty: the contract is the law.

ghost use Rattle.std.specs.Prelude.{◌≡◌, ◌≢◌, ◌↔◌, ◌⊎◌, ℕ, ◌+◌, ◌≤◌, List, [], ◌∷◌, ◌++◌, None, IsTrue, IsFalse, map, length};
ghost use Rattle.std.specs.List.{list_any, list_all};
ghost use Rattle.std.specs.Ordering.{nat_cmp};
ghost use Rattle.std.specs.Cmp.{IsTotalOrder};
ghost use Rattle.std.specs.Cmp.Lexicographic.{slice_cmp};
ghost use Rattle.debver.specs.Characters.{is_digit};
ghost use Rattle.debver.specs.Parts.{Version, IsCut, HasParts};
ghost use Rattle.debver.specs.Cut.{cut};
ghost use Rattle.debver.specs.Faults.{text_fault};
ghost use Rattle.debver.specs.Keys.{weight, value, starts_digit, key_after, key, first_numbers, key_cmp};
ghost use Rattle.debver.specs.Versions.{text_cmp, total_cmp};

use std::cmp::Ordering;

/// A text is cut in just one way.
/// It has parts exactly where it has no fault, and then these alone.
pub fn one_reading()
    ensures cut { (t : List ℕ) (v : Version) → IsCut t v ↔ (v ≡ cut t) }
    ensures parts { (t : List ℕ) (v : Version) → HasParts t v ↔ ((v ≡ cut t) × (text_fault t ≡ None)) }
{}

/// The key of a string that begins with a part without digits and a part of digits: the weights of
/// the one, 1, the value of the other, and the key of what follows them, if something does.
/// Either part may be empty, the digits only at the string's end.
pub fn keys_go_by_parts()
    ensures { (word digits rest : List ℕ) →
        IsFalse (list_any is_digit word) → IsTrue (list_all is_digit digits) →
        IsFalse (starts_digit rest) → (digits ≡ [] → rest ≡ []) →
        key (word ++ (digits ++ rest)) ≡ map weight word ++ (1 ∷ value digits ∷ key_after rest) }
{}

/// Keys compare alike however many of their numbers are compared, once both have ended and gone on
/// by two numbers.
pub fn keys_are_endless()
    ensures { (n : ℕ) (k l : List ℕ) → length k + length l + 2 ≤ n →
        key_cmp k l ≡ slice_cmp nat_cmp (first_numbers n k) (first_numbers n l) }
{}

/// `order` is a total preorder, over all texts whatever.
pub fn order_laws()
    ensures laws { IsTotalOrder text_cmp }
    ensures reflexive { (t : List ℕ) → text_cmp t t ≡ Ordering.Equal }
    ensures transitive { (s t u : List ℕ) →
        text_cmp s t ≢ Ordering.Greater → text_cmp t u ≢ Ordering.Greater →
        text_cmp s u ≢ Ordering.Greater }
    ensures total { (s t : List ℕ) →
        (text_cmp s t ≢ Ordering.Greater) ⊎ (text_cmp t s ≢ Ordering.Greater) }
{}

/// `total` is a total order over all texts whatever, in which just equal texts are Equal.
pub fn total_laws()
    ensures laws { IsTotalOrder total_cmp }
    ensures equal { (s t : List ℕ) → (total_cmp s t ≡ Ordering.Equal) ↔ (s ≡ t) }
{}
