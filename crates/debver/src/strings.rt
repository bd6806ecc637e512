//! The order of two strings of a version: the upstream parts, or the revisions.

ghost use Rattle.std.specs.Prelude.{◌≡◌, ◌+◌, ◌≤◌, ◌||◌, ◌↔◌, length, drop, IsTrue};
ghost use Rattle.std.specs.List.{prefix_len, list_all};
ghost use Rattle.std.specs.Ordering.{nat_cmp};
ghost use Rattle.debver.specs.Characters.{is_digit};
ghost use Rattle.debver.specs.Keys.{weight, value, string_cmp};
ghost use Rattle.debver.specs.Walk.{head_weight, starts_word, is_zero};

use std::cmp::Ordering;

// The place of a character in the order: the tilde, then letters, then all others.
fn weight(c: u8) -> u16
    ensures { result ≡ weight c }
{
    if c == b'~' {
        0
    } else if c.is_ascii_alphabetic() {
        2 + c as u16
    } else {
        300 + c as u16
    }
}

// The weight of the first character, or 1 where the non-digit part has ended.
fn head_weight(s: &[u8]) -> u16
    ensures { result ≡ head_weight s.now }
{
    match s.first() {
        Some(c) if !c.is_ascii_digit() => weight(*c),
        _ => 1,
    }
}

// Whether a character that is no digit comes first.
fn starts_word(s: &[u8]) -> bool
    ensures { result ≡ starts_word s.now }
{
    match s.first() {
        Some(c) => !c.is_ascii_digit(),
        None => false,
    }
}

fn any_starts_word(left: &[u8], right: &[u8]) -> bool
    ensures { result ≡ (starts_word left.now || starts_word right.now) }
{
    starts_word(left) || starts_word(right)
}

fn are_empty(left: &[u8], right: &[u8]) -> bool
    ensures { IsTrue result ↔ (length left.now + length right.now ≡ 0) }
{
    left.is_empty() && right.is_empty()
}

// What follows the first character, if there is one.
fn tail(s: &[u8]) -> &[u8]
    ensures { result.now ≡ drop 1 s.now }
{
    if s.is_empty() { s } else { &s[1..] }
}

// How many digits come first.
fn digit_count(s: &[u8]) -> usize
    ensures value { result ≡ prefix_len is_digit s.now }
    ensures within { result ≤ length s.now }
{
    s.iter().take_while(|c| c.is_ascii_digit()).count()
}

// How many zeros come first.
fn zero_count(s: &[u8]) -> usize
    ensures value { result ≡ prefix_len is_zero s.now }
    ensures within { result ≤ length s.now }
{
    s.iter().take_while(|c| **c == b'0').count()
}

// The digits with no zero at their head.
fn without_zeros(s: &[u8]) -> &[u8]
    ensures { result.now ≡ drop (prefix_len is_zero s.now) s.now }
{
    s.split_at(zero_count(s)).1
}

// Compares digits as the numbers that they write, of any size: more digits are the greater number.
pub(crate) fn compare_numbers(a: &[u8], b: &[u8]) -> Ordering
    requires left { IsTrue (list_all is_digit a.now) }
    requires right { IsTrue (list_all is_digit b.now) }
    ensures { result ≡ nat_cmp (value a.now) (value b.now) }
{
    let left = without_zeros(a);
    let right = without_zeros(b);
    left.len().cmp(&right.len()).then(left.cmp(right))
}

// Compares two strings part by part, from the left.
pub(crate) fn compare(a: &[u8], b: &[u8]) -> Ordering
    ensures { result ≡ string_cmp a.now b.now }
{
    let mut left = a;
    let mut right = b;
    while !are_empty(left, right) {
        if any_starts_word(left, right) {
            let by_weight = head_weight(left).cmp(&head_weight(right));
            if by_weight.is_ne() {
                return by_weight;
            }
            left = tail(left);
            right = tail(right);
        } else {
            let (left_digits, left_rest) = left.split_at(digit_count(left));
            let (right_digits, right_rest) = right.split_at(digit_count(right));
            let by_value = compare_numbers(left_digits, right_digits);
            if by_value.is_ne() {
                return by_value;
            }
            left = left_rest;
            right = right_rest;
        }
    }
    Ordering::Equal
}
