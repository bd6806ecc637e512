//! Numbers of bugs, in order.

ghost use Rattle.std.specs.Prelude.{◌≡◌, ℕ};
ghost use Rattle.bug_record.specs.Sets.{has, IsAscending};

/// The numbers, each once, ascending.
/// They are sorted where they stand: it takes no memory, and can't fail.
pub fn in_order(mut numbers: Vec<u64>) -> Vec<u64>
    ensures ascending { IsAscending result.items }
    ensures numbers { (n : ℕ) → has result.items n ≡ has numbers.items n }
{
    numbers.sort_unstable();
    numbers.dedup();
    numbers.shrink_to_fit();
    numbers
}
