//! Images beside what tells at once of most bugs that they are of another package, or wait on
//! another bug: their fields lie elsewhere in memory.
//! This project's own rule.

ghost use Rattle.std.specs.Prelude.{◌≡◌, ℕ, List, false};
ghost use Rattle.bug_record.specs.Lists.{concerns};
ghost use Rattle.bug_record.specs.Sets.{has};
ghost use Rattle.store_sets.specs.Sums.{name_sum, IsSumOf, AreWaits};

use bug_record::{SetImage, Shared};
use std::marker::Model;

/// The sum of the bytes of a name, which equal names share.
pub(crate) fn name_sum(name: &str) -> u32
    ensures { result ≡ name_sum name.now }
{
    let mut sum: u32 = 0;
    for byte in name.as_bytes() {
        sum = sum.wrapping_add(u32::from(*byte));
    }
    sum
}

// The sum of the package's name, where these fields concern no other package.
fn sum_of(shared: &Shared) -> Option<u32>
    ensures { IsSumOf result shared.now }
{
    if shared.affects.as_slice().is_empty() {
        Some(name_sum(shared.package.as_str()))
    } else {
        None
    }
}

// Which bugs a set waits on.
#[derive(Clone, Copy, Debug, PartialEq, Eq, Drop)]
enum Waits {
    OnNone,
    OnOne(u32),
    // Its fields tell.
    OnSome,
}

// Which bugs a set with these fields waits on.
fn waits_of(shared: &Shared) -> Waits
    ensures { AreWaits result shared.now }
{
    match shared.blockers.as_slice() {
        [] => Waits::OnNone,
        [only] => match u32::try_from(*only) {
            Ok(only) => Waits::OnOne(only),
            Err(_) => Waits::OnSome,
        },
        _ => Waits::OnSome,
    }
}

/// The image of a set, beside that sum and the bugs that it waits on.
/// Contracts see the image.
#[derive(Drop)]
pub(crate) struct SummedImage {
    image: SetImage,
    sum: Option<u32>,
    waits: Waits,
}

impl Model for SummedImage {
    ghost use Rattle.bug_record.specs.declared.bug.SetImage.{SetImage};
    ghost use Rattle.store_sets.specs.Sums.{IsSumOf, AreWaits};

    ghost Value = { SetImage };

    ghost view = { λ s. s.image };

    ghost invariant = { λ s. IsSumOf s.sum s.image.shared × AreWaits s.waits s.image.shared };
}

impl SummedImage {
    /// Keeps an image.
    /// It takes no memory.
    pub(crate) fn of(image: SetImage) -> SummedImage
        ensures { result ≡ image }
    {
        let sum = sum_of(image.shared.fields());
        let waits = waits_of(image.shared.fields());
        SummedImage { image, sum, waits }
    }

    /// The image.
    pub(crate) fn image(&self) -> &SetImage
        ensures { result.now ≡ self.now }
    {
        &self.image
    }

    /// Whether the set may concern a package whose name has this sum.
    pub(crate) fn may_concern(&self, sum: u32) -> bool
        ensures { (name : List ℕ) → sum ≡ name_sum name → result ≡ false → concerns self.now.shared name ≡ false }
    {
        match self.sum {
            Some(own) => own == sum,
            None => true,
        }
    }
    /// Whether the set waits on the bug of this number.
    pub(crate) fn waits_on(&self, number: u64) -> bool
        ensures { result ≡ has self.now.shared.blockers number }
    {
        match self.waits {
            Waits::OnNone => false,
            Waits::OnOne(only) => u64::from(only) == number,
            Waits::OnSome => self
                .image
                .shared
                .fields()
                .blockers
                .as_slice()
                .contains(&number),
        }
    }
}
