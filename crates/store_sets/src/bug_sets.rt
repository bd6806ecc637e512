//! The bugs of a desk in memory, by sets, as one value.

ghost use Rattle.std.specs.Prelude.{◌≡◌, ℕ, OnOk, OnErr, nat_eq};
ghost use Rattle.std.specs.HashSet.{contains};
ghost use Rattle.std.specs.Option.{option_or, option_and_then, option_copied};
ghost use Rattle.version_nodes.specs.Trees.{Ancestry};
ghost use Rattle.bug_record.specs.Images.{AreApart, CoverSets, bug_in};
ghost use Rattle.store_keys.specs.Keys.{IsKeyed, no_bugs, after_images};
ghost use Rattle.store_sets.specs.Places.{keys, sets};
ghost use Rattle.store_sets.specs.Named.{AreNamed};

use crate::named::add_blockers;
use crate::places::{Place, image_of, put_images};
use bug_record::SetImage;
use std::alloc::{AllocError, Global};
use std::collections::{HashMap, HashSet};

/// The bugs of a desk in memory: the image of each set of merged bugs stands at the first of them,
/// and the number of the first at the others.
/// Contracts see the key of each bug, which is the number of the first of its set, and the image of
/// each key.
/// This project's own rule.
#[derive(Drop)]
pub struct BugSets {
    pub(crate) places: HashMap<u64, Place>,
    // The numbers that are blockers, and perhaps such as were.
    pub(crate) blockers: HashSet<u64>,
    pub ghost keyed: { IsKeyed (keys places) (sets places) },
    pub ghost named: { AreNamed (sets places) (contains nat_eq blockers) },
}

impl BugSets {
    ghost use Rattle.store_sets.specs.Plain.{keyed_of, desk_of};

    /// No bug.
    /// It takes no memory.
    pub fn new(alloc: Global) -> BugSets
        ensures { keyed_of result ≡ no_bugs }
    {
        BugSets {
            places: HashMap::new(alloc),
            blockers: HashSet::new(alloc),
        }
    }

    /// The image of the set that the bug of this number is in, if there is such a bug.
    /// Takes no memory.
    pub fn image_of(&self, number: u64) -> Option<&SetImage>
        ensures { option_copied result ≡ option_and_then (keyed_of self.now).set ((keyed_of self.now).key number) }
    {
        image_of(&self.places, number)
    }

    /// Puts images of whole sets: each bug that they have is in the set of its image, and a number
    /// that was a key stays one only where it is the first of its image.
    /// Where there is no memory, all is as before; only a new number, or one that was no blocker,
    /// can want memory.
    /// One image that keeps its set, or has one bug alone, is put with one or two look-ups.
    pub fn put(&mut self, alloc: Global, images: &[SetImage]) -> Result<(), AllocError>
        requires apart { AreApart images.now }
        requires whole { (tree : Ancestry) (next : ℕ) → CoverSets (desk_of self.old tree next) images.now }
        ensures ok { OnOk result (keyed_of self.new ≡ after_images (keyed_of self.old) images.now) }
        ensures bugs { OnOk result ((tree : Ancestry) (next n : ℕ) → (desk_of self.new tree next).bug n
            ≡ option_or (bug_in images.now n) ((desk_of self.old tree next).bug n)) }
        ensures err { OnErr result (keyed_of self.new ≡ keyed_of self.old) }
    {
        add_blockers(&mut self.blockers, images)?;
        put_images(alloc, &mut self.places, images)
    }
}
