//! The images of sets that are known.

ghost use Rattle.std.specs.Prelude.{◌≡◌, ℕ, None, [], ◌∷◌, IfSome, IsTrue};
ghost use Rattle.std.specs.Option.{option_and_then, option_copied};
ghost use Rattle.version_nodes.specs.Trees.{Ancestry};
ghost use Rattle.bug_record.specs.Images.{CoverSets};
ghost use Rattle.store_keys.specs.Keys.{key_of, set_after};
ghost use Rattle.store_sets.specs.Plain.{desk_of};
ghost use Rattle.table_reads.specs.Known.{known_key, known_set, followed, IsPartOf, IsKnownOf, IsLearnt};
ghost use Rattle.table_reads.specs.BugTests.{are_alone, are_unknown};

use crate::bug_tests::{are_alone, are_unknown, is_known};
use bug_record::{Change, SetImage};
use std::alloc::Global;
use store_keys::key_of;
use store_sets::BugSets;

// How many bugs it knows at most.
const MOST_BUGS: usize = 8192;

// How many images of a change it follows at most: they are followed by a recursion.
const MOST_IMAGES: usize = 200;

/// The images of some sets of a desk, which need not be read again.
/// It knows at most 8,192 bugs; its images share the texts and the lists of those that it was told.
/// Contracts see the key of each bug whose set is known, which is the number of the first of the
/// set, and the image of each key.
/// This project's own rule.
#[derive(Drop)]
pub struct KnownSets {
    pub(crate) bugs: BugSets,
    // How many bugs it was told of since it knew none: at least as many as it knows.
    pub(crate) told: usize,
}

impl KnownSets {
    /// No set is known.
    /// It takes no memory.
    pub fn new(alloc: Global) -> KnownSets
        ensures { (k : ℕ) → known_set result k ≡ None }
    {
        KnownSets {
            bugs: BugSets::new(alloc),
            told: 0,
        }
    }

    /// The image of the set that the bug of this number is in, if it is known.
    /// It takes no memory.
    pub fn image_of(&self, number: u64) -> Option<&SetImage>
        ensures { option_copied result ≡ option_and_then (known_set self.now) (known_key self.now number) }
    {
        self.bugs.image_of(number)
    }

    /// A copy of it, which shares its texts and lists; `None` too where no more of them can be
    /// counted.
    pub fn recall(&self, number: u64) -> Option<SetImage>
        ensures { IfSome result (IsKnownOf self.now number) }
    {
        self.image_of(number)?.copy().ok()
    }

    /// A copy of the image that is known of the first bug of a change's image, where it has one
    /// alone.
    pub fn recall_for(&self, change: Option<&Change>) -> Option<SetImage>
        ensures { IfSome result (λ image. (n : ℕ) × IsKnownOf self.now n image) }
    {
        match change?.images.as_slice() {
            [image] => self.recall(key_of(image)),
            _ => None,
        }
    }

    // Whether there is room for the bugs of an image.
    fn has_room(&self, image: &SetImage) -> bool {
        let count = image.members.as_slice().len();
        count <= MOST_BUGS && self.told <= MOST_BUGS - count
    }

    // Whether none of an image's bugs is known, and there is room for them.
    fn may_learn(&self, image: &SetImage) -> bool
        ensures { IsTrue result → IsTrue (are_unknown self.now.bugs image.now.members) }
    {
        self.has_room(image) && are_unknown(&self.bugs, image.members.as_slice())
    }

    // Whether each of an image's bugs is in no known set or in one by itself, and there is room.
    fn may_follow(&self, image: &SetImage) -> bool
        ensures { IsTrue result → IsTrue (are_alone self.now.bugs image.now.members) }
    {
        self.has_room(image) && are_alone(&self.bugs, image.members.as_slice())
    }

    // Notes that it was told of the bugs of an image.
    fn count(&mut self, image: &SetImage)
        ensures { self.new.bugs ≡ self.old.bugs }
    {
        self.told = self.told.saturating_add(image.members.as_slice().len());
    }

    // All that was known is known no more.
    fn forget(&mut self, alloc: Global)
        ensures { (k : ℕ) → known_set self.new k ≡ None }
    {
        self.bugs = BugSets::new(alloc);
        self.told = 0;
    }

    // Puts the image of a set, which covers those that are known; where there is no memory, all is
    // forgotten.
    fn put(&mut self, alloc: Global, image: &SetImage)
        requires whole { (tree : Ancestry) (next : ℕ) → CoverSets (desk_of self.old.bugs tree next) (image.now ∷ []) }
        ensures { IsPartOf (known_set self.new) (set_after (image.now ∷ []) (known_set self.old)) }
    {
        match self.bugs.put(alloc, std::slice::from_ref(image)) {
            Ok(()) => {}
            Err(_) => self.forget(alloc),
        }
    }

    // Learns the image of a set, where none of its bugs is known and there is room and memory.
    fn learn_image(&mut self, alloc: Global, image: &SetImage)
        ensures learns { IsLearnt (key_of image.now) image.now (known_set self.old) (known_set self.new) }
        ensures keeps { IsPartOf (known_set self.old) (known_set self.new) }
    {
        if !self.may_learn(image) {
            return;
        }
        match self.bugs.put(alloc, std::slice::from_ref(image)) {
            Ok(()) => self.count(image),
            Err(_) => {}
        }
    }

    /// Learns the image of a set that was found under a key, where that is the number of its first
    /// bug, none of its bugs is known, and there is room and memory; otherwise all stays.
    pub fn learn(&mut self, alloc: Global, key: u64, image: &SetImage)
        ensures learns { IsLearnt key image.now (known_set self.old) (known_set self.new) }
        ensures keeps { IsPartOf (known_set self.old) (known_set self.new) }
    {
        let own = key_of(image);
        if key != own {
            return;
        }
        self.learn_image(alloc, image);
    }

    // Follows a change of one set.
    fn follow_one(&mut self, alloc: Global, image: &SetImage)
        ensures { IsPartOf (known_set self.new) (set_after (image.now ∷ []) (known_set self.old)) }
    {
        if is_known(&self.bugs, image) {
            self.put(alloc, image);
        } else if self.may_follow(image) {
            self.put(alloc, image);
            self.count(image);
        } else {
            self.forget(alloc);
        }
    }

    // Follows a change of few sets, the last one first.
    fn follow_each(&mut self, alloc: Global, images: &[SetImage])
        ensures { IsPartOf (known_set self.new) (set_after images.now (known_set self.old)) }
    {
        match images {
            [] => {}
            [image, others @ ..] => {
                self.follow_each(alloc, others);
                self.follow_one(alloc, image);
            }
        }
    }

    /// Follows a change of these sets, which was made: what is known then is so after it.
    /// An image is known then, where it has the bugs of a set that is known, or each of its bugs is
    /// in none or in one by itself; otherwise, and where there are more than 200 images, or no room
    /// or no memory, all is forgotten.
    pub fn follow(&mut self, alloc: Global, images: &[SetImage])
        ensures { IsPartOf (known_set self.new) (set_after images.now (known_set self.old)) }
    {
        if images.len() > MOST_IMAGES {
            self.forget(alloc);
        } else {
            self.follow_each(alloc, images);
        }
    }

    /// The same of the change of a line, if there is one.
    pub fn follow_line(&mut self, alloc: Global, change: Option<&Change>)
        ensures { IsPartOf (known_set self.new) (followed (option_copied change.entry) (known_set self.old)) }
    {
        match change {
            Some(change) => self.follow(alloc, change.images.as_slice()),
            None => {}
        }
    }
}
