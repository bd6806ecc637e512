//! Crashes that are counted, so that one which was left out is seen.

ghost use Rattle.std.specs.Prelude.{◌≡◌, ℕ, IsTrue};
ghost use Rattle.store_contract.specs.Store.{one_more};

use sqlite_disk::Crash;

/// A disk that counts how often it has crashed.
///
/// `Crash` says what a crash may leave, and that is so too where none is made.
/// The count tells the two apart.
pub trait CountsCrashes: Crash {
    /// How often it has crashed, up to `u64::MAX`.
    ghost crashes: { Self → ℕ };

    /// Crashes once, as `crash` does, and counts it.
    fn crash_once(&mut self)
        ensures once { crashes self.new ≡ one_more (crashes self.old) }
        ensures left { Self.Disk.may_leave self.old (Self.Disk.seen self.new) }
        ensures usable { IsTrue (Self.Disk.is_usable self.new) }
        ensures clean { IsTrue (Self.Disk.is_clean self.new) → IsTrue (Self.Disk.is_clean self.old) };
}
