//! What a crash may leave of a disk in memory.

ghost use Rattle.aw_disk.specs.Covered.{CrashesLeaveWhatIsCovered};

/// At each moment of a [`MemDisk`](crate::MemDisk) with no write since the last sync that succeeded, a
/// crash leaves the content of that sync and nothing else. At each other moment it may leave exactly
/// the images that are as long as that content or longer and have each byte of it that no write since
/// reached, with any bytes elsewhere. See docs/FORMATS.md, "The disk model".
pub fn crashes_leave_what_is_covered()
    ensures { CrashesLeaveWhatIsCovered }
{}
