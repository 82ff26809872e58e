ghost use Rattle.std.specs.Prelude.{◌≡◌, ◌≤◌, ℕ, List, length, Option, Some, IfOk, IfSome, OnOk, OnErr, IsErr};
ghost use Rattle.aw_disk.specs.Calls.{Reads, Written, HalfWritten, length_limit};
ghost use Rattle.aw_lists.specs.Faults.{Rose};
ghost use Rattle.aw_disk.specs.Images.{TornFrom};
ghost use Rattle.aw_disk.specs.Moments.{Unmoved, Elapsed};

/// The disk failed at this call, and counted a fault (docs/FORMATS.md, "The disk model").
#[derive(Clone, Copy, Debug, PartialEq, Eq)]
pub struct Failed;

/// A row of bytes that outlives a crash (docs/FORMATS.md, "The disk model").
///
/// `content` is the bytes as they read, or `None` where the disk doesn't tell. `faults` counts its
/// failures in 64 bits and stays at the last value. `clock` is the moment, which doesn't fall, and
/// `crash` is the images that a crash at a moment up to now might have left.
pub trait Disk {
    ghost content: { Self → Option (List ℕ) };

    ghost faults: { Self → ℕ };

    ghost clock: { Self → ℕ };

    ghost crash: { Self → ℕ → List ℕ → Type 0 };

    /// How many bytes there are, at most 2^62. `Failed`: the disk failed.
    fn len(&mut self) -> Result<u64, Failed>
        ensures length { IfOk result (λ count. IfSome (content self.old) (λ bytes. count ≡ length bytes)) }
        ensures limit { IfOk result (λ count. count ≤ length_limit) }
        ensures stays { content self.new ≡ content self.old }
        ensures time { Unmoved (clock self.old) (clock self.new) (crash self.old) (crash self.new) }
        ensures later { faults self.old ≤ faults self.new }
        ensures cause { IsErr result → Rose (faults self.old) (faults self.new) };

    /// Puts the bytes from `offset` on at the front of `into`, as many as there are and fit, and says
    /// how many. `Failed`: the disk failed, and `into` holds any bytes.
    fn read_at(&mut self, offset: u64, into: &mut [u8]) -> Result<usize, Failed>
        ensures read { IfOk result (λ count. IfSome (content self.old) (λ bytes. Reads count offset bytes into.new)) }
        ensures within { IfOk result (λ count. count ≤ length into.new) }
        ensures stays { content self.new ≡ content self.old }
        ensures time { Unmoved (clock self.old) (clock self.new) (crash self.old) (crash self.new) }
        ensures later { faults self.old ≤ faults self.new }
        ensures cause { IsErr result → Rose (faults self.old) (faults self.new) };

    /// Writes these bytes over those from `offset` on, and past the end. Until a sync succeeds a crash
    /// may leave any bytes in this range and past the end. `Failed`: the disk failed, which holds any
    /// bytes there from now on.
    fn write_at(&mut self, offset: u64, bytes: &[u8]) -> Result<(), Failed>
        requires { IfSome (content self.old) (λ content. offset ≤ length content) }
        ensures written { OnOk result (Written offset bytes.now (content self.old) (content self.new)) }
        ensures torn { OnErr result (HalfWritten offset (length bytes.now) (content self.old) (content self.new)) }
        ensures time { Elapsed (clock self.old) (clock self.new) (crash self.old) (crash self.new) (TornFrom offset (length bytes.now) (crash self.old (clock self.old))) }
        ensures later { faults self.old ≤ faults self.new }
        ensures cause { IsErr result → Rose (faults self.old) (faults self.new) };

    /// Puts the content on the disk, so that a crash from now on leaves it. `Failed`: the disk failed,
    /// and a crash leaves one of the images from before.
    fn sync(&mut self) -> Result<(), Failed>
        ensures durable { OnOk result ((image : List ℕ) → crash self.new (clock self.new) image → content self.new ≡ Some image) }
        ensures stays { content self.new ≡ content self.old }
        ensures time { Elapsed (clock self.old) (clock self.new) (crash self.old) (crash self.new) (crash self.old (clock self.old)) }
        ensures later { faults self.old ≤ faults self.new }
        ensures cause { IsErr result → Rose (faults self.old) (faults self.new) };

    /// The disk as it reads is one of the images that a crash now may leave.
    ghost is_an_image: { (disk : Self) (bytes : List ℕ) → content disk ≡ Some bytes → crash disk (clock disk) bytes };
}

impl<D: Disk> Disk for &mut D {
    ghost content = { λ disk. D.content disk.now };

    ghost faults = { λ disk. D.faults disk.now };

    ghost clock = { λ disk. D.clock disk.now };

    ghost crash = { λ disk. D.crash disk.now };

    ghost is_an_image = { λ disk bytes told. D.is_an_image disk.now bytes told };

    fn len(&mut self) -> Result<u64, Failed> {
        Disk::len(&mut **self)
    }

    fn read_at(&mut self, offset: u64, into: &mut [u8]) -> Result<usize, Failed> {
        Disk::read_at(&mut **self, offset, into)
    }

    fn write_at(&mut self, offset: u64, bytes: &[u8]) -> Result<(), Failed> {
        Disk::write_at(&mut **self, offset, bytes)
    }

    fn sync(&mut self) -> Result<(), Failed> {
        Disk::sync(&mut **self)
    }
}
