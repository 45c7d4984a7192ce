//! The two devices of a copy, a target and a journal, under one clock: what each reads, what a stop may leave of
//! them, and what their calls cost.
#![tactic(auto)]

ghost use Rattle.std.specs.Prelude.{◌≡◌, ℕ, ◌+◌, ◌-◌, ◌≤◌, ◌++◌, List, length, take, drop, replicate, IfOk, OnOk, OnErr};
ghost use Rattle.base_fields.specs.Fields.{written};
ghost use Rattle.bench.specs.declared.Dev.{Dev};
ghost use Rattle.bench.specs.declared.Dev.TheVariants.{Journal};
ghost use Rattle.outside.specs.Counts.{IsCount, Rose};
ghost use Rattle.bench.specs.Disk.{Disk, IsPair, IsSettled, StillLeaves, Torn, Grown, After, Looked, Touches, Grows, other_of};
ghost use Rattle.bench.specs.Meter.{Meter, IsAttached, HasNoOther, FailsPastRoom, SameNames, Attaches, Bills, of_device};

/// One of the two devices of a copy.
#[derive(Clone, Copy, Debug, PartialEq, Eq)]
pub enum Dev {
    /// The device that is copied to.
    Target,
    /// The device that the progress of a copy is recorded on.
    Journal,
}

/// A call on a device failed.
#[derive(Clone, Copy, Debug, PartialEq, Eq)]
pub struct BenchErr;

/// The two devices of a copy under one clock. Where the type tells them, contracts see what each device reads and
/// what a stop may leave of it. A failure is answered only where the count of the call's device rose. Offsets and
/// lengths are in bytes.
///
/// Between two syncs of a device each written range may hold any bytes after a stop, and all other bytes stay.
pub trait Bench {
    /// Holds of a type whose devices are known.
    ghost told: { Type 0 };

    /// What the devices read, and what a stop may leave, where it is told.
    ghost disk: { Self → Disk };

    /// The faults of each device, the work, and how each device is attached.
    ghost meter: { Self → Meter };

    /// Attaches a device under a name. It changes no byte.
    fn attach(&mut self, dev: Dev, name: &str) -> Result<(), BenchErr>
        requires { HasNoOther (meter self.old) dev name.now }
        ensures looked { Looked (disk self.old) (disk self.new) }
        ensures stays { (each : Dev) → StillLeaves each (disk self.old) (disk self.new) }
        ensures bill { Bills dev (length name.now) (meter self.old) (meter self.new) }
        ensures failed { OnErr result (Rose (of_device dev (meter self.old).faults) (of_device dev (meter self.new).faults)) }
        ensures ok { OnOk result (Attaches dev name.now (meter self.old) (meter self.new)) }
        ensures err { OnErr result (SameNames (meter self.old) (meter self.new)) };

    /// The length of a device.
    fn length(&mut self, dev: Dev) -> Result<u64, BenchErr>
        requires { IsAttached (meter self.old) dev }
        ensures exact { told → IfOk result (λ n. n ≡ length ((disk self.old).reads dev)) }
        ensures looked { Looked (disk self.old) (disk self.new) }
        ensures stays { (each : Dev) → StillLeaves each (disk self.old) (disk self.new) }
        ensures bill { Bills dev 0 (meter self.old) (meter self.new) }
        ensures same_names { SameNames (meter self.old) (meter self.new) }
        ensures failed { OnErr result (Rose (of_device dev (meter self.old).faults) (of_device dev (meter self.new).faults)) };

    /// Fills the buffer with the bytes from an offset on. Where the devices are not known, a range that isn't inside
    /// the length is a failure.
    fn read_at(&mut self, dev: Dev, at: u64, buf: &mut [u8]) -> Result<(), BenchErr>
        requires attached { IsAttached (meter self.old) dev }
        requires inside { told → at + length buf.old ≤ length ((disk self.old).reads dev) }
        ensures there { told → OnOk result (buf.new ≡ take (length buf.old) (drop at ((disk self.old).reads dev))) }
        ensures looked { Looked (disk self.old) (disk self.new) }
        ensures stays { (each : Dev) → StillLeaves each (disk self.old) (disk self.new) }
        ensures bill { Bills dev 0 (meter self.old) (meter self.new) }
        ensures same_names { SameNames (meter self.old) (meter self.new) }
        ensures failed { OnErr result (Rose (of_device dev (meter self.old).faults) (of_device dev (meter self.new).faults)) };

    /// Writes bytes at an offset. Where the devices are not known, a range that isn't inside the length is a failure.
    /// After a failure the range reads any bytes.
    fn write_at(&mut self, dev: Dev, at: u64, bytes: &[u8]) -> Result<(), BenchErr>
        requires attached { IsAttached (meter self.old) dev }
        requires inside { told → at + length bytes.now ≤ length ((disk self.old).reads dev) }
        ensures wrote { told → OnOk result ((disk self.new).reads dev ≡ written ((disk self.old).reads dev) at bytes.now) }
        ensures touches { Touches dev at (length bytes.now) (disk self.old) (disk self.new) }
        ensures torn { OnOk result ((image : List ℕ) → After (Torn at (length bytes.now)) ((disk self.old).leaves dev) image → (disk self.new).leaves dev image) }
        ensures stays { OnErr result (StillLeaves dev (disk self.old) (disk self.new)) }
        ensures bill { Bills dev (length bytes.now) (meter self.old) (meter self.new) }
        ensures same_names { SameNames (meter self.old) (meter self.new) }
        ensures failed { OnErr result (Rose (of_device dev (meter self.old).faults) (of_device dev (meter self.new).faults)) };

    /// Grows the journal to a length by zeros. Where the devices are not known, a length below the present one is a
    /// failure. After a failure it has any length between the old and the new.
    fn grow(&mut self, len: u64) -> Result<(), BenchErr>
        requires attached { IsAttached (meter self.old) Dev.Journal }
        requires longer { told → length ((disk self.old).reads Dev.Journal) ≤ len }
        ensures grew { told → OnOk result ((disk self.new).reads Dev.Journal ≡ (disk self.old).reads Dev.Journal ++ replicate (len - length ((disk self.old).reads Dev.Journal)) 0) }
        ensures grows { Grows len (disk self.old) (disk self.new) }
        ensures between { OnOk result ((image : List ℕ) → After (Grown len) ((disk self.old).leaves Dev.Journal) image → (disk self.new).leaves Dev.Journal image) }
        ensures stays { OnErr result (StillLeaves Dev.Journal (disk self.old) (disk self.new)) }
        ensures bill { Bills Dev.Journal (len - length ((disk self.old).reads Dev.Journal)) (meter self.old) (meter self.new) }
        ensures same_names { SameNames (meter self.old) (meter self.new) }
        ensures failed { OnErr result (Rose (of_device Dev.Journal (meter self.old).faults) (of_device Dev.Journal (meter self.new).faults)) };

    /// Puts all that is written to a device on its disk. After a failure all that was pending still is.
    fn sync(&mut self, dev: Dev) -> Result<(), BenchErr>
        requires { IsAttached (meter self.old) dev }
        ensures settled { OnOk result (IsSettled (disk self.new) dev) }
        ensures looked { Looked (disk self.old) (disk self.new) }
        ensures other_stays { StillLeaves (other_of dev) (disk self.old) (disk self.new) }
        ensures pending { OnErr result (StillLeaves dev (disk self.old) (disk self.new)) }
        ensures bill { Bills dev 0 (meter self.old) (meter self.new) }
        ensures same_names { SameNames (meter self.old) (meter self.new) }
        ensures failed { OnErr result (Rose (of_device dev (meter self.old).faults) (of_device dev (meter self.new).faults)) };

    /// The present counts as since any earlier moment.
    ghost counts_now: { (bench : Self) (m : ℕ) (t j : List ℕ) → m ≤ (disk bench).moment → IsPair (disk bench) t j → (disk bench).left m t j };

    /// Since this moment there is no other.
    ghost only_now: { (bench : Self) (t j : List ℕ) → (disk bench).left (disk bench).moment t j → IsPair (disk bench) t j };

    /// A device as it reads is one of its images.
    ghost reads_leave: { told → (bench : Self) (dev : Dev) → (disk bench).leaves dev ((disk bench).reads dev) };

    /// A sure bench with a room and a work not above it has counted no fault.
    ghost fails_past_room: { (bench : Self) → FailsPastRoom (meter bench) };

    /// Each count of faults is at most the greatest number of 64 bits.
    ghost counts_end: { (bench : Self) (dev : Dev) → IsCount (of_device dev (meter bench).faults) };
}
