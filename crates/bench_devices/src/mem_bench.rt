ghost use Rattle.std.specs.Prelude.{◌≡◌, ℕ, ◌-◌, ◌↔◌, List, IsOk, IsTrue, ◌≤◌, ◌+◌, ◌++◌, IfOk, OnOk, OnErr, Some, None, false, length, take, drop, replicate, vec_len, vec_capacity};
ghost use Rattle.base_fields.specs.Fields.{written};
ghost use Rattle.bench.specs.declared.Dev.TheVariants.{Target, Journal};
ghost use Rattle.bench.specs.Disk.{IsPair, StillLeaves, other_of, part_of};
ghost use Rattle.bench_devices.specs.History.{ReadsAlike, disk_of, reads_of};
ghost use Rattle.bench_devices.specs.HistoryLaws.{counts_now_of, only_now_of, reads_leave_of, within_room};
ghost use Rattle.bench_devices.specs.Leaving.{settled_of};
ghost use Rattle.bench_devices.specs.MemBench.{meter_of};

use crate::gate::Gate;
use crate::record::{Choice, Kind, Record};
use base_fields::NoMemory;
use bench::{Bench, BenchErr, Dev};
use std::alloc::Global;

/// The two devices in memory. They tell all: each call is recorded with its bytes.
#[derive(Debug, Drop)]
pub struct MemBench {
    first_target: Vec<u8>,
    first_journal: Vec<u8>,
    target: Vec<u8>,
    journal: Vec<u8>,
    log: Record,
    gate: Gate,
    ghost target_reads: { target.items ≡ reads_of (record { target = first_target.items; journal = first_journal.items }) log.calls Target },
    ghost journal_reads: { journal.items ≡ reads_of (record { target = first_target.items; journal = first_journal.items }) log.calls Journal },
    ghost journal_room: { length journal.items + log.room ≤ vec_capacity journal + log.used },
}

impl MemBench {
    ghost use Rattle.outside.specs.Calls.{listing, unused};
    ghost use Rattle.bench_devices.specs.MemBenchCalls.{IsPendingAt, calls_of, kept_of, passing_of, pending_in, story_of, torn_story, untouched, uncounted};

    /// The two devices with these bytes, all of them on the disk, both attached without a name. All memory that
    /// later calls need is taken here: `room` bytes for the record of the calls and as many for their bytes, and
    /// both devices with what the journal may grow by.
    pub fn new(
        alloc: Global,
        target: &[u8],
        journal: &[u8],
        room: usize,
    ) -> Result<MemBench, NoMemory>
        ensures story { IfOk result (λ m. story_of m ≡ untouched target.now journal.now room) }
        ensures meter { IfOk result (λ m. ⟦<MemBench as Bench>⟧.meter m ≡ uncounted room) }
        ensures calls { IfOk result (λ m. calls_of m ≡ unused) }
        ensures passing { IfOk result (λ m. passing_of m ≡ None) }
    {
        Ok(MemBench {
            first_target: Vec::from_slice(alloc, target)?,
            first_journal: Vec::from_slice(alloc, journal)?,
            target: Vec::from_slice(alloc, target)?,
            journal: with_room(alloc, journal, room)?,
            log: Record::new(alloc, room)?,
            gate: Gate::new(alloc),
        })
    }

    /// Lets the call of this number fail. The calls of the two devices are numbered from 0 from the making of the
    /// object.
    pub fn fail(&mut self, call: u64) -> Result<(), NoMemory>
        ensures ok { OnOk result ((calls_of self.new ≡ listing (calls_of self.old) call)
            × (⟦<MemBench as Bench>⟧.meter self.new ≡ record (⟦<MemBench as Bench>⟧.meter self.old) { sure = false })) }
        ensures err { OnErr result ((calls_of self.new ≡ calls_of self.old)
            × (⟦<MemBench as Bench>⟧.meter self.new ≡ ⟦<MemBench as Bench>⟧.meter self.old)) }
        ensures same_passing { passing_of self.new ≡ passing_of self.old }
        ensures same_story { story_of self.new ≡ story_of self.old }
    {
        self.gate.list(call)
    }

    /// Lets so many calls more pass. Every later call fails.
    pub fn stop_after(&mut self, calls: u64)
        ensures passing { passing_of self.new ≡ Some calls }
        ensures meter { ⟦<MemBench as Bench>⟧.meter self.new ≡ record (⟦<MemBench as Bench>⟧.meter self.old) { sure = false } }
        ensures same_calls { calls_of self.new ≡ calls_of self.old }
        ensures same_story { story_of self.new ≡ story_of self.old }
    {
        self.gate.stop_after(calls);
    }

    /// How many writes and growths of both devices are pending.
    pub fn pending(&self) -> usize
        ensures { result ≡ pending_in (story_of self.now) }
    {
        self.log.pending(self.settled())
    }

    /// Whether a place of a device lies in a pending write.
    pub fn is_pending_at(&self, dev: Dev, at: u64) -> bool
        ensures { IsTrue result ↔ IsPendingAt (story_of self.now) dev at }
    {
        self.log.is_pending_at(dev, at, self.settled())
    }

    /// Puts a byte into the last pending write that covers a place, as a stop finds it. What the bench reads stays.
    #[tactic(auto, using(crate::proofs::TearLemmas::alike_reads, crate::proofs::TearLemmas::alike_names, crate::proofs::TearLemmas::alike_stays, crate::proofs::TearLemmas::alike_images))]
    pub fn tear(&mut self, dev: Dev, at: u64, byte: u8)
        requires { IsPendingAt (story_of self.old) dev at }
        ensures torn { story_of self.new ≡ torn_story (story_of self.old) dev at byte }
        ensures reads { (each : Dev) → (⟦<MemBench as Bench>⟧.disk self.new).reads each ≡ (⟦<MemBench as Bench>⟧.disk self.old).reads each }
        ensures stays { (each : Dev) → StillLeaves each (⟦<MemBench as Bench>⟧.disk self.old) (⟦<MemBench as Bench>⟧.disk self.new) }
        ensures no_more { (each : Dev) → StillLeaves each (⟦<MemBench as Bench>⟧.disk self.new) (⟦<MemBench as Bench>⟧.disk self.old) }
        ensures alike { ReadsAlike (story_of self.old).log (story_of self.new).log }
        ensures same_meter { ⟦<MemBench as Bench>⟧.meter self.new ≡ ⟦<MemBench as Bench>⟧.meter self.old }
        ensures same_calls { calls_of self.new ≡ calls_of self.old }
        ensures same_passing { passing_of self.new ≡ passing_of self.old }
    {
        let settled = self.settled();
        self.log.tear(dev, at, byte, settled);
    }

    /// A bench on one image of each device. The pending write number i, counted from 0 over both devices in the
    /// order of the calls, is there whole where `keep[i]` is true, and absent where it is false or `keep` ends
    /// before; a pending growth counts as a write. The journal has the greatest length of a growth that is kept,
    /// else that of its last sync, and what was written past it is cut. Nothing is pending, no device has a name,
    /// no call fails, and none of the room is used.
    #[tactic(auto, using(crate::proofs::LeavingLemmas::image_leaves, crate::proofs::ReplayLemmas::image_first))]
    pub fn leave(self, alloc: Global, keep: &[bool]) -> Result<MemBench, NoMemory>
        ensures story { IfOk result (λ m. story_of m ≡ untouched (kept_of (story_of self) keep.now Dev.Target) (kept_of (story_of self) keep.now Dev.Journal) (story_of self).log.room) }
        ensures among { IfOk result (λ m. IsPair (⟦<MemBench as Bench>⟧.disk self) ((⟦<MemBench as Bench>⟧.disk m).reads Dev.Target) ((⟦<MemBench as Bench>⟧.disk m).reads Dev.Journal)) }
        ensures meter { IfOk result (λ m. ⟦<MemBench as Bench>⟧.meter m ≡ uncounted (story_of self).log.room) }
        ensures calls { IfOk result (λ m. calls_of m ≡ unused) }
        ensures passing { IfOk result (λ m. passing_of m ≡ None) }
    {
        let settled = self.settled();
        let most = self.log.kept_length(settled, keep);
        let choice = Choice { most, ..settled };
        let target = self
            .log
            .image(alloc, &self.first_target, Dev::Target, choice, keep)?;
        let journal = self
            .log
            .image(alloc, &self.first_journal, Dev::Journal, choice, keep)?;
        let left = MemBench::new(alloc, &target, &journal, self.log.room())?;
        Ok(left)
    }

    /// Where each device was settled last.
    fn settled(&self) -> Choice
        ensures { result ≡ record { target = settled_of (story_of self.now).log.calls Dev.Target; journal = settled_of (story_of self.now).log.calls Dev.Journal; most = 0 } }
    {
        Choice {
            target: self.log.settled(Dev::Target),
            journal: self.log.settled(Dev::Journal),
            most: 0,
        }
    }
}

impl Bench for MemBench {
    ghost use Rattle.outside.specs.Counts.{Rose};
    ghost use Rattle.bench.specs.Disk.{After, Grown, Grows, IsSettled, Looked, StillLeaves, Torn, Touches, other_of};
    ghost use Rattle.bench_devices.specs.History.{Grows as GrowsTo, Names, Rested, Rests, Settles, Writes};
    ghost use Rattle.bench_devices.specs.MemBenchCalls.{FailsOnce, Passes, TakesCall, disk_in, meter_in, story_after, story_of};
    ghost use Rattle.bench.specs.Meter.{Attaches, Bills, HasNoOther, IsAttached, SameNames, of_device};

    ghost told = { Unit {0} };

    ghost disk = { λ m. disk_of (record { target = m.first_target.items; journal = m.first_journal.items }) m.log.calls };

    ghost meter = { λ m. meter_of m.gate m.log };

    ghost counts_now = { λ m moment t j le pair. counts_now_of (record { target = m.first_target.items; journal = m.first_journal.items }) m.log.calls moment t j le pair };

    ghost only_now = { λ m t j left. only_now_of (record { target = m.first_target.items; journal = m.first_journal.items }) m.log.calls t j left };

    ghost reads_leave = { λ told m dev. reads_leave_of (record { target = m.first_target.items; journal = m.first_journal.items }) m.log.calls dev };

    ghost counts_end = { λ m dev. m.gate.faults_end dev };

    ghost fails_past_room = { λ m sure room is le. within_room m.gate.past m.log room (m.gate.faults ≡ record { target = 0; journal = 0 }) is le (m.gate.no_fault sure) };

    fn attach(&mut self, dev: Dev, name: &str) -> Result<(), BenchErr>
        requires { HasNoOther (meter_in self.old) dev name.now }
        ensures looked { Looked (disk_in self.old) (disk_in self.new) }
        ensures stays { (each : Dev) → StillLeaves each (disk_in self.old) (disk_in self.new) }
        ensures bill { Bills dev (length name.now) (meter_in self.old) (meter_in self.new) }
        ensures failed { OnErr result (Rose (of_device dev (meter_in self.old).faults) (of_device dev (meter_in self.new).faults)) }
        ensures ok { OnOk result (Attaches dev name.now (meter_in self.old) (meter_in self.new)) }
        ensures err { OnErr result (SameNames (meter_in self.old) (meter_in self.new)) }
        ensures recorded { OnOk result (story_of self.new ≡ story_after (story_of self.old) dev (Names name.now) (32 + length name.now)) }
        ensures rested { OnErr result (Rested dev (length name.now) (story_of self.old).log (story_of self.new).log) }
        ensures passed { OnOk result ((meter_in self.new).faults ≡ (meter_in self.old).faults) }
        ensures fails { OnErr result (FailsOnce dev (length name.now) self.old self.new) }
        ensures passes { IsOk result ↔ Passes self.old (length name.now) }
        ensures takes { TakesCall (length name.now) self.old self.new }
    {
        if !self.gate.passes(&mut self.log, dev, name.len()) {
            return Err(BenchErr);
        }
        self.log.push(dev, Kind::Attached, 0, name.as_bytes(), 0);
        Ok(())
    }

    fn length(&mut self, dev: Dev) -> Result<u64, BenchErr>
        requires { IsAttached (meter_in self.old) dev }
        ensures exact { IfOk result (λ n. n ≡ length ((disk_in self.old).reads dev)) }
        ensures looked { Looked (disk_in self.old) (disk_in self.new) }
        ensures stays { (each : Dev) → StillLeaves each (disk_in self.old) (disk_in self.new) }
        ensures bill { Bills dev 0 (meter_in self.old) (meter_in self.new) }
        ensures same_names { SameNames (meter_in self.old) (meter_in self.new) }
        ensures failed { OnErr result (Rose (of_device dev (meter_in self.old).faults) (of_device dev (meter_in self.new).faults)) }
        ensures recorded { OnOk result (story_of self.new ≡ story_after (story_of self.old) dev Rests 32) }
        ensures rested { OnErr result (Rested dev 0 (story_of self.old).log (story_of self.new).log) }
        ensures passed { OnOk result ((meter_in self.new).faults ≡ (meter_in self.old).faults) }
        ensures fails { OnErr result (FailsOnce dev 0 self.old self.new) }
        ensures passes { IsOk result ↔ Passes self.old 0 }
        ensures takes { TakesCall 0 self.old self.new }
    {
        if !self.gate.passes(&mut self.log, dev, 0) {
            return Err(BenchErr);
        }
        self.log.push(dev, Kind::Rested, 0, &[], 0);
        match dev {
            Dev::Target => Ok(self.target.len() as u64),
            Dev::Journal => Ok(self.journal.len() as u64),
        }
    }

    fn read_at(&mut self, dev: Dev, at: u64, buf: &mut [u8]) -> Result<(), BenchErr>
        requires attached { IsAttached (meter_in self.old) dev }
        requires inside { at + length buf.old ≤ length ((disk_in self.old).reads dev) }
        ensures there { OnOk result (buf.new ≡ take (length buf.old) (drop at ((disk_in self.old).reads dev))) }
        ensures looked { Looked (disk_in self.old) (disk_in self.new) }
        ensures stays { (each : Dev) → StillLeaves each (disk_in self.old) (disk_in self.new) }
        ensures bill { Bills dev 0 (meter_in self.old) (meter_in self.new) }
        ensures same_names { SameNames (meter_in self.old) (meter_in self.new) }
        ensures failed { OnErr result (Rose (of_device dev (meter_in self.old).faults) (of_device dev (meter_in self.new).faults)) }
        ensures recorded { OnOk result (story_of self.new ≡ story_after (story_of self.old) dev Rests 32) }
        ensures rested { OnErr result (Rested dev 0 (story_of self.old).log (story_of self.new).log) }
        ensures passed { OnOk result ((meter_in self.new).faults ≡ (meter_in self.old).faults) }
        ensures fails { OnErr result (FailsOnce dev 0 self.old self.new) }
        ensures passes { IsOk result ↔ Passes self.old 0 }
        ensures takes { TakesCall 0 self.old self.new }
    {
        if !self.gate.passes(&mut self.log, dev, 0) {
            return Err(BenchErr);
        }
        self.log.push(dev, Kind::Rested, 0, &[], 0);
        match dev {
            Dev::Target => copy_from(&self.target, at as usize, buf),
            Dev::Journal => copy_from(&self.journal, at as usize, buf),
        }
        Ok(())
    }

    fn write_at(&mut self, dev: Dev, at: u64, bytes: &[u8]) -> Result<(), BenchErr>
        requires attached { IsAttached (meter_in self.old) dev }
        requires inside { at + length bytes.now ≤ length ((disk_in self.old).reads dev) }
        ensures wrote { OnOk result ((disk_in self.new).reads dev ≡ written ((disk_in self.old).reads dev) at bytes.now) }
        ensures touches { Touches dev at (length bytes.now) (disk_in self.old) (disk_in self.new) }
        ensures torn { OnOk result ((image : List ℕ) → After (Torn at (length bytes.now)) ((disk_in self.old).leaves dev) image → (disk_in self.new).leaves dev image) }
        ensures stays { OnErr result (StillLeaves dev (disk_in self.old) (disk_in self.new)) }
        ensures bill { Bills dev (length bytes.now) (meter_in self.old) (meter_in self.new) }
        ensures same_names { SameNames (meter_in self.old) (meter_in self.new) }
        ensures failed { OnErr result (Rose (of_device dev (meter_in self.old).faults) (of_device dev (meter_in self.new).faults)) }
        ensures recorded { OnOk result (story_of self.new ≡ story_after (story_of self.old) dev (Writes at bytes.now bytes.now) (32 + length bytes.now)) }
        ensures rested { OnErr result (Rested dev (length bytes.now) (story_of self.old).log (story_of self.new).log) }
        ensures passed { OnOk result ((meter_in self.new).faults ≡ (meter_in self.old).faults) }
        ensures fails { OnErr result (FailsOnce dev (length bytes.now) self.old self.new) }
        ensures passes { IsOk result ↔ Passes self.old (length bytes.now) }
        ensures takes { TakesCall (length bytes.now) self.old self.new }
    {
        if !self.gate.passes(&mut self.log, dev, bytes.len()) {
            return Err(BenchErr);
        }
        put(&mut self.target, &mut self.journal, dev, at as usize, bytes);
        self.log.push(dev, Kind::Wrote, at, bytes, 0);
        Ok(())
    }

    fn grow(&mut self, len: u64) -> Result<(), BenchErr>
        requires attached { IsAttached (meter_in self.old) Dev.Journal }
        requires longer { length ((disk_in self.old).reads Dev.Journal) ≤ len }
        ensures grew { OnOk result ((disk_in self.new).reads Dev.Journal ≡ (disk_in self.old).reads Dev.Journal ++ replicate (len - length ((disk_in self.old).reads Dev.Journal)) 0) }
        ensures grows { Grows len (disk_in self.old) (disk_in self.new) }
        ensures between { OnOk result ((image : List ℕ) → After (Grown len) ((disk_in self.old).leaves Dev.Journal) image → (disk_in self.new).leaves Dev.Journal image) }
        ensures stays { OnErr result (StillLeaves Dev.Journal (disk_in self.old) (disk_in self.new)) }
        ensures bill { Bills Dev.Journal (len - length ((disk_in self.old).reads Dev.Journal)) (meter_in self.old) (meter_in self.new) }
        ensures same_names { SameNames (meter_in self.old) (meter_in self.new) }
        ensures failed { OnErr result (Rose (of_device Dev.Journal (meter_in self.old).faults) (of_device Dev.Journal (meter_in self.new).faults)) }
        ensures recorded { OnOk result (story_of self.new ≡ story_after (story_of self.old) Dev.Journal (GrowsTo len) (32 + (len - length ((disk_in self.old).reads Dev.Journal)))) }
        ensures rested { OnErr result (Rested Dev.Journal (len - length ((disk_in self.old).reads Dev.Journal)) (story_of self.old).log (story_of self.new).log) }
        ensures passed { OnOk result ((meter_in self.new).faults ≡ (meter_in self.old).faults) }
        ensures fails { OnErr result (FailsOnce Dev.Journal (len - length ((disk_in self.old).reads Dev.Journal)) self.old self.new) }
        ensures passes { IsOk result ↔ Passes self.old (len - length ((disk_in self.old).reads Dev.Journal)) }
        ensures takes { TakesCall (len - length ((disk_in self.old).reads Dev.Journal)) self.old self.new }
    {
        let more = len as usize - self.journal.len();
        if !self.gate.passes(&mut self.log, Dev::Journal, more) {
            return Err(BenchErr);
        }
        add_zeros(&mut self.journal, more);
        self.log.push(Dev::Journal, Kind::Grew, len, &[], more);
        Ok(())
    }

    fn sync(&mut self, dev: Dev) -> Result<(), BenchErr>
        requires { IsAttached (meter_in self.old) dev }
        ensures settled { OnOk result (IsSettled (disk_in self.new) dev) }
        ensures looked { Looked (disk_in self.old) (disk_in self.new) }
        ensures other_stays { StillLeaves (other_of dev) (disk_in self.old) (disk_in self.new) }
        ensures pending { OnErr result (StillLeaves dev (disk_in self.old) (disk_in self.new)) }
        ensures bill { Bills dev 0 (meter_in self.old) (meter_in self.new) }
        ensures same_names { SameNames (meter_in self.old) (meter_in self.new) }
        ensures failed { OnErr result (Rose (of_device dev (meter_in self.old).faults) (of_device dev (meter_in self.new).faults)) }
        ensures recorded { OnOk result (story_of self.new ≡ story_after (story_of self.old) dev Settles 32) }
        ensures rested { OnErr result (Rested dev 0 (story_of self.old).log (story_of self.new).log) }
        ensures passed { OnOk result ((meter_in self.new).faults ≡ (meter_in self.old).faults) }
        ensures fails { OnErr result (FailsOnce dev 0 self.old self.new) }
        ensures passes { IsOk result ↔ Passes self.old 0 }
        ensures takes { TakesCall 0 self.old self.new }
    {
        if !self.gate.passes(&mut self.log, dev, 0) {
            return Err(BenchErr);
        }
        self.log.push(dev, Kind::Synced, 0, &[], 0);
        Ok(())
    }
}

/// The bytes, with room for so many more.
fn with_room(alloc: Global, bytes: &[u8], more: usize) -> Result<Vec<u8>, NoMemory>
    ensures items { IfOk result (λ v. v.items ≡ bytes.now) }
    ensures room { IfOk result (λ v. length bytes.now + more ≤ vec_capacity v) }
{
    let Some(all) = bytes.len().checked_add(more) else {
        return Err(NoMemory);
    };
    let mut copy = Vec::with_capacity(alloc, all)?;
    copy.extend_from_slice(bytes)?;
    Ok(copy)
}

/// Fills the buffer with the bytes from an offset on.
fn copy_from(bytes: &[u8], at: usize, buf: &mut [u8])
    requires { at + length buf.old ≤ length bytes.now }
    ensures { buf.new ≡ take (length buf.old) (drop at bytes.now) }
{
    let n = buf.len();
    buf.copy_from_slice(&bytes[at..at + n]);
}

/// Writes bytes at an offset of one of the two.
fn put(target: &mut Vec<u8>, journal: &mut Vec<u8>, dev: Dev, at: usize, bytes: &[u8])
    requires { at + length bytes.now ≤ length (part_of dev target.old.items journal.old.items) }
    ensures here { part_of dev target.new.items journal.new.items ≡ written (part_of dev target.old.items journal.old.items) at bytes.now }
    ensures other { part_of (other_of dev) target.new.items journal.new.items ≡ part_of (other_of dev) target.old.items journal.old.items }
    ensures len { length journal.new.items ≡ length journal.old.items }
    ensures room { vec_capacity journal.new ≡ vec_capacity journal.old }
{
    let end = at + bytes.len();
    match dev {
        Dev::Target => target[at..end].copy_from_slice(bytes),
        Dev::Journal => journal[at..end].copy_from_slice(bytes),
    }
}

/// Puts so many zeros behind the bytes, for which there is room.
fn add_zeros(bytes: &mut Vec<u8>, n: usize)
    requires { vec_len bytes.old + n ≤ vec_capacity bytes.old }
    ensures items { bytes.new.items ≡ bytes.old.items ++ replicate n 0 }
    ensures room { vec_capacity bytes.old ≤ vec_capacity bytes.new }
{
    for _ in 0..n {
        let _ = bytes.push(0);
    }
}
