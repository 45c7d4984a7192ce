ghost use Rattle.std.specs.Prelude.{◌≡◌, ℕ, if◌then◌else◌, List, OnOk, ◌&&◌, false, nat_le, slice_index_or, ◌+◌, ◌<◌, ◌≤◌, ◌↔◌, IsTrue, ◌++◌, ◌∷◌, [], All, AllPairs, IfOk, IfSome, length, vec_len, vec_capacity};
ghost use Rattle.base_fields.specs.Fields.{written};
ghost use Rattle.bench.specs.Disk.{part_of};
ghost use Rattle.bench_devices.specs.History.{Effect, ReadsAlike, Rests, effect_on, lengthened, logged, over, read_after};
ghost use Rattle.bench_devices.specs.Leaving.{changes, grown_to, image_after, settled_from, torn_calls, wrote_at};
ghost use Rattle.bench_devices.specs.Record.{IsWithin, StandsBefore, call_of, calls_of, effect_of, put_at};

use base_fields::NoMemory;
use bench::Dev;
use std::alloc::Global;
use std::marker::Model;

/// What a call did to its device.
#[derive(Clone, Copy, Debug, PartialEq, Eq)]
pub enum Kind {
    /// It wrote bytes at an offset.
    Wrote,
    /// It grew the device to a length.
    Grew,
    /// It put all that was written on the disk.
    Synced,
    /// It attached the device under a name.
    Attached,
    /// It did nothing: it read, asked for the length, or failed.
    Rested,
}

/// A call, whose bytes stand among those of all calls.
#[derive(Clone, Copy, Debug)]
pub struct Entry {
    pub dev: Dev,
    pub kind: Kind,
    pub at: u64,
    pub from: usize,
    pub len: usize,
}

/// The calls on a bench in memory, in a room that is taken at the start.
#[derive(Debug, Drop)]
pub struct Record {
    entries: Vec<Entry>,
    bytes: Vec<u8>,
    found: Vec<u8>,
    used: usize,
    room: usize,
}

impl Model for Record {
    ghost use Rattle.bench_devices.specs.History.{Log};

    ghost Value = { Log };

    ghost use Rattle.bench_devices.specs.Record.{calls_of, IsRecorded};

    ghost view = { λ r. record { calls = calls_of r.bytes.items r.found.items r.entries.items; used = r.used; room = r.room } };

    ghost invariant = { λ r. IsRecorded r.entries r.bytes r.found r.used r.room };
}

impl Record {
    ghost use Rattle.bench_devices.specs.Record.{effect_of};

    /// No call yet.
    pub fn new(alloc: Global, room: usize) -> Result<Record, NoMemory>
        ensures { IfOk result (λ r. r ≡ record { calls = []; used = 0; room = room }) }
    {
        Ok(Record {
            entries: Vec::with_capacity(alloc, room / 32)?,
            bytes: Vec::with_capacity(alloc, room)?,
            found: Vec::with_capacity(alloc, room)?,
            used: 0,
            room,
        })
    }

    /// Whether there is room for a call with so many bytes.
    pub fn has_room(&self, bytes: usize) -> bool
        ensures exact { IsTrue result ↔ (self.now.used + 32 + bytes ≤ self.now.room) }
        ensures within { self.now.used ≤ self.now.room }
    {
        let left = self.room - self.used;
        left >= 32 && left - 32 >= bytes
    }

    /// All the room.
    pub fn room(&self) -> usize
        ensures { result ≡ self.now.room }
    {
        self.room
    }

    #[tactic(auto, using(crate::proofs::RecordLemmas::calls_more, crate::proofs::RecordLemmas::apart_more))]
    /// Records a call with its bytes, and so many more that it uses.
    pub fn push(&mut self, dev: Dev, kind: Kind, at: u64, bytes: &[u8], more: usize)
        requires { self.old.used + 32 + length bytes.now + more ≤ self.old.room }
        ensures { self.new ≡ logged self.old (record { dev = dev; effect = effect_of kind at bytes.now bytes.now }) (32 + length bytes.now + more) }
    {
        let entry = Entry {
            dev,
            kind,
            at,
            from: self.bytes.len(),
            len: bytes.len(),
        };
        self.used += 32 + bytes.len() + more;
        store(
            &mut self.entries,
            &mut self.bytes,
            &mut self.found,
            entry,
            bytes,
        );
    }
}

/// What a stop keeps: where each device was settled last, and how far the journal is grown.
#[derive(Clone, Copy, Debug)]
pub struct Choice {
    pub target: usize,
    pub journal: usize,
    pub most: u64,
}

impl Record {
    ghost use Rattle.bench_devices.specs.History.{reads_of};
    ghost use Rattle.bench_devices.specs.Leaving.{is_pending_at, settled_of, pending_of, kept_length, image_of};

    /// How many calls there were up to the last that put all of a device on its disk.
    pub fn settled(&self, dev: Dev) -> usize
        ensures { result ≡ settled_of self.now.calls dev }
    {
        let mut last = 0;
        for k in 0..self.entries.len() {
            last = settled_after(self.entries[k], dev, k + 1, last);
        }
        last
    }

    /// How many of the calls are pending.
    pub fn pending(&self, choice: Choice) -> usize
        ensures { result ≡ pending_of (record { target = choice.target; journal = choice.journal }) self.now.calls }
    {
        let mut number = 0;
        for k in 0..self.entries.len() {
            if is_pending(self.entries[k], k, choice) {
                number += 1;
            }
        }
        number
    }

    /// The greatest length of a pending growth that is kept.
    pub fn kept_length(&self, choice: Choice, keep: &[bool]) -> u64
        ensures { result ≡ kept_length (record { target = choice.target; journal = choice.journal }) keep.now self.now.calls }
    {
        let mut number = 0;
        let mut most = 0;
        for k in 0..self.entries.len() {
            let entry = self.entries[k];
            if is_pending(entry, k, choice) {
                most = grown_to(entry, is_kept(keep, number), most);
                number += 1;
            }
        }
        most
    }

    /// Whether a place of a device lies in a pending write.
    pub fn is_pending_at(&self, dev: Dev, at: u64, choice: Choice) -> bool
        ensures { result ≡ is_pending_at (record { target = choice.target; journal = choice.journal }) dev at self.now.calls }
    {
        let mut any = false;
        for k in 0..self.entries.len() {
            let entry = self.entries[k];
            if covers(entry, &self.bytes, k, choice, dev, at) {
                any = true;
            }
        }
        any
    }

    /// Puts a byte into the last pending write that covers a place of a device, as a stop finds it.
    #[tactic(auto, using(crate::proofs::TearLemmas::found_alike))]
    pub fn tear(&mut self, dev: Dev, at: u64, byte: u8, choice: Choice)
        ensures alike { ReadsAlike self.old self.new }
        ensures torn { self.new ≡ record self.old { calls = torn_calls (record { target = choice.target; journal = choice.journal }) dev at byte self.old.calls } }
    {
        match place_of(&self.entries, &self.bytes, dev, at, choice) {
            None => {}
            Some(place) => self.found[place] = byte,
        }
    }

    /// The image of a device, from what it had at first.
    pub fn image(
        &self,
        alloc: Global,
        first: &[u8],
        dev: Dev,
        choice: Choice,
        keep: &[bool],
    ) -> Result<Vec<u8>, NoMemory>
        ensures { IfOk result (λ v. v.items ≡ image_of (record { target = first.now; journal = first.now }) (record { target = choice.target; journal = choice.journal }) keep.now choice.most dev self.now.calls) }
    {
        let mut number = 0;
        let mut reads = Vec::from_slice(alloc, first)?;
        let mut image = Vec::from_slice(alloc, first)?;
        for k in 0..self.entries.len() {
            let entry = self.entries[k];
            let most = choice.most;
            let kept = is_kept(keep, number);
            keep_image(
                entry,
                &self.found,
                dev,
                kept,
                most,
                reads.as_slice(),
                &mut image,
            )?;
            keep_reads(entry, &self.bytes, dev, &mut reads)?;
            if is_pending(entry, k, choice) {
                number += 1;
            }
        }
        Ok(image)
    }
}

/// After how many calls a device was settled last, where this is the call of that number.
fn settled_after(entry: Entry, dev: Dev, now: usize, before: usize) -> usize
    ensures { (bytes found : List ℕ) → result ≡ settled_from (effect_on entry.dev dev (effect_of entry.kind entry.at bytes found)) now before }
{
    match (entry.kind, entry.dev, dev) {
        (Kind::Synced, Dev::Target, Dev::Target) => now,
        (Kind::Synced, Dev::Journal, Dev::Journal) => now,
        _ => before,
    }
}

/// Whether the call behind so many is pending.
fn is_pending(entry: Entry, k: usize, choice: Choice) -> bool
    ensures { (bytes found : List ℕ) → result ≡ (changes (effect_of entry.kind entry.at bytes found) && nat_le (part_of entry.dev choice.target choice.journal) k) }
{
    let settled = match entry.dev {
        Dev::Target => choice.target,
        Dev::Journal => choice.journal,
    };
    match entry.kind {
        Kind::Wrote => settled <= k,
        Kind::Grew => settled <= k,
        Kind::Synced => false,
        Kind::Attached => false,
        Kind::Rested => false,
    }
}

/// Whether the pending call of a number is kept.
fn is_kept(keep: &[bool], number: usize) -> bool
    ensures { result ≡ slice_index_or keep.now number false }
{
    number < keep.len() && keep[number]
}

/// The greatest length of a growth so far, where the call is kept or not.
fn grown_to(entry: Entry, kept: bool, most: u64) -> u64
    ensures { (bytes found : List ℕ) → result ≡ grown_to (effect_of entry.kind entry.at bytes found) kept most }
{
    match entry.kind {
        Kind::Grew => if kept { entry.at.max(most) } else { most },
        Kind::Wrote => most,
        Kind::Synced => most,
        Kind::Attached => most,
        Kind::Rested => most,
    }
}

/// Where the byte at a place of a device stands among those of all calls, in the last pending write that covers it.
fn place_of(entries: &[Entry], bytes: &[u8], dev: Dev, at: u64, choice: Choice) -> Option<usize>
    requires within { All (IsWithin (length bytes.now)) entries.now }
    requires apart { AllPairs StandsBefore entries.now }
    ensures inside { IfSome result (λ place. place < length bytes.now) }
    ensures torn { (found : List ℕ) (byte : ℕ) → length found ≡ length bytes.now → calls_of bytes.now (put_at result byte found) entries.now ≡ torn_calls (record { target = choice.target; journal = choice.journal }) dev at byte (calls_of bytes.now found entries.now) }
{
    let mut place = None;
    for k in 0..entries.len() {
        let entry = entries[k];
        if covers(entry, bytes, k, choice, dev, at) {
            place = Some(entry.from + (at - entry.at) as usize);
        }
    }
    place
}

/// Whether the call behind so many is pending, and wrote at a place of a device.
fn covers(entry: Entry, bytes: &[u8], k: usize, choice: Choice, dev: Dev, at: u64) -> bool
    requires { IsWithin (length bytes.now) entry }
    ensures exact { (found : List ℕ) → result ≡ ((changes (call_of bytes.now found entry).effect && nat_le (part_of entry.dev choice.target choice.journal) k) && wrote_at (effect_on entry.dev dev (call_of bytes.now found entry).effect) at) }
    ensures inside { IsTrue result → (entry.at ≤ at) × (at < entry.at + entry.len) }
{
    is_pending(entry, k, choice) && wrote_at(entry, bytes, dev, at)
}

/// Whether a call wrote at a place of a device.
fn wrote_at(entry: Entry, bytes: &[u8], dev: Dev, at: u64) -> bool
    requires { IsWithin (length bytes.now) entry }
    ensures exact { (found : List ℕ) → result ≡ wrote_at (effect_on entry.dev dev (call_of bytes.now found entry).effect) at }
    ensures inside { IsTrue result → (entry.at ≤ at) × (at < entry.at + entry.len) }
{
    if !is_on(entry, dev) {
        return false;
    }
    match entry.kind {
        Kind::Wrote => entry.at <= at && at - entry.at < entry.len as u64,
        Kind::Grew => false,
        Kind::Synced => false,
        Kind::Attached => false,
        Kind::Rested => false,
    }
}

/// Whether a call is on a device.
fn is_on(entry: Entry, dev: Dev) -> bool
    ensures { (effect : Effect) → effect_on entry.dev dev effect ≡ (if result then effect else Rests) }
{
    match (entry.dev, dev) {
        (Dev::Target, Dev::Target) => true,
        (Dev::Target, Dev::Journal) => false,
        (Dev::Journal, Dev::Target) => false,
        (Dev::Journal, Dev::Journal) => true,
    }
}

/// The image of a device after one call more.
fn keep_image(
    entry: Entry,
    found: &[u8],
    dev: Dev,
    kept: bool,
    most: u64,
    reads: &[u8],
    image: &mut Vec<u8>,
) -> Result<(), NoMemory>
    requires { IsWithin (length found.now) entry }
    ensures { OnOk result ((bytes : List ℕ) → length bytes ≡ length found.now → image.new.items ≡ image_after kept most (effect_on entry.dev dev (call_of bytes found.now entry).effect) reads.now image.old.items) }
{
    if !is_on(entry, dev) {
        return Ok(());
    }
    match entry.kind {
        Kind::Wrote => {
            if kept {
                put_over(image, entry.at, &found[entry.from..entry.from + entry.len]);
            }
        }
        Kind::Grew => lengthen(image, entry.at.min(most))?,
        Kind::Synced => {
            image.clear();
            image.extend_from_slice(reads)?;
        }
        Kind::Attached => {}
        Kind::Rested => {}
    }
    Ok(())
}

/// What a device reads after one call more.
fn keep_reads(entry: Entry, bytes: &[u8], dev: Dev, reads: &mut Vec<u8>) -> Result<(), NoMemory>
    requires { IsWithin (length bytes.now) entry }
    ensures { OnOk result ((found : List ℕ) → reads.new.items ≡ read_after (effect_on entry.dev dev (call_of bytes.now found entry).effect) reads.old.items) }
{
    if !is_on(entry, dev) {
        return Ok(());
    }
    match entry.kind {
        Kind::Wrote => put_over(reads, entry.at, &bytes[entry.from..entry.from + entry.len]),
        Kind::Grew => lengthen(reads, entry.at)?,
        Kind::Synced => {}
        Kind::Attached => {}
        Kind::Rested => {}
    }
    Ok(())
}

/// Puts bytes over those from an offset on, and none past the end.
#[tactic(auto, using(crate::proofs::RecordLemmas::over_past, crate::proofs::RecordLemmas::over_cut, crate::proofs::RecordLemmas::over_inside))]
fn put_over(old: &mut [u8], at: u64, bytes: &[u8])
    ensures { old.new ≡ over old.old at bytes.now }
{
    if at >= old.len() as u64 {
        return;
    }
    let at = at as usize;
    let room = old.len() - at;
    if bytes.len() <= room {
        overwrite(old, at, bytes);
    } else {
        overwrite(old, at, &bytes[..room]);
    }
}

/// Writes bytes at an offset, all of them inside.
fn overwrite(old: &mut [u8], at: usize, bytes: &[u8])
    requires { at + length bytes.now ≤ length old.old }
    ensures { old.new ≡ written old.old at bytes.now }
{
    let end = at + bytes.len();
    old[at..end].copy_from_slice(bytes);
}

/// Lengthens by zeros.
fn lengthen(bytes: &mut Vec<u8>, len: u64) -> Result<(), NoMemory>
    ensures { OnOk result (bytes.new.items ≡ lengthened bytes.old.items len) }
{
    let more = len.saturating_sub(bytes.len() as u64);
    for _ in 0..more {
        bytes.push(0)?;
    }
    Ok(())
}

/// Puts an entry and its bytes behind the others, where the room for them was taken.
fn store(
    entries: &mut Vec<Entry>,
    bytes: &mut Vec<u8>,
    found: &mut Vec<u8>,
    entry: Entry,
    more: &[u8],
)
    requires entries { vec_len entries.old + 1 ≤ vec_capacity entries.old }
    requires bytes { vec_len bytes.old + length more.now ≤ vec_capacity bytes.old }
    requires found { vec_len found.old + length more.now ≤ vec_capacity found.old }
    ensures entries { entries.new.items ≡ entries.old.items ++ entry ∷ [] }
    ensures bytes { bytes.new.items ≡ bytes.old.items ++ more.now }
    ensures found { found.new.items ≡ found.old.items ++ more.now }
    ensures entries_room { vec_capacity entries.old ≤ vec_capacity entries.new }
    ensures bytes_room { vec_capacity bytes.old ≤ vec_capacity bytes.new }
    ensures found_room { vec_capacity found.old ≤ vec_capacity found.new }
{
    match (
        entries.push(entry),
        bytes.extend_from_slice(more),
        found.extend_from_slice(more),
    ) {
        (Ok(()), Ok(()), Ok(())) => {}
        _ => unreachable!(),
    }
}
