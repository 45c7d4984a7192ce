ghost use Rattle.std.specs.Prelude.{◌≡◌, ◌≢◌, ℕ, ◌+◌, ◌^◌, ◌<◌, ◌≤◌, List as list_of, All, IfSome, MatchBool, [], length, slice_index};
ghost use Rattle.sha2.specs.Hashers.{Holds256};
ghost use Rattle.journal_format.specs.Journals.{IsMarked, IsWindow};
ghost use Rattle.copy_states.specs.Along.{IsPresent};
ghost use Rattle.copier_course.specs.Courses.{AreMarkedIn, Checks, Compares, GoesOn, HasMarks, IsAtFirst, IsBehind, IsCopyJob, IsCourse, IsFull, Records, Takes, first_in, need_of};
ghost use Rattle.copier_course.specs.declared.courses.Course.{Course};

use crate::{CopyJob, Need, Window};
use base_fields::List;
use journal_format::RECORDED;
use sha2::{Digest, Sha256};

/// How far a copier has come: the marks that it keeps of units and ranges, 0x44 where they are recorded; its window
/// and the numbers of the units that are in it, written and not yet recorded; its present unit; the first range that
/// isn't checked; and the hash of that range's bytes in the units before the present one.
#[derive(Drop)]
pub struct Course {
    pub units: List<u8>,
    pub ranges: List<u8>,
    pub window: u32,
    pub unit: u64,
    pub range: u64,
    pub pending: Window,
    pub hash: Sha256,
}

impl Course {
    /// Where a copier begins that has these marks.
    pub fn begin(job: &CopyJob, units: List<u8>, ranges: List<u8>, window: u32) -> Course
        requires job { IsCopyJob job.now }
        requires units { length units ≡ job.now.id.units }
        requires ranges { length ranges ≡ job.now.id.ranges }
        requires window { IsWindow window }
        ensures course { IsCourse job.now result }
        ensures first { IsAtFirst job.now result }
        ensures marks { HasMarks units ranges window result }
    {
        let range = first_unmarked(ranges.as_slice(), 0, job.id.ranges);
        let unit = first_unit(job, range);
        Course {
            units,
            ranges,
            window,
            unit,
            range,
            pending: Window::new(),
            hash: Sha256::new(),
        }
    }

    /// What is to be done next.
    pub fn need(&self, job: &CopyJob) -> Need
        requires job { IsCopyJob job.now }
        requires course { IsCourse job.now self.now }
        ensures { result ≡ need_of job.now self.now }
    {
        if self.range == job.id.ranges {
            return Need::Done;
        }
        if self.unit == end_of(job, self.range) {
            return Need::Range { r: self.range };
        }
        if self.units.as_slice()[self.unit as usize] == RECORDED {
            return Need::Kept { k: self.unit };
        }
        Need::Unit { k: self.unit }
    }

    /// Passes the present unit, with these bytes, into the window.
    pub fn take(&mut self, bytes: &[u8])
        requires room { length self.old.pending < 16 }
        requires bounded { self.old.unit < 2 ^ 32 }
        ensures { Takes bytes.now self.old self.new }
    {
        self.hash.update(bytes);
        self.pending.push(self.unit);
        self.unit += 1;
    }

    /// Whether the window is to be closed: it is full, or the range has no further unit that isn't recorded.
    pub fn is_full(&self, job: &CopyJob) -> bool
        requires job { IsCopyJob job.now }
        requires there { self.now.range < job.now.id.ranges }
        requires units { length self.now.units ≡ job.now.id.units }
        requires high { self.now.unit ≤ first_in job.now (self.now.range + 1) }
        ensures { MatchBool result (IsFull job.now self.now) (GoesOn job.now self.now) }
    {
        if self.pending.len() >= self.window as usize {
            return true;
        }
        let end = end_of(job, self.range);
        first_unmarked(self.units.as_slice(), self.unit, end) == end
    }

    /// Records the units of the window, which is empty then.
    pub fn record_pending(&mut self)
        requires { All (λ k. k < length self.old.units) self.old.pending }
        ensures { Records self.old self.new }
    {
        mark(&mut self.units, self.pending.as_slice());
        self.pending.clear();
    }

    /// Records the present range, each unit of which is passed, and goes on to the next one that isn't checked.
    pub fn check(&mut self, job: &CopyJob)
        requires job { IsCopyJob job.now }
        requires course { IsCourse job.now self.old }
        requires behind { IsBehind job.now self.old }
        ensures course { IsCourse job.now self.new }
        ensures first { IsAtFirst job.now self.new }
        ensures checks { Checks self.old self.new }
    {
        self.ranges.set(self.range as usize, RECORDED);
        self.range = first_unmarked(self.ranges.as_slice(), self.range + 1, job.id.ranges);
        self.unit = first_unit(job, self.range);
        self.hash = Sha256::new();
    }

    /// The hash, where it isn't the wanted one. The hasher is empty then.
    pub fn difference(&mut self, want: [u8; 32]) -> Option<[u8; 32]>
        ensures exact { (m : list_of ℕ) → Holds256 self.old.hash m → Compares want m result }
        ensures differs { IfSome result (λ got. want ≢ got) }
        ensures same { self.new ≡ record self.old { hash = self.new.hash } }
    {
        let got = self.hash.finalize_reset();
        if got == want {
            return None;
        }
        Some(got)
    }
}

/// The first of these marks from number `from` on that isn't recorded, or `to` where there is none before.
fn first_unmarked(marks: &[u8], from: u64, to: u64) -> u64
    requires from { from ≤ to }
    requires to { to ≤ length marks.now }
    ensures low { from ≤ result }
    ensures high { result ≤ to }
    ensures all { (k : ℕ) → from ≤ k → k < result → IsMarked marks.now k }
    ensures found { result < to → ¬ IsMarked marks.now result }
{
    for k in from..to {
        if marks[k as usize] != RECORDED {
            return k;
        }
    }
    to
}

/// Records these units in the marks.
fn mark(units: &mut List<u8>, ks: &[u64])
    requires { All (λ k. k < length units.old) ks.now }
    ensures { AreMarkedIn ks.now units.old units.new }
{
    for k in ks {
        units.set(*k as usize, RECORDED);
    }
}

/// The number of a range's first unit; behind the last range, the number of units.
fn first_unit(job: &CopyJob, range: u64) -> u64
    requires job { IsCopyJob job.now }
    requires within { range ≤ job.now.id.ranges }
    ensures { result ≡ first_in job.now range }
{
    if range < job.id.ranges {
        return job.units.first_of(range);
    }
    job.units.count()
}

/// The number behind a range's last unit.
fn end_of(job: &CopyJob, range: u64) -> u64
    requires job { IsCopyJob job.now }
    requires there { range < job.now.id.ranges }
    ensures exact { result ≡ first_in job.now (range + 1) }
    ensures most { result ≤ job.now.id.units }
{
    job.units.first_of(range) + job.units.count_of(range)
}
