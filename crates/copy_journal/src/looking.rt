ghost use Rattle.std.specs.Prelude.{◌≡◌, ◌+◌, ◌≤◌, ◌↔◌, IfOk, IsTrue, OnErr, length};
ghost use Rattle.bench.specs.Disk.{Looked, StillLeaves};
ghost use Rattle.bench.specs.Meter.{CostsOn, IsAttached, SameNames};
ghost use Rattle.bench.specs.declared.Dev.{Dev};
ghost use Rattle.journal_format.specs.JobFields.{IsWithinLimits, fields_of};
ghost use Rattle.copy_journal.specs.Events.{Tells};
ghost use Rattle.copy_journal.specs.Faults.{HasFailed};

use bench::{Bench, BenchErr, Dev};
use journal_format::{HEADER_LEN, Held, JobId, MARKS, held_in};

/// A held journal: its length in bytes, and what its first bytes tell.
#[derive(Clone, Copy)]
pub(crate) struct Found {
    pub(crate) length: u64,
    pub(crate) held: Held,
}

impl Found {
    /// Whether it is opened for this job.
    pub(crate) fn is_for(&self, id: &JobId) -> bool
        requires { IsWithinLimits id.now }
        ensures { IsTrue result ↔ ((self.now.held.fields ≡ fields_of id.now) × (80 + id.now.units + id.now.ranges ≤ self.now.length)) }
    {
        self.held.fields == id.to_fields() && MARKS + id.units + id.ranges <= self.length
    }

    /// The job that it tells.
    pub(crate) fn kept(&self) -> JobId
        ensures { fields_of result ≡ self.now.held.fields }
    {
        JobId::from_fields(&self.held.fields)
    }
}

/// What the journal tells, where it is held.
pub(crate) fn look<B: Bench>(bench: &mut B) -> Result<Option<Found>, BenchErr>
    requires { IsAttached (B.meter bench.old) Dev.Journal }
    ensures exact { B.told → IfOk result (let j = (B.disk bench.old).reads Dev.Journal in Tells (length j) j) }
    ensures looked { Looked (B.disk bench.old) (B.disk bench.new) }
    ensures stays { (each : Dev) → StillLeaves each (B.disk bench.old) (B.disk bench.new) }
    ensures bill { CostsOn Dev.Journal 64 (B.meter bench.old) (B.meter bench.new) }
    ensures same_names { SameNames (B.meter bench.old) (B.meter bench.new) }
    ensures failed { OnErr result (HasFailed Dev.Journal (B.meter bench.old) (B.meter bench.new)) }
{
    let length = bench.length(Dev::Journal)?;
    if length < HEADER_LEN as u64 {
        return Ok(None);
    }
    let mut head = [0; HEADER_LEN];
    bench.read_at(Dev::Journal, 0, &mut head)?;
    Ok(found_in(length, &head))
}

/// What a journal of this length with these first bytes tells, where it is held.
fn found_in(len: u64, head: &[u8; 80]) -> Option<Found>
    ensures { Tells len head.now result }
{
    let held = held_in(head)?;
    Some(Found { length: len, held })
}
