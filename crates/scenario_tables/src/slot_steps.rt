//! Steps on single entries of a boot record. Each puts the bytes of an entry into a file.
ghost use Rattle.std.specs.Prelude.{◌+◌, ◌^◌, ◌<◌, ◌≤◌, IsTrue, length};
ghost use Rattle.extended_chain.specs.Chain.{start_of};
ghost use Rattle.extended_chain.specs.Extended.{greatest_end};

use crate::table_steps::{has_last, is_near, read_entry, read_specs};
use anyhow::{Result, bail};
use extended_chain::{LogicalSpec, extended_entry};
use mbr_table::{MbrEntry, put_entry};
use scenario_words::{Arguments, Setting};
use std::alloc::Global;

/// A step on an entry.
#[derive(Debug, Drop)]
pub enum SlotStep {
    /// An entry whose first sector is counted from a sector.
    Entry {
        name: String,
        start: u32,
        entry: MbrEntry,
    },
    /// That of the extended partition which has these logical partitions.
    Extended {
        name: String,
        specs: Vec<LogicalSpec>,
    },
}

impl SlotStep {
    /// The step of a verb, where it is one of these.
    pub fn read(alloc: Global, verb: &str, words: &mut Arguments) -> Result<Option<SlotStep>> {
        let step = match verb {
            "entry" => SlotStep::Entry {
                name: words.text("a file")?,
                start: words.word("a sector")?,
                entry: read_entry(words)?,
            },
            "extended" => SlotStep::Extended {
                name: words.text("a file")?,
                specs: read_specs(alloc, words)?,
            },
            _ => return Ok(None),
        };
        Ok(Some(step))
    }

    /// Does it, and says what came of it.
    pub fn play(self, setting: &mut Setting) -> Result<String> {
        match self {
            SlotStep::Entry { name, start, entry } => put_slot(setting, &name, start, &entry),
            SlotStep::Extended { name, specs } => put_extended(setting, &name, &specs),
        }
    }
}

fn put_slot(setting: &mut Setting, name: &str, start: u32, entry: &MbrEntry) -> Result<String> {
    if !has_last(entry) {
        bail!("an entry without a sector");
    }
    let mut room = [0; 16];
    put_entry(&mut room, 0, start, entry);
    setting.store(name, &room)
}

fn put_extended(setting: &mut Setting, name: &str, specs: &[LogicalSpec]) -> Result<String> {
    if !may_extend(specs) {
        bail!("no extended partition");
    }
    put_slot(setting, name, 0, &extended_entry(specs))
}

/// Whether there is a partition, the first one stands behind its record, and each ends fewer than 2^32 sectors behind
/// that record.
#[tactic(auto, using(extended_chain::proofs::ExtendedReads::ends_within))]
fn may_extend(specs: &[LogicalSpec]) -> bool
    ensures some { IsTrue result → 0 < length specs.now }
    ensures end { IsTrue result → start_of specs.now ≤ greatest_end specs.now }
    ensures fits { IsTrue result → greatest_end specs.now < start_of specs.now + 2 ^ 32 }
{
    if specs.is_empty() {
        return false;
    }
    let head = specs[0].head;
    for spec in specs {
        if !is_near(head, spec.first, spec.count) {
            return false;
        }
    }
    head < specs[0].first
}
