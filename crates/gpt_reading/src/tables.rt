//! What the header and the 128 entries of a table say.
ghost use Rattle.std.specs.Prelude.{◌≡◌, ◌≤◌, IfOk, length, map, ◌+◌};
ghost use Rattle.gpt_reading.specs.Used.{slot_in, table_of, used_below};

use crate::slots::{is_used, read_guid, read_slot};
use base_fields::{List, NoMemory};
use gpt_table::GptEntry;
use std::alloc::Global;
use table_reading::read_long;

/// How many slots a table has.
const SLOTS: u32 = 128;

/// A GUID partition table: the disk's identifier in the order of RFC 9562, the LBAs of the first and the last sector
/// that a partition may have, and the entries in use with the numbers of their slots, from 1.
#[derive(Debug, Drop)]
pub struct GptTable {
    pub disk: [u8; 16],
    pub first_usable: u64,
    pub last_usable: u64,
    pub entries: List<GptEntry>,
    pub slots: List<u32>,
}

/// The slots in use and their numbers.
#[derive(Debug, Drop)]
struct UsedSlots {
    entries: List<GptEntry>,
    slots: List<u32>,
}

#[tactic(auto, using(crate::proofs::UsedSteps::used_none, crate::proofs::UsedSteps::used_more, crate::proofs::UsedSteps::unused_same))]
/// The slots in use among the 128 in these bytes.
fn used_slots(alloc: Global, bytes: &[u8]) -> Result<UsedSlots, NoMemory>
    requires { 16384 ≤ length bytes.now }
    ensures entries { IfOk result (λ used. used.entries ≡ map (slot_in bytes.now) (used_below (slot_in bytes.now) 128)) }
    ensures slots { IfOk result (λ used. used.slots ≡ map (λ k. k + 1) (used_below (slot_in bytes.now) 128)) }
{
    let mut entries = List::new(alloc);
    let mut slots = List::new(alloc);
    for k in 0..SLOTS {
        let entry = read_slot(bytes, 128 * k as usize);
        if is_used(&entry) {
            entries.push(entry)?;
            slots.push(k + 1)?;
        }
    }
    Ok(UsedSlots { entries, slots })
}

/// The table that a header and the bytes of its entries say. Neither sum is looked at.
pub fn read_table(alloc: Global, head: &[u8; 92], entries: &[u8]) -> Result<GptTable, NoMemory>
    requires { 16384 ≤ length entries.now }
    ensures { IfOk result (λ table. table ≡ table_of head.now entries.now) }
{
    let used = used_slots(alloc, entries)?;
    Ok(GptTable {
        disk: read_guid(head, 56),
        first_usable: read_long(head, 40),
        last_usable: read_long(head, 48),
        entries: used.entries,
        slots: used.slots,
    })
}
