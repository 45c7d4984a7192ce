ghost use Rattle.std.specs.Prelude.{◌≡◌, ◌≤◌, IfOk, length};

use crate::printing;
use base_fields::{List, NoMemory};
use gpt_table::{Flags, GptEntry, GptSpec, gpt, name_units};
use hybrid_table::hybrid_bytes;
use mbr_table::{MbrEntry, MbrSpec, mbr_bytes, protective_entry};
use std::alloc::Global;
use std::io::Write;

/// 0FC63DAF-8483-4772-8E79-3D69D8477DE4, the type of a Linux file system.
const LINUX: [u8; 16] = [
    0x0F, 0xC6, 0x3D, 0xAF, 0x84, 0x83, 0x47, 0x72, 0x8E, 0x79, 0x3D, 0x69, 0xD8, 0x47, 0x7D, 0xE4,
];

/// The partition `p` of these sectors.
fn partition(first: u64, last: u64) -> GptEntry {
    let flags = Flags {
        bootable: true,
        read_only: false,
        hidden: false,
        no_automount: true,
    };
    GptEntry {
        kind: LINUX,
        own: [7; 16],
        first,
        last,
        attrs: flags.attributes(),
        name: name_units(b"p"),
    }
}

fn one_partition(alloc: Global, first: u64, last: u64) -> Result<List<GptEntry>, NoMemory>
    ensures { IfOk result (λ entries. length entries ≡ 1) }
{
    let mut entries = List::new(alloc);
    entries.push(partition(first, last))?;
    Ok(entries)
}

/// The record that protects the table of a disk of so many sectors.
fn protecting(sectors: u64) -> [u8; 72]
    requires { 2 ≤ sectors }
{
    let none = MbrEntry::EMPTY;
    mbr_bytes(&MbrSpec {
        signature: 0,
        entries: [protective_entry(sectors), none, none, none],
    })
}

/// The record of the hybrid: its front ends behind 34 sectors, and the partition is of type 0C.
fn hybrid() -> [u8; 72] {
    let entry = MbrEntry {
        active: false,
        kind: 0x0C,
        first: 2048,
        count: 2048,
    };
    hybrid_bytes(0, 34, &[entry])
}

/// A table of one partition of 1,048,576 bytes at byte 1,048,576, in 4,129 sectors of 512 bytes.
pub fn print_gpt<W: Write>(alloc: Global, out: &mut W) -> anyhow::Result<()> {
    print_narrow(alloc, out, "gpt.img", &protecting(4129))
}

/// The same as a hybrid.
pub fn print_hybrid<W: Write>(alloc: Global, out: &mut W) -> anyhow::Result<()> {
    print_narrow(alloc, out, "hybrid.img", &hybrid())
}

fn print_narrow<W: Write>(
    alloc: Global,
    out: &mut W,
    name: &str,
    record: &[u8],
) -> anyhow::Result<()> {
    let spec = GptSpec {
        disk: [9; 16],
        sectors: 4129,
        entries_at: 2,
        backup: true,
        entries: one_partition(alloc, 2048, 4095)?,
        sector: 512,
    };
    let mut slots = [0; 16_384];
    let heads = gpt(&spec, &mut slots);
    printing::image(out, name, 2_114_048)?;
    printing::part(out, 440, record)?;
    printing::part(out, 512, &heads.front)?;
    printing::part(out, 1024, &slots)?;
    printing::part(out, 2_097_152, &slots)?;
    printing::part(out, 2_113_536, &heads.back)?;
    Ok(())
}

/// The same in 517 sectors of 4,096 bytes.
pub fn print_wide<W: Write>(alloc: Global, out: &mut W) -> anyhow::Result<()> {
    let spec = GptSpec {
        disk: [9; 16],
        sectors: 517,
        entries_at: 2,
        backup: true,
        entries: one_partition(alloc, 256, 511)?,
        sector: 4096,
    };
    let mut slots = [0; 16_384];
    let heads = gpt(&spec, &mut slots);
    printing::image(out, "gpt4096.img", 2_117_632)?;
    printing::part(out, 440, &protecting(517))?;
    printing::part(out, 4096, &heads.front)?;
    printing::part(out, 8192, &slots)?;
    printing::part(out, 2_097_152, &slots)?;
    printing::part(out, 2_113_536, &heads.back)?;
    Ok(())
}
