//! The entries of GUID partition tables.
ghost use Rattle.std.specs.Prelude.{◌≡◌, ◌+◌, ◌^◌, ◌≤◌, ◌⊎◌, IfOk, length};
ghost use Rattle.conf_keys.specs.Within.{IsPartitionWithin};
ghost use Rattle.gpt_table.specs.Flags.{attributes_of};
ghost use Rattle.gpt_table.specs.Names.{name_units};
ghost use Rattle.table_entries.specs.Entries.{flags_of, gpt_entry_of};

use crate::identifiers::own_guid;
use base_fields::NoMemory;
use conf_keys::PartitionSection;
use gpt_table::{Flags, GptEntry, name_units};
use std::alloc::Global;

/// The attribute bits of a partition.
fn attributes(part: &PartitionSection) -> u64
    ensures { result ≡ attributes_of (flags_of part.now) }
{
    Flags {
        bootable: part.bootable,
        read_only: part.read_only,
        hidden: part.hidden,
        no_automount: part.no_automount,
    }
    .attributes()
}

/// The name of a partition as the units of an entry.
#[tactic(auto, using(crate::proofs::Fits::name_is_short))]
fn units(part: &PartitionSection) -> [u16; 36]
    requires { IsPartitionWithin part.now }
    ensures { result ≡ name_units part.now.name }
{
    name_units(part.name.text().as_bytes())
}

/// The entry of a partition that begins at the byte `at` and has `size` bytes, in sectors of so
/// many bytes. `image` is the name of the image's section. Takes memory.
pub fn gpt_entry(
    alloc: Global,
    image: &str,
    part: &PartitionSection,
    at: u64,
    size: u64,
    sector: u32,
) -> Result<GptEntry, NoMemory>
    requires within { IsPartitionWithin part.now }
    requires end { at + size ≤ 2 ^ 44 }
    requires sector { (sector ≡ 512) ⊎ (sector ≡ 4096) }
    ensures { IfOk result (λ entry. entry ≡ gpt_entry_of image.now part.now at size sector) }
{
    let own = own_guid(alloc, image, part)?;
    let sector = u64::from(sector);
    Ok(GptEntry {
        kind: part.partition_type_uuid,
        own,
        first: at / sector,
        last: ((at + size) / sector).saturating_sub(1),
        attrs: attributes(part),
        name: units(part),
    })
}
