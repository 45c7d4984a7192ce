ghost use Rattle.std.specs.Prelude.{◌≡◌};
ghost use Rattle.image_specs.specs.IsSpec.{IsSpec};
ghost use Rattle.conf_keys.specs.Within.{IsHdWithin, IsSectorSize};
ghost use Rattle.placement_rules.specs.Bounds.{IsFrame};
ghost use Rattle.placement_rules.specs.Frames.{frame_of, front_as, has_guid, has_table, sector_as, table_as};

use crate::Frame;
use base_fields::TableKind;
use conf_keys::{HdKeys, Kind};
use image_specs::ImageSpec;

/// The bytes of the 128 entries of a GUID partition table.
pub(crate) const ENTRIES_LEN: u64 = 16_384;

/// Whether an image has a table.
pub fn has_table(table: TableKind) -> bool
    ensures { result ≡ has_table table }
{
    !matches!(table, TableKind::Bare)
}

/// Whether an image has a GUID partition table.
pub fn has_guid(table: TableKind) -> bool
    ensures { result ≡ has_guid table }
{
    matches!(table, TableKind::Gpt | TableKind::Hybrid)
}

fn table_as(kind: Kind, hd: &HdKeys) -> TableKind
    ensures { result ≡ table_as kind hd.now }
{
    match kind {
        Kind::Hd => hd.partition_table_type,
        _ => TableKind::Bare,
    }
}

fn sector_as(kind: Kind, hd: &HdKeys) -> u32
    ensures { result ≡ sector_as kind hd.now }
{
    match kind {
        Kind::Hd => hd.sector_size,
        _ => 512,
    }
}

fn front_as(table: TableKind, hd: &HdKeys) -> u64
    requires { IsHdWithin hd.now }
    ensures { result ≡ front_as table hd.now }
{
    match table {
        TableKind::Bare => 0,
        TableKind::Mbr => 512,
        TableKind::Gpt | TableKind::Hybrid => {
            (2 * u64::from(hd.sector_size)).max(hd.gpt_location + ENTRIES_LEN)
        }
    }
}

/// What an image has of tables, by its keys.
pub fn frame_of(spec: &ImageSpec) -> Frame
    requires spec { IsSpec spec.now }
    ensures frame { result ≡ frame_of spec.now }
    ensures within { IsFrame result }
{
    let hd = &spec.keys.hd;
    let table = table_as(spec.kind, hd);
    Frame {
        table,
        sector: sector_as(spec.kind, hd),
        front: front_as(table, hd),
        entries_at: hd.gpt_location,
        backup: has_guid(table) && !hd.gpt_no_backup,
        size: spec.keys.size,
    }
}
