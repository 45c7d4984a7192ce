ghost use Rattle.std.specs.Prelude.{◌≡◌, ℕ, ◌*◌, ◌^◌, ◌<◌, ◌≤◌, All, IfSome, IsErrOf, OnOk, length};
ghost use Rattle.outside.specs.Counts.{NoneFell, Rose};
ghost use Rattle.outside.specs.Files.{IsThere, OthersStay, bytes_of};
ghost use Rattle.mbr_table.specs.Mbr.{HasLast};
ghost use Rattle.extended_chain.specs.Chain.{Ascends, chain_parts};
ghost use Rattle.image_layout.specs.Covering.{FitsDisk};
ghost use Rattle.image_layout.specs.IsLayout.{IsLayout};
ghost use Rattle.image_layout.specs.Layout.{guid_parts_of, record_parts_of, table_parts};
ghost use Rattle.image_tables.specs.Tables.{Each, EndsWithin, PutsParts};

use crate::guid::put_guid;
use extended_chain::{LogicalSpec, record_bytes};
use gpt_table::GptSpec;
use image_layout::Layout;
use image_writes::put_bytes;
use mbr_table::{MbrSpec, mbr_bytes};
use outside::{Files, WriteErr};

/// Where a master boot record has its disk signature.
const SIGNATURE_AT: u64 = 440;

/// The sector of a disk with a chain of boot records.
const SECTOR: u64 = 512;

/// Puts the tables of a layout into its file, which is there with the layout's size. After a fault nothing is said
/// of that file, and the buffer may always hold any bytes.
pub fn put_tables<F: Files>(files: &mut F, layout: &Layout, buf: &mut [u8]) -> Result<(), WriteErr>
    requires room { 16384 ≤ length buf.old }
    requires layout { IsLayout layout.now }
    requires there { F.told → IsThere (F.file files.old) layout.now.file (length (bytes_of (F.file files.old) layout.now.file) ≡ layout.now.size) }
    ensures none_fell { NoneFell (F.counts files.old) (F.counts files.new) }
    ensures failed { IsErrOf result WriteErr.Failed → Rose (F.counts files.old).faults (F.counts files.new).faults }
    ensures others { OthersStay layout.now.file (F.file files.old) (F.file files.new) }
    ensures puts { F.told → OnOk result (PutsParts (table_parts layout.now) layout.now.file (F.file files.old) (F.file files.new)) }
{
    let name = layout.file.text();
    put_record(files, name, &layout.mbr)?;
    put_chain(files, name, layout.logical.as_slice())?;
    put_any_guid(files, name, &layout.gpt, buf)?;
    Ok(())
}

/// Puts a master boot record from its signature on, where there is one.
fn put_record<F: Files>(files: &mut F, name: &str, mbr: &Option<MbrSpec>) -> Result<(), WriteErr>
    requires last { IfSome mbr.now (λ spec. All (HasLast 0) spec.entries) }
    requires there { F.told → IsThere (F.file files.old) name.now (Each (EndsWithin (length (bytes_of (F.file files.old) name.now))) (record_parts_of mbr.now)) }
    ensures none_fell { NoneFell (F.counts files.old) (F.counts files.new) }
    ensures failed { IsErrOf result WriteErr.Failed → Rose (F.counts files.old).faults (F.counts files.new).faults }
    ensures others { OthersStay name.now (F.file files.old) (F.file files.new) }
    ensures puts { F.told → OnOk result (PutsParts (record_parts_of mbr.now) name.now (F.file files.old) (F.file files.new)) }
{
    match mbr {
        None => Ok(()),
        Some(spec) => {
            put_bytes(files, name, SIGNATURE_AT, &mbr_bytes(spec))?;
            Ok(())
        }
    }
}

/// Puts the boot record of each logical partition.
fn put_chain<F: Files>(files: &mut F, name: &str, logical: &[LogicalSpec]) -> Result<(), WriteErr>
    requires ascends { Ascends logical.now }
    requires there { F.told → IsThere (F.file files.old) name.now (Each (EndsWithin (length (bytes_of (F.file files.old) name.now))) (chain_parts logical.now)) }
    ensures none_fell { NoneFell (F.counts files.old) (F.counts files.new) }
    ensures failed { IsErrOf result WriteErr.Failed → Rose (F.counts files.old).faults (F.counts files.new).faults }
    ensures others { OthersStay name.now (F.file files.old) (F.file files.new) }
    ensures puts { F.told → OnOk result (PutsParts (chain_parts logical.now) name.now (F.file files.old) (F.file files.new)) }
{
    for (k, spec) in logical.iter().enumerate() {
        put_bytes(
            files,
            name,
            SECTOR * u64::from(spec.head),
            &record_bytes(logical, k),
        )?;
    }
    Ok(())
}

/// Puts a GUID partition table, where there is one.
fn put_any_guid<F: Files>(
    files: &mut F,
    name: &str,
    guid: &Option<GptSpec>,
    buf: &mut [u8],
) -> Result<(), WriteErr>
    requires room { 16384 ≤ length buf.old }
    requires fits { IfSome guid.now FitsDisk }
    requires there { F.told → IsThere (F.file files.old) name.now
        (IfSome guid.now (λ g. g.sectors * g.sector ≤ length (bytes_of (F.file files.old) name.now))) }
    ensures none_fell { NoneFell (F.counts files.old) (F.counts files.new) }
    ensures failed { IsErrOf result WriteErr.Failed → Rose (F.counts files.old).faults (F.counts files.new).faults }
    ensures others { OthersStay name.now (F.file files.old) (F.file files.new) }
    ensures puts { F.told → OnOk result (PutsParts (guid_parts_of guid.now) name.now (F.file files.old) (F.file files.new)) }
{
    match guid {
        None => Ok(()),
        Some(guid) => {
            put_guid(files, name, guid, buf)?;
            Ok(())
        }
    }
}
