ghost use Rattle.std.specs.Prelude.{◌≡◌, ℕ, ◌+◌, ◌*◌, ◌^◌, ◌<◌, ◌≤◌, ◌∷◌, [], IfOk, IsErrOf, OnOk, length, slice_index};
ghost use Rattle.outside.specs.Counts.{NoneFell, Rose};
ghost use Rattle.outside.specs.Files.{IsThere, OthersStay, bytes_of};
ghost use Rattle.gpt_table.specs.GptParts.{gpt_parts};
ghost use Rattle.image_layout.specs.Covering.{FitsDisk};
ghost use Rattle.image_tables.specs.Tables.{AreHeads, PutsParts, entries_parts, head_part, header_parts};

use base_fields::put_bytes as set_bytes;
use gpt_table::{GptHeads, GptSpec, gpt};
use image_writes::put_bytes;
use outside::{Files, WriteErr};

/// The bytes of the 128 entries of a GUID partition table.
const ENTRIES_LEN: usize = 16384;

/// Puts a GUID partition table: the entries, and the sectors of the headers.
pub fn put_guid<F: Files>(
    files: &mut F,
    name: &str,
    guid: &GptSpec,
    buf: &mut [u8],
) -> Result<(), WriteErr>
    requires room { 16384 ≤ length buf.old }
    requires fits { FitsDisk guid.now }
    requires there { F.told → IsThere (F.file files.old) name.now (guid.now.sectors * guid.now.sector ≤ length (bytes_of (F.file files.old) name.now)) }
    ensures none_fell { NoneFell (F.counts files.old) (F.counts files.new) }
    ensures failed { IsErrOf result WriteErr.Failed → Rose (F.counts files.old).faults (F.counts files.new).faults }
    ensures others { OthersStay name.now (F.file files.old) (F.file files.new) }
    ensures puts { F.told → OnOk result (PutsParts (gpt_parts guid.now) name.now (F.file files.old) (F.file files.new)) }
{
    let heads = put_entries(files, name, guid, &mut buf[..ENTRIES_LEN])?;
    put_headers(files, name, guid, &heads, buf)?;
    Ok(())
}

/// Puts the entries in front, and in the backup where there is one. Gives the heads of the headers.
fn put_entries<F: Files>(
    files: &mut F,
    name: &str,
    guid: &GptSpec,
    entries: &mut [u8],
) -> Result<GptHeads, WriteErr>
    requires room { length entries.old ≡ 16384 }
    requires fits { FitsDisk guid.now }
    requires there { F.told → IsThere (F.file files.old) name.now (guid.now.sectors * guid.now.sector ≤ length (bytes_of (F.file files.old) name.now)) }
    ensures none_fell { NoneFell (F.counts files.old) (F.counts files.new) }
    ensures failed { IsErrOf result WriteErr.Failed → Rose (F.counts files.old).faults (F.counts files.new).faults }
    ensures others { OthersStay name.now (F.file files.old) (F.file files.new) }
    ensures heads { IfOk result (AreHeads guid.now) }
    ensures puts { F.told → OnOk result (PutsParts (entries_parts guid.now) name.now (F.file files.old) (F.file files.new)) }
{
    let heads = gpt(guid, entries);
    let sector = u64::from(guid.sector);
    put_bytes(files, name, guid.entries_at * sector, entries)?;
    if guid.backup {
        let at = (guid.sectors - 1 - ENTRIES_LEN as u64 / sector) * sector;
        put_bytes(files, name, at, entries)?;
    }
    Ok(heads)
}

/// Puts the sector of the front header, and where there is a backup that of its header.
fn put_headers<F: Files>(
    files: &mut F,
    name: &str,
    guid: &GptSpec,
    heads: &GptHeads,
    buf: &mut [u8],
) -> Result<(), WriteErr>
    requires room { 16384 ≤ length buf.old }
    requires fits { FitsDisk guid.now }
    requires heads { AreHeads guid.now heads.now }
    requires there { F.told → IsThere (F.file files.old) name.now (guid.now.sectors * guid.now.sector ≤ length (bytes_of (F.file files.old) name.now)) }
    ensures none_fell { NoneFell (F.counts files.old) (F.counts files.new) }
    ensures failed { IsErrOf result WriteErr.Failed → Rose (F.counts files.old).faults (F.counts files.new).faults }
    ensures others { OthersStay name.now (F.file files.old) (F.file files.new) }
    ensures puts { F.told → OnOk result (PutsParts (header_parts guid.now) name.now (F.file files.old) (F.file files.new)) }
{
    let sector = u64::from(guid.sector);
    put_head(files, name, sector, guid.sector, &heads.front, buf)?;
    if guid.backup {
        let at = (guid.sectors - 1) * sector;
        put_head(files, name, at, guid.sector, &heads.back, buf)?;
    }
    Ok(())
}

/// Puts a sector that begins with these bytes and has zeros behind them.
fn put_head<F: Files>(
    files: &mut F,
    name: &str,
    at: u64,
    sector: u32,
    head: &[u8],
    buf: &mut [u8],
) -> Result<(), WriteErr>
    requires head { length head.now ≡ 512 }
    requires sector { 512 ≤ sector }
    requires room { sector ≤ length buf.old }
    requires there { F.told → IsThere (F.file files.old) name.now (at + sector ≤ length (bytes_of (F.file files.old) name.now)) }
    ensures none_fell { NoneFell (F.counts files.old) (F.counts files.new) }
    ensures failed { IsErrOf result WriteErr.Failed → Rose (F.counts files.old).faults (F.counts files.new).faults }
    ensures others { OthersStay name.now (F.file files.old) (F.file files.new) }
    ensures puts { F.told → OnOk result (PutsParts (head_part at sector head.now ∷ []) name.now (F.file files.old) (F.file files.new)) }
{
    let room = &mut buf[..sector as usize];
    set_head(room, head);
    put_bytes(files, name, at, room)?;
    Ok(())
}

/// Sets the room to these bytes and zeros behind them.
fn set_head(room: &mut [u8], head: &[u8])
    requires head { length head.now ≡ 512 }
    requires room { 512 ≤ length room.old }
    ensures len { length room.new ≡ length room.old }
    ensures bytes { (o : ℕ) → o < length room.old → slice_index room.new o ≡ slice_index head.now o }
{
    room.fill(0);
    set_bytes(room, 0, head);
}
