//! The tables of a file.
ghost use Rattle.std.specs.Prelude.{◌≡◌, ◌⊎◌, ◌≤◌, Ok, IfErr, IfOk, length};
ghost use Rattle.outside.specs.Counts.{NoneFell};
ghost use Rattle.outside.specs.Files.{IsThere, bytes_of};
ghost use Rattle.table_reading.specs.Sector.{sector_of};
ghost use Rattle.table_reader.specs.Answers.{Answers, HasCause};
ghost use Rattle.table_reader.specs.Parts.{part_of};
ghost use Rattle.table_reader.specs.Tables.{AreTables, IsGptKind, chain_beside, gpt_beside, tables_of};

use crate::TableFault;
use crate::chain::read_logical;
use crate::gpt::read_gpt;
use crate::parts::{length_of, read_part};
use base_fields::{List, TableKind};
use gpt_reading::GptTable;
use mbr_table::{MbrEntry, MbrSpec};
use outside::Files;
use std::alloc::Global;
use table_reading::{kind_of, read_mbr, sector_size};

/// The bytes in front that show the sector size.
const FRONT_LEN: usize = 4104;

/// The tables of an image, in sectors that are counted from its start. The entries of `logical` are in the order of the
/// chain; `gpt` is there exactly where the kind is `Gpt` or `Hybrid`, and then no chain is read. A sector has `sector`
/// bytes, 512 beside a master boot record alone.
#[derive(Debug, Drop)]
pub struct Tables {
    pub kind: TableKind,
    pub signature: u32,
    pub slots: [MbrEntry; 4],
    pub logical: List<MbrEntry>,
    pub gpt: Option<GptTable>,
    pub sector: u32,
}

/// The first sector.
fn read_first<F: Files>(files: &mut F, name: &str, len: u64) -> Result<[u8; 512], TableFault>
    requires there { F.told → IsThere (F.file files.old) name.now (len ≡ length (bytes_of (F.file files.old) name.now)) }
    ensures none_fell { NoneFell (F.counts files.old) (F.counts files.new) }
    ensures cause { IfErr result (HasCause (F.counts files.old) (F.counts files.new)) }
    ensures same_files { F.file files.new ≡ F.file files.old }
    ensures long { IfOk result (λ _. 512 ≤ len) }
    ensures answers { F.told → Answers (part_of (bytes_of (F.file files.old) name.now) 0 512) result }
{
    let mut first = [0; 512];
    read_part(files, name, len, 0, &mut first)?;
    Ok(first)
}

/// The sector size of a table of that kind.
#[tactic(auto, using(crate::proofs::Fronts::sector_in_front))]
fn read_sector_size<F: Files>(
    files: &mut F,
    name: &str,
    len: u64,
    kind: TableKind,
) -> Result<u32, TableFault>
    requires long { 512 ≤ len }
    requires there { F.told → IsThere (F.file files.old) name.now (len ≡ length (bytes_of (F.file files.old) name.now)) }
    ensures none_fell { NoneFell (F.counts files.old) (F.counts files.new) }
    ensures cause { IfErr result (HasCause (F.counts files.old) (F.counts files.new)) }
    ensures same_files { F.file files.new ≡ F.file files.old }
    ensures size { IfOk result (λ sector. (sector ≡ 512) ⊎ (sector ≡ 4096)) }
    ensures answers { F.told → Answers (Ok (sector_of kind (bytes_of (F.file files.old) name.now))) result }
{
    let mut front = [0; FRONT_LEN];
    let seen = len.min(FRONT_LEN as u64) as usize;
    let part = &mut front[..seen];
    read_part(files, name, len, 0, part)?;
    Ok(sector_size(kind, part))
}

/// The chain beside a master boot record alone.
fn with_chain<F: Files>(
    alloc: Global,
    files: &mut F,
    name: &str,
    len: u64,
    spec: MbrSpec,
) -> Result<Tables, TableFault>
    requires there { F.told → IsThere (F.file files.old) name.now (len ≡ length (bytes_of (F.file files.old) name.now)) }
    ensures none_fell { NoneFell (F.counts files.old) (F.counts files.new) }
    ensures cause { IfErr result (HasCause (F.counts files.old) (F.counts files.new)) }
    ensures same_files { F.file files.new ≡ F.file files.old }
    ensures form { IfOk result AreTables }
    ensures answers { F.told → Answers (chain_beside (bytes_of (F.file files.old) name.now) spec) result }
{
    let logical = read_logical(alloc, files, name, len, &spec)?;
    let slots = spec.entries;
    Ok(Tables {
        kind: TableKind::Mbr,
        signature: spec.signature,
        slots,
        logical,
        gpt: None,
        sector: 512,
    })
}

/// The GUID partition table beside its master boot record.
fn with_gpt<F: Files>(
    alloc: Global,
    files: &mut F,
    name: &str,
    len: u64,
    kind: TableKind,
    spec: MbrSpec,
) -> Result<Tables, TableFault>
    requires kind { IsGptKind kind }
    requires long { 512 ≤ len }
    requires there { F.told → IsThere (F.file files.old) name.now (len ≡ length (bytes_of (F.file files.old) name.now)) }
    ensures none_fell { NoneFell (F.counts files.old) (F.counts files.new) }
    ensures cause { IfErr result (HasCause (F.counts files.old) (F.counts files.new)) }
    ensures same_files { F.file files.new ≡ F.file files.old }
    ensures form { IfOk result AreTables }
    ensures answers { F.told → Answers (gpt_beside kind (bytes_of (F.file files.old) name.now) spec) result }
{
    let sector = read_sector_size(files, name, len, kind)?;
    let gpt = read_gpt(alloc, files, name, len, sector)?;
    let slots = spec.entries;
    Ok(Tables {
        kind,
        signature: spec.signature,
        slots,
        logical: List::new(alloc),
        gpt: Some(gpt),
        sector,
    })
}

/// Reads the tables of the file of that name: its master boot record (UEFI 2.10, section 5.2.1), the chain of its
/// extended partition where there is no GUID partition table, and else that table with its backup (section 5.3). Its
/// length is asked for once. Addresses by cylinder, and what stands behind the 92 bytes of a header, aren't looked at.
pub fn read_tables<F: Files>(alloc: Global, files: &mut F, name: &str) -> Result<Tables, TableFault>
    ensures none_fell { NoneFell (F.counts files.old) (F.counts files.new) }
    ensures cause { IfErr result (HasCause (F.counts files.old) (F.counts files.new)) }
    ensures same_files { F.file files.new ≡ F.file files.old }
    ensures form { IfOk result AreTables }
    ensures answers { F.told → Answers (tables_of (F.file files.old name.now)) result }
{
    let len = length_of(files, name)?;
    let first = read_first(files, name, len)?;
    let Some(spec) = read_mbr(&first) else {
        return Err(TableFault::NoTable);
    };
    let kind = kind_of(&spec);
    let tables = match kind {
        TableKind::Gpt | TableKind::Hybrid => with_gpt(alloc, files, name, len, kind, spec)?,
        TableKind::Mbr | TableKind::Bare => with_chain(alloc, files, name, len, spec)?,
    };
    Ok(tables)
}
