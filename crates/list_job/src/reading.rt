//! What an image is listed by.
ghost use Rattle.std.specs.Prelude.{◌≡◌, ◌≤◌, IfErr, IfOk, Ok, length, take};
ghost use Rattle.job_stages.specs.Stages.{Gives};
ghost use Rattle.outside.specs.Counts.{NoneFell};
ghost use Rattle.outside.specs.Files.{IsThere, bytes_of};
ghost use Rattle.list_job.specs.Faults.{IsShown, is_counted};
ghost use Rattle.list_job.specs.Listings.{HasLength, IsListing, listing_of, magic_of, sparse_listing, table_listing};

use crate::{ListFault, Listing};
use base_fields::get_u32;
use outside::{FileErr, Files, FillFault, fill};
use sparse_reader::read_sparse;
use std::alloc::Global;
use table_reader::read_tables;

/// The magic of an Android sparse image, in its first four bytes.
const MAGIC: u32 = 0xED26_FF3A;

/// Reads what the file of that name is listed by: an Android sparse image by its header and chunks, where its first four
/// bytes are the magic of one, and any other file by its partition tables. Takes the memory of the tables alone.
pub fn read_listing<F: Files>(
    alloc: Global,
    files: &mut F,
    name: &str,
) -> Result<Listing, ListFault>
    ensures none_fell { NoneFell (F.counts files.old) (F.counts files.new) }
    ensures cause { IfErr result (IsShown (F.counts files.old) (F.counts files.new)) }
    ensures same_files { F.file files.new ≡ F.file files.old }
    ensures form { IfOk result IsListing }
    ensures said { F.told → Gives is_counted (listing_of (F.file files.old name.now)) (λ listing. listing) (λ fault. fault) result }
{
    match is_sparse(files, name) {
        Ok(true) => list_sparse(files, name),
        Ok(false) => list_tables(alloc, files, name),
        Err(fault) => Err(fault),
    }
}

// Whether the file begins as a sparse image does.
fn is_sparse<F: Files>(files: &mut F, name: &str) -> Result<bool, ListFault>
    ensures none_fell { NoneFell (F.counts files.old) (F.counts files.new) }
    ensures cause { IfErr result (IsShown (F.counts files.old) (F.counts files.new)) }
    ensures same_files { F.file files.new ≡ F.file files.old }
    ensures said { F.told → Gives is_counted (magic_of (F.file files.old name.now)) (λ is. is) (λ fault. fault) result }
{
    let len = length_of(files, name)?;
    if len < 4 {
        return Ok(false);
    }
    let front = read_front(files, name, len)?;
    Ok(get_u32(&front, 0) == MAGIC)
}

// How many bytes the file has.
fn length_of<F: Files>(files: &mut F, name: &str) -> Result<u64, ListFault>
    ensures none_fell { NoneFell (F.counts files.old) (F.counts files.new) }
    ensures cause { IfErr result (IsShown (F.counts files.old) (F.counts files.new)) }
    ensures same_files { F.file files.new ≡ F.file files.old }
    ensures said { F.told → HasLength (F.file files.old) name.now result }
{
    match files.length(name) {
        Ok(len) => Ok(len),
        Err(FileErr::Missing) => Err(ListFault::Missing),
        Err(FileErr::Failed) => Err(ListFault::FileFault),
    }
}

// The first four of so many bytes of a file.
fn read_front<F: Files>(files: &mut F, name: &str, len: u64) -> Result<[u8; 4], ListFault>
    requires long { 4 ≤ len }
    requires there { F.told → IsThere (F.file files.old) name.now (len ≡ length (bytes_of (F.file files.old) name.now)) }
    ensures none_fell { NoneFell (F.counts files.old) (F.counts files.new) }
    ensures cause { IfErr result (IsShown (F.counts files.old) (F.counts files.new)) }
    ensures same_files { F.file files.new ≡ F.file files.old }
    ensures said { F.told → Gives is_counted (Ok (take 4 (bytes_of (F.file files.old) name.now))) (λ front. front) (λ fault. fault) result }
{
    let mut front = [0; 4];
    match fill(files, name, 0, &mut front) {
        Ok(()) => Ok(front),
        Err(FillFault::Missing) => Err(ListFault::Missing),
        Err(FillFault::Short { .. }) => Err(ListFault::Short { at: len }),
        Err(FillFault::Failed) => Err(ListFault::FileFault),
    }
}

fn list_sparse<F: Files>(files: &mut F, name: &str) -> Result<Listing, ListFault>
    ensures none_fell { NoneFell (F.counts files.old) (F.counts files.new) }
    ensures cause { IfErr result (IsShown (F.counts files.old) (F.counts files.new)) }
    ensures same_files { F.file files.new ≡ F.file files.old }
    ensures form { IfOk result IsListing }
    ensures said { F.told → Gives is_counted (sparse_listing (F.file files.old name.now)) (λ listing. listing) (λ fault. fault) result }
{
    match read_sparse(files, name) {
        Ok(view) => Ok(Listing::Sparse(view)),
        Err(fault) => Err(ListFault::from(fault)),
    }
}

fn list_tables<F: Files>(alloc: Global, files: &mut F, name: &str) -> Result<Listing, ListFault>
    ensures none_fell { NoneFell (F.counts files.old) (F.counts files.new) }
    ensures cause { IfErr result (IsShown (F.counts files.old) (F.counts files.new)) }
    ensures same_files { F.file files.new ≡ F.file files.old }
    ensures form { IfOk result IsListing }
    ensures said { F.told → Gives is_counted (table_listing (F.file files.old name.now)) (λ listing. listing) (λ fault. fault) result }
{
    match read_tables(alloc, files, name) {
        Ok(tables) => Ok(Listing::Tables(tables)),
        Err(fault) => Err(ListFault::from(fault)),
    }
}
