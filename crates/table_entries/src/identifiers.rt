//! The identifiers of disks and partitions: those of the keys, and those derived from names.
ghost use Rattle.std.specs.Prelude.{◌≡◌, ◌++◌, IfOk, codes, string_bytes};
ghost use Rattle.table_entries.specs.Entries.{derived_id, disk_id, own_id};

use base_fields::NoMemory;
use conf_keys::{HdKeys, PartitionSection};
use std::alloc::Global;
use uuid::Uuid;

/// The version 5 UUID of a name under the URL namespace (RFC 9562, section 5.5).
fn derived(name: &str) -> [u8; 16]
    ensures { result ≡ derived_id name.now }
{
    Uuid::new_v5(&Uuid::NAMESPACE_URL, name.as_bytes()).into_bytes()
}

/// The name that the identifier of an image's disk is derived from.
fn disk_name(alloc: Global, image: &str) -> Result<String, NoMemory>
    ensures { IfOk result (λ name. string_bytes name ≡ codes "genflash:" ++ image.now) }
{
    let mut name = String::from_str(alloc, "genflash:")?;
    name.push_str(image)?;
    Ok(name)
}

/// The name that the identifier of a partition is derived from.
#[tactic(auto, using(std::proofs::lemmas::List::append_assoc))]
fn partition_name(alloc: Global, image: &str, part: &str) -> Result<String, NoMemory>
    ensures { IfOk result (λ name. string_bytes name ≡ codes "genflash:" ++ image.now ++ codes "#" ++ part.now) }
{
    let mut name = disk_name(alloc, image)?;
    name.push_str("#")?;
    name.push_str(part)?;
    Ok(name)
}

/// The identifier of a partition of an image, in the order of RFC 9562: that of its key, or one
/// derived from both names. Takes memory.
pub(crate) fn own_guid(
    alloc: Global,
    image: &str,
    part: &PartitionSection,
) -> Result<[u8; 16], NoMemory>
    ensures { IfOk result (λ id. id ≡ own_id image.now part.now) }
{
    match part.partition_uuid {
        Some(id) => Ok(id),
        None => Ok(derived(partition_name(alloc, image, part.name.text())?.as_str())),
    }
}

/// The identifier of the disk of an image, in the order of RFC 9562: that of its key, or one
/// derived from the name of the image's section. Takes memory.
pub fn disk_guid(alloc: Global, image: &str, hd: &HdKeys) -> Result<[u8; 16], NoMemory>
    ensures { IfOk result (λ id. id ≡ disk_id image.now hd.now) }
{
    match hd.disk_uuid {
        Some(id) => Ok(id),
        None => Ok(derived(disk_name(alloc, image)?.as_str())),
    }
}
