ghost use Rattle.std.specs.Prelude.{◌≡◌, ℕ, length};
ghost use Rattle.journal_format.specs.JobFields.{FitFields, fields_of};

use base_fields::{get_u32, get_u64, put_bytes, put_u32, put_u64};

/// The job that a journal is opened for.
#[derive(Clone, Copy, Debug, PartialEq, Eq)]
pub struct JobId {
    /// SHA-256 of the block map's file.
    pub digest: [u8; 32],
    /// The image's size in bytes.
    pub size: u64,
    /// The size of a block in bytes.
    pub block: u32,
    /// The size of a unit in bytes.
    pub unit: u32,
    /// The number of units.
    pub units: u64,
    /// The number of ranges.
    pub ranges: u64,
}

impl JobId {
    /// The bytes of a journal that tell this job, its numbers with the lowest byte first.
    pub fn to_fields(&self) -> [u8; 64]
        ensures { result ≡ fields_of self.now }
    {
        let mut fields = [0; 64];
        put_bytes(&mut fields, 0, &self.digest);
        put_u64(&mut fields, 32, self.size);
        put_u32(&mut fields, 40, self.block);
        put_u32(&mut fields, 44, self.unit);
        put_u64(&mut fields, 48, self.units);
        put_u64(&mut fields, 56, self.ranges);
        fields
    }

    /// The job that these bytes of a journal tell.
    pub fn from_fields(fields: &[u8; 64]) -> JobId
        ensures told { fields_of result ≡ fields.now }
        ensures only { (id : JobId) → FitFields id → length id.digest ≡ 32 → fields_of id ≡ fields.now → result ≡ id }
    {
        let mut digest = [0; 32];
        digest.copy_from_slice(&fields[..32]);
        JobId {
            digest,
            size: get_u64(fields, 32),
            block: get_u32(fields, 40),
            unit: get_u32(fields, 44),
            units: get_u64(fields, 48),
            ranges: get_u64(fields, 56),
        }
    }
}
