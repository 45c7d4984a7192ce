ghost use Rattle.std.specs.Prelude.{◌≡◌, if◌then◌else◌};
ghost use Rattle.gpt_table.specs.Flags.{attributes_of};

/// Bit 2, legacy BIOS bootable (UEFI 2.10, table 5.8).
const BOOTABLE: u64 = 1 << 2;

const READ_ONLY: u64 = 1 << 60;

const HIDDEN: u64 = 1 << 62;

const NO_AUTOMOUNT: u64 = 1 << 63;

/// What a partition is marked as. Bits 60, 62 and 63 are those that its type leaves to this project.
#[derive(Clone, Copy, Debug, PartialEq, Eq)]
pub struct Flags {
    /// Legacy firmware may boot it: bit 2.
    pub bootable: bool,
    /// It isn't to be written: bit 60.
    pub read_only: bool,
    /// It isn't to be shown: bit 62.
    pub hidden: bool,
    /// It isn't to be mounted by itself: bit 63.
    pub no_automount: bool,
}

impl Flags {
    /// The attribute bits of an entry.
    #[tactic(auto, using(crate::proofs::FlagLemmas::marks_sum))]
    pub fn attributes(self) -> u64
        ensures { result ≡ attributes_of self }
    {
        mark(self.bootable, BOOTABLE)
            | mark(self.read_only, READ_ONLY)
            | mark(self.hidden, HIDDEN)
            | mark(self.no_automount, NO_AUTOMOUNT)
    }
}

/// A mark where it is set.
fn mark(set: bool, mark: u64) -> u64
    ensures { result ≡ (if set then mark else 0) }
{
    if set { mark } else { 0 }
}
