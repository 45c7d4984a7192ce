ghost use Rattle.std.specs.Prelude.{◌≡◌, ◌++◌, ◌∷◌, ◌↔◌, ◌≤◌, IfSome, IsSome, IsTrue, length, replicate, slice_index, take};
ghost use Rattle.journal_format.specs.JobFields.{fields_of};
ghost use Rattle.journal_format.specs.Journals.{HasVersion, IsHeld, IsWindow, fields_in, window_of};

use crate::JobId;

/// How many bytes stand in front of the marks.
pub const HEADER_LEN: usize = 80;

/// Where the gate stands.
pub const GATE: u64 = 8;

/// What the gate is where it is open.
pub const GATE_OPEN: u8 = 0x47;

/// Where the first mark stands.
pub const MARKS: u64 = 80;

/// What a mark is where it is recorded.
pub const RECORDED: u8 = 0x44;

/// What a journal that is written begins with.
pub const MAGIC: [u8; 8] = *b"GFJRNL02";

/// What a journal of the first version begins with.
const MAGIC_1: [u8; 8] = *b"GFJRNL01";

/// What the first bytes of a held journal tell.
#[derive(Clone, Copy, Debug, PartialEq, Eq)]
pub struct Held {
    /// How many units may be written before their marks are.
    pub window: u32,
    /// The bytes that tell the job.
    pub fields: [u8; 64],
}

/// What a journal with these first bytes tells, where it is held.
pub fn held_in(head: &[u8; 80]) -> Option<Held>
    ensures held { IsSome result ↔ IsHeld head.now }
    ensures window { IfSome result (λ held. held.window ≡ window_of head.now) }
    ensures fields { IfSome result (λ held. held.fields ≡ fields_in head.now) }
{
    if head[8] != GATE_OPEN {
        return None;
    }
    let window = window_in(head)?;
    let mut fields = [0; 64];
    fields.copy_from_slice(&head[16..]);
    Some(Held { window, fields })
}

/// The window that goes with the magic, where this is one of a journal.
fn window_in(head: &[u8; 80]) -> Option<u32>
    ensures version { IsSome result ↔ HasVersion head.now }
    ensures window { IfSome result (λ window. window ≡ window_of head.now) }
{
    if begins_with(head, &MAGIC_1) {
        return Some(1);
    }
    if begins_with(head, &MAGIC) {
        return window_from(head[9]);
    }
    None
}

/// The window that a byte says, where it is one.
fn window_from(byte: u8) -> Option<u32>
    ensures between { IsSome result ↔ IsWindow byte }
    ensures same { IfSome result (λ window. window ≡ byte) }
{
    if 0 < byte && byte <= 16 {
        return Some(u32::from(byte));
    }
    None
}

/// Whether the first bytes are this magic.
fn begins_with(head: &[u8; 80], magic: &[u8; 8]) -> bool
    ensures { IsTrue result ↔ (take 8 head.now ≡ magic.now) }
{
    head.starts_with(magic)
}

/// The bytes 9 to 79 of a journal that is written: the window, zeros, and those that tell the job.
pub fn body_of(id: &JobId, window: u8) -> [u8; 71]
    ensures { result ≡ window ∷ replicate 6 0 ++ fields_of id.now }
{
    let mut body = [0; 71];
    body[0] = window;
    body[7..].copy_from_slice(&id.to_fields());
    body
}
