//! Numbers, spans, and the small list types that public fields of every crate use.
#![tactic(auto)]

mod checksum;
mod fields;
mod lists;
mod memory;
mod names;
mod numbers;
mod spans;

pub use checksum::crc32;
pub use fields::{get_u16, get_u32, get_u64, put_bytes, put_u16, put_u32, put_u64};
pub use lists::List;
pub use memory::NoMemory;
pub use names::{Bytes, Name, Pair};
pub use numbers::{guid_bytes, round_up};
pub use spans::{Span, TableKind};
