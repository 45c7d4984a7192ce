//! A line that is being made, part behind part.
ghost use Rattle.std.specs.Prelude.{◌≡◌, ℕ, ◌+◌, ◌*◌, ◌≤◌, List, [], ◌++◌, length, take, decimal};
ghost use Rattle.std.specs.Prelude.{codes, map, sum_by};
ghost use Rattle.hex.specs.Hex.{encode_lower};
ghost use Rattle.line_parts.specs.Line.{PutsLine, numbered, number_room, part_numbered, part_room, shown_flag, shown_name};
ghost use Rattle.line_parts.specs.Line.{spelled, with_fields};
ghost use Rattle.line_parts.specs.Row.{device_name, field_room, field_texts, job_fields};

use crate::row::{Field, Value};
use bench::Dev;
use itoa::Buffer;
use journal_format::JobId;
use std::marker::Model;

/// The most bytes of a line.
pub const LINE_ROOM: usize = 1024;

/// How many bytes of a name are shown.
const NAME_ROOM: usize = 200;

// What is shown of a name's bytes.
fn first_bytes(bytes: &[u8]) -> &[u8]
    ensures shown { result.now ≡ shown_name bytes.now }
    ensures short { length result.now ≤ 200 }
{
    if bytes.len() < NAME_ROOM {
        return bytes;
    }
    &bytes[..NAME_ROOM]
}

/// A line that is being made, of at most 1,024 bytes. Contracts see its bytes.
#[derive(Drop)]
pub struct Line {
    bytes: [u8; LINE_ROOM],
    len: usize,
}

impl Model for Line {
    ghost Value = { List ℕ };

    ghost view = { λ l. take l.len l.bytes };

    ghost invariant = { λ l. l.len ≤ 1024 };
}

impl Line {
    /// A line that begins so.
    pub fn headed(head: &str) -> Line
        requires { length head.now ≤ 1024 }
        ensures { result ≡ head.now }
    {
        let line = Line {
            bytes: [0; LINE_ROOM],
            len: 0,
        };
        line.with(head.as_bytes())
    }

    /// The line with bytes at its end.
    pub fn with(mut self, bytes: &[u8]) -> Line
        requires { length self + length bytes.now ≤ 1024 }
        ensures { result ≡ self ++ bytes.now }
    {
        let start = self.len;
        let end = start + bytes.len();
        self.bytes[start..end].copy_from_slice(bytes);
        self.len = end;
        self
    }

    /// The line with what is shown of a name at its end.
    pub fn name(self, name: &str) -> Line
        requires { length self + 200 ≤ 1024 }
        ensures added { result ≡ self ++ shown_name name.now }
        ensures room { length result ≤ length self + 200 }
    {
        self.with(first_bytes(name.as_bytes()))
    }

    // The line with a space, the key, `=` and the bytes of a value at its end.
    fn pair(self, key: &str, value: &[u8]) -> Line
        requires { length self + (length key.now + length value.now + 2) ≤ 1024 }
        ensures { result ≡ self ++ spelled (key.now, value.now) }
    {
        self.with(b" ").with(key.as_bytes()).with(b"=").with(value)
    }

    /// The line with a name behind its key, by its first 200 bytes.
    pub fn text(self, key: &str, name: &str) -> Line
        requires { length self + (length key.now + 202) ≤ 1024 }
        ensures added { result ≡ self ++ spelled (key.now, shown_name name.now) }
        ensures room { length result ≤ length self + (length key.now + 202) }
    {
        self.pair(key, first_bytes(name.as_bytes()))
    }

    /// The line with a number behind its key, in decimal digits.
    pub fn number(self, key: &str, n: u64) -> Line
        requires { length self + (length key.now + 22) ≤ 1024 }
        ensures added { result ≡ self ++ spelled (key.now, decimal n) }
        ensures room { length result ≤ length self + (length key.now + 22) }
    {
        self.pair(key, Buffer::new().format(n).as_bytes())
    }

    /// The line with a digest behind its key, in lower-case hexadecimal digits.
    pub fn digest(self, key: &str, bytes: &[u8; 32]) -> Line
        requires { length self + (length key.now + 66) ≤ 1024 }
        ensures added { result ≡ self ++ spelled (key.now, encode_lower bytes.now) }
        ensures room { length result ≤ length self + (length key.now + 66) }
    {
        let mut digits = [0; 64];
        match hex::encode_to_slice(bytes.as_slice(), &mut digits) {
            Ok(()) => self.pair(key, digits.as_slice()),
            Err(_) => unreachable!(),
        }
    }

    /// The line with a truth value behind its key, as 1 or 0.
    pub fn flag(self, key: &str, holds: bool) -> Line
        requires { length self + (length key.now + 3) ≤ 1024 }
        ensures added { result ≡ self ++ spelled (key.now, shown_flag holds) }
        ensures room { length result ≤ length self + (length key.now + 3) }
    {
        if holds {
            self.pair(key, b"1")
        } else {
            self.pair(key, b"0")
        }
    }

    // The line with the bytes of a value behind the key of a part of what another key names.
    fn part(self, key: &str, name: &str, value: &[u8]) -> Line
        requires { length self + (length key.now + length name.now + length value.now + 2) ≤ 1024 }
        ensures { result ≡ self ++ spelled (key.now ++ name.now, value.now) }
    {
        self.with(b" ")
            .with(key.as_bytes())
            .with(name.as_bytes())
            .with(b"=")
            .with(value)
    }

    // The line with the digest of what a key names.
    fn digest_part(self, key: &str, bytes: &[u8; 32]) -> Line
        requires { length self + (length key.now + 73) ≤ 1024 }
        ensures added { result ≡ self ++ spelled (key.now ++ codes ".digest", encode_lower bytes.now) }
        ensures room { length result ≤ length self + (length key.now + 73) }
    {
        let mut digits = [0; 64];
        match hex::encode_to_slice(bytes.as_slice(), &mut digits) {
            Ok(()) => self.part(key, ".digest", digits.as_slice()),
            Err(_) => unreachable!(),
        }
    }

    // The line with a number of what a key names.
    fn number_part(self, key: &str, name: &str, n: u64) -> Line
        requires { length self + (length key.now + length name.now + 22) ≤ 1024 }
        ensures added { result ≡ self ++ spelled (key.now ++ name.now, decimal n) }
        ensures room { length result ≤ length self + (length key.now + length name.now + 22) }
    {
        self.part(key, name, Buffer::new().format(n).as_bytes())
    }

    // The line with numbers of what a key names, in this order.
    fn number_parts(self, key: &str, numbers: &[(&'static str, u64)]) -> Line
        requires { length self + sum_by (part_room (length key.now)) numbers.now ≤ 1024 }
        ensures added { result ≡ with_fields self (map (part_numbered key.now) numbers.now) }
        ensures room { length result ≤ length self + sum_by (part_room (length key.now)) numbers.now }
    {
        let mut line = self;
        for (name, n) in numbers {
            line = line.number_part(key, name, *n);
        }
        line
    }

    // The line with a job behind its key, each of its fields by itself.
    fn job(self, key: &str, id: &JobId) -> Line
        requires { length self + (6 * length key.now + 212) ≤ 1024 }
        ensures added { result ≡ with_fields self (job_fields key.now id.now) }
        ensures room { length result ≤ length self + (6 * length key.now + 212) }
    {
        self.digest_part(key, &id.digest).number_parts(
            key,
            &[
                (".size", id.size),
                (".block", u64::from(id.block)),
                (".unit", u64::from(id.unit)),
                (".units", id.units),
                (".ranges", id.ranges),
            ],
        )
    }

    // The line with a device behind its key.
    fn device(self, key: &str, device: Dev) -> Line
        requires { length self + (length key.now + 9) ≤ 1024 }
        ensures added { result ≡ self ++ spelled (key.now, device_name device) }
    {
        match device {
            Dev::Target => self.pair(key, b"target"),
            Dev::Journal => self.pair(key, b"journal"),
        }
    }

    /// The line with a field of an answer.
    pub fn field(self, field: Field<'_>) -> Line
        requires { length self + field_room field ≤ 1024 }
        ensures added { result ≡ with_fields self (field_texts field.entry) }
        ensures room { length result ≤ length self + field_room field.entry }
    {
        match field.value {
            Value::Text(name) => self.text(field.key, name.text()),
            Value::Number(n) => self.number(field.key, n),
            Value::Digest(bytes) => self.digest(field.key, bytes),
            Value::Flag(holds) => self.flag(field.key, holds),
            Value::Device(device) => self.device(field.key, device),
            Value::Job(id) => self.job(field.key, id),
        }
    }

    /// The line with numbers behind their keys, in this order.
    pub fn numbers(self, numbers: &[(&'static str, u64)]) -> Line
        requires { length self + sum_by number_room numbers.now ≤ 1024 }
        ensures { result ≡ with_fields self (map numbered numbers.now) }
    {
        let mut line = self;
        for (key, n) in numbers {
            line = line.number(key, *n);
        }
        line
    }

    /// Puts the line at the front of the room, and gives its length.
    pub fn put(&self, room: &mut [u8]) -> usize
        requires { 1024 ≤ length room.old }
        ensures { PutsLine self.now room.new result }
    {
        room[..self.len].copy_from_slice(&self.bytes[..self.len]);
        self.len
    }
}
