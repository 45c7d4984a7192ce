//! The row of an answer in the table of answers, from which its status and its error line are made.
ghost use Rattle.std.specs.Prelude.{◌≡◌, ◌+◌, ◌≤◌, [], ◌∷◌, length};
ghost use Rattle.line_parts.specs.Line.{with_fields};
ghost use Rattle.line_parts.specs.Row.{error_of, row_room, shown_row};
ghost use Rattle.line_parts.specs.declared.row.Fields.TheVariants as fields;
ghost use Rattle.line_parts.specs.declared.row.Value.TheVariants as value;

use crate::line::Line;
use base_fields::Name;
use bench::Dev;
use journal_format::JobId;

/// The value of a field as it is printed.
#[derive(Clone, Copy)]
pub enum Value<'a> {
    /// A name, by its first 200 bytes.
    Text(&'a Name),
    /// A number in decimal digits.
    Number(u64),
    /// A digest in lower-case hexadecimal digits.
    Digest(&'a [u8; 32]),
    /// A truth value, as 1 or 0.
    Flag(bool),
    /// A device, `target` or `journal`.
    Device(Dev),
    /// A job, each of its fields by itself: `key.digest`, `key.size` and so on.
    Job(&'a JobId),
}

/// A field of an answer.
#[derive(Clone, Copy)]
pub struct Field<'a> {
    pub key: &'static str,
    pub value: Value<'a>,
}

/// A field that shows a name.
pub fn text<'a>(key: &'static str, name: &'a Name) -> Field<'a>
    ensures { result ≡ record { key = key.entry; value = value.Text name.entry } }
{
    Field {
        key,
        value: Value::Text(name),
    }
}

/// A field that shows a number.
pub fn number<'a>(key: &'static str, n: u64) -> Field<'a>
    ensures { result ≡ record { key = key.entry; value = value.Number n } }
{
    Field {
        key,
        value: Value::Number(n),
    }
}

/// A field that shows a digest.
pub fn digest<'a>(key: &'static str, bytes: &'a [u8; 32]) -> Field<'a>
    ensures { result ≡ record { key = key.entry; value = value.Digest bytes.entry } }
{
    Field {
        key,
        value: Value::Digest(bytes),
    }
}

/// A field that shows a truth value.
pub fn flag<'a>(key: &'static str, holds: bool) -> Field<'a>
    ensures { result ≡ record { key = key.entry; value = value.Flag holds } }
{
    Field {
        key,
        value: Value::Flag(holds),
    }
}

/// A field that shows a device.
pub fn device<'a>(key: &'static str, device: Dev) -> Field<'a>
    ensures { result ≡ record { key = key.entry; value = value.Device device } }
{
    Field {
        key,
        value: Value::Device(device),
    }
}

/// A field that shows a job.
pub fn job<'a>(key: &'static str, id: &'a JobId) -> Field<'a>
    ensures { result ≡ record { key = key.entry; value = value.Job id.entry } }
{
    Field {
        key,
        value: Value::Job(id),
    }
}

/// The fields of an answer in their order.
#[derive(Clone, Copy)]
pub enum Fields<'a> {
    Bare,
    One(Field<'a>),
    Two(Field<'a>, Field<'a>),
    Three(Field<'a>, Field<'a>, Field<'a>),
}

/// An answer's status, what it is called in its line, and its fields.
#[derive(Clone, Copy)]
pub struct Row<'a> {
    pub status: u8,
    pub label: &'static str,
    pub fields: Fields<'a>,
}

impl<'a> Row<'a> {
    /// The error line, and nothing where there is no label.
    #[tactic(auto, using(crate::proofs::Joined::with_fields_both))]
    pub fn line(&self) -> Line
        requires { row_room self.now ≤ 1000 }
        ensures { result ≡ error_of (shown_row self.now) }
    {
        if self.label.is_empty() {
            return Line::headed("");
        }
        let line = Line::headed("error ").with(self.label.as_bytes());
        match self.fields {
            Fields::Bare => line,
            Fields::One(a) => line.field(a),
            Fields::Two(a, b) => line.field(a).field(b),
            Fields::Three(a, b, c) => line.field(a).field(b).field(c),
        }
    }
}

/// The row of an answer without fields.
pub fn bare<'a>(status: u8, label: &'static str) -> Row<'a>
    ensures { result ≡ record { status = status; label = label.entry; fields = fields.Bare } }
{
    Row {
        status,
        label,
        fields: Fields::Bare,
    }
}

/// The row of an answer with one field.
pub fn one<'a>(status: u8, label: &'static str, a: Field<'a>) -> Row<'a>
    ensures { result ≡ record { status = status; label = label.entry; fields = fields.One a.entry } }
{
    Row {
        status,
        label,
        fields: Fields::One(a),
    }
}

/// The row of an answer with two fields.
pub fn two<'a>(status: u8, label: &'static str, a: Field<'a>, b: Field<'a>) -> Row<'a>
    ensures { result
        ≡ record { status = status; label = label.entry; fields = fields.Two a.entry b.entry } }
{
    Row {
        status,
        label,
        fields: Fields::Two(a, b),
    }
}

/// The row of an answer with three fields.
pub fn three<'a>(
    status: u8,
    label: &'static str,
    a: Field<'a>,
    b: Field<'a>,
    c: Field<'a>,
) -> Row<'a>
    ensures { result
        ≡ record { status = status; label = label.entry; fields = fields.Three a.entry b.entry c.entry } }
{
    Row {
        status,
        label,
        fields: Fields::Three(a, b, c),
    }
}
