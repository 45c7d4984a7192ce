//! How a refusal of a placing is shown.
use base_fields::Name;
use placement::PlaceFault;
use std::fmt;

/// Why an image can't be placed, with its fields.
#[derive(Clone, Copy, Debug)]
pub struct ShownPlaceFault<'a>(pub &'a PlaceFault);

impl fmt::Display for ShownPlaceFault<'_> {
    fn fmt<W: fmt::Write>(&self, f: &mut fmt::Formatter<W>) -> fmt::Result {
        match self.0 {
            PlaceFault::TooManyEntries { count } => write!(f, "TooManyEntries count={count}"),
            PlaceFault::ImageTooSmall { has, needs } => {
                write!(f, "ImageTooSmall has={has} needs={needs}")
            }
            PlaceFault::Overlap { a, b } => {
                put_part(f, "Overlap a", a)?;
                put_part(f, " b", b)
            }
            PlaceFault::NoMemory => f.write_str("NoMemory"),
            PlaceFault::NotOnBlock { .. } | PlaceFault::PastFlash { .. } => put_flash(f, self.0),
            _ => put_partition(f, self.0),
        }
    }
}

fn put_partition<W: fmt::Write>(f: &mut fmt::Formatter<W>, fault: &PlaceFault) -> fmt::Result {
    match fault {
        PlaceFault::Misaligned { part, value, align } => {
            put_part(f, "Misaligned part", part)?;
            write!(f, " value={value} align={align}")
        }
        PlaceFault::BadHoles { part, index } => {
            put_part(f, "BadHoles part", part)?;
            write!(f, " index={index}")
        }
        PlaceFault::BadAutoresize { part, room, least } => {
            put_part(f, "BadAutoresize part", part)?;
            write!(f, " room={room} least={least}")
        }
        PlaceFault::FileTooLarge { part, has, limit } => {
            put_part(f, "FileTooLarge part", part)?;
            write!(f, " has={has} limit={limit}")
        }
        PlaceFault::NoSize { part } => put_part(f, "NoSize part", part),
        PlaceFault::TooFar {
            part,
            number,
            limit,
        } => {
            put_part(f, "TooFar part", part)?;
            write!(f, " number={number} limit={limit}")
        }
        _ => Ok(()),
    }
}

fn put_flash<W: fmt::Write>(f: &mut fmt::Formatter<W>, fault: &PlaceFault) -> fmt::Result {
    match fault {
        PlaceFault::NotOnBlock {
            part,
            value,
            pebsize,
        } => {
            put_part(f, "NotOnBlock part", part)?;
            write!(f, " value={value} pebsize={pebsize}")
        }
        PlaceFault::PastFlash { part, end, limit } => {
            put_part(f, "PastFlash part", part)?;
            write!(f, " end={end} limit={limit}")
        }
        _ => Ok(()),
    }
}

fn put_part<W: fmt::Write>(f: &mut fmt::Formatter<W>, key: &str, name: &Name) -> fmt::Result {
    f.write_str(key)?;
    f.write_str("=")?;
    f.write_str(name.text())
}
