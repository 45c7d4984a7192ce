//! The kernel's list of mounts, of which each line has the number of a device as its third word, as `8:17`.

/// Whether a list of mounts names the device of a number.
pub fn lists(text: &[u8], device: u64) -> bool {
    let wanted = (major(device), minor(device));
    let mut word = Word::start(0);
    for byte in text {
        match *byte {
            b' ' | b'\n' => {
                if word.is_number(wanted) {
                    return true;
                }
                word = Word::start(word.after(*byte));
            }
            other => word.take(other),
        }
    }
    false
}

/// The first part of a device's number.
fn major(device: u64) -> u64 {
    ((device >> 8) & 0xfff) | ((device >> 32) & 0xffff_f000)
}

/// The second part.
fn minor(device: u64) -> u64 {
    (device & 0xff) | ((device >> 12) & 0xffff_ff00)
}

/// A word of a line so far: its place in the line, and the two numbers that it has been.
#[derive(Clone, Copy, Debug)]
struct Word {
    place: u64,
    first: u64,
    second: u64,
    colons: u64,
}

impl Word {
    fn start(place: u64) -> Word {
        Word {
            place,
            first: 0,
            second: 0,
            colons: 0,
        }
    }

    /// The place of the word behind a space or an end of a line.
    fn after(self, byte: u8) -> u64 {
        if byte == b'\n' {
            return 0;
        }
        self.place.saturating_add(1)
    }

    /// Takes one byte more.
    fn take(&mut self, byte: u8) {
        if byte == b':' {
            self.colons = self.colons.saturating_add(1);
        } else if self.colons == 0 {
            self.first = with_digit(self.first, byte);
        } else {
            self.second = with_digit(self.second, byte);
        }
    }

    /// Whether the word is the number of a device, at its place.
    fn is_number(self, wanted: (u64, u64)) -> bool {
        self.place == 2 && self.colons == 1 && (self.first, self.second) == wanted
    }
}

/// A decimal number with one digit more, up to the greatest of 64 bits. A byte that is no digit makes it the greatest.
fn with_digit(number: u64, byte: u8) -> u64 {
    match byte {
        b'0'..=b'9' => number
            .saturating_mul(10)
            .saturating_add(u64::from(byte - b'0')),
        _ => u64::MAX,
    }
}
