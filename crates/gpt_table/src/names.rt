ghost use Rattle.std.specs.Prelude.{◌≡◌, ◌≤◌, length};
ghost use Rattle.gpt_table.specs.Names.{name_units};

/// The units of an entry's name in UTF-16, of ASCII text: each byte is a unit, and zeros stand
/// behind them (UEFI 2.10, section 5.3.3).
pub fn name_units(text: &[u8]) -> [u16; 36]
    requires { length text.now ≤ 36 }
    ensures { result ≡ name_units text.now }
{
    let mut units = [0; 36];
    for (k, byte) in text.iter().enumerate() {
        units[k] = u16::from(*byte);
    }
    units
}
