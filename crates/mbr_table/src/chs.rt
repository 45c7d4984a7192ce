ghost use Rattle.std.specs.Prelude.{◌≡◌};
ghost use Rattle.mbr_table.specs.Chs.{address_of, chs_bytes};

const SECTORS: u64 = 63;

const HEADS: u64 = 255;

const LAST_CYLINDER: u64 = 1023;

/// The cylinder, head and place of a sector of the disk in the three bytes of an entry's address.
pub fn chs(sector: u64) -> [u8; 3]
    ensures { result ≡ chs_bytes (address_of sector) }
{
    let cylinder = sector / (SECTORS * HEADS);
    if cylinder > LAST_CYLINDER {
        return [0xFE, 0xFF, 0xFF];
    }
    let head = sector / SECTORS % HEADS;
    let place = sector % SECTORS + 1;
    [
        head as u8,
        (place + 64 * (cylinder / 256)) as u8,
        (cylinder % 256) as u8,
    ]
}
