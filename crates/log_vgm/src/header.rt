// The header of a VGM file.
ghost use Rattle.std.specs.Prelude.{◌≡◌, ◌+◌, ◌<◌, ◌≤◌, length};
ghost use Rattle.log_vgm.specs.Header.{four_at, start_of, bad_header};

// The bytes of a header that has the Game Boy's clock in it.
const HEADER: usize = 0x84;

// "Vgm ", low byte first.
const MARK: u32 = 0x206D_6756;

// 1.61, a digit to four bits.
const VERSION: u32 = 0x161;

// Hertz.
const CLOCK: u32 = 4_194_304;

// The number in the four bytes at a place, low byte first.
fn four(vgm: &[u8], at: usize) -> u32
    requires { at + 3 < length vgm.now }
    ensures { result ≡ four_at vgm.now at }
{
    u32::from_le_bytes([vgm[at], vgm[at + 1], vgm[at + 2], vgm[at + 3]])
}

// The place of the first command: its offset is counted from where it stands.
pub fn start_of(vgm: &[u8]) -> usize
    requires { 0x84 ≤ length vgm.now }
    ensures { result ≡ start_of vgm.now }
{
    0x34 + four(vgm, 0x34) as usize
}

// Whether the header is wrong: by length, mark, version, the place of the first command or the clock.
pub fn bad_header(vgm: &[u8]) -> bool
    ensures { result ≡ bad_header vgm.now }
{
    let n = vgm.len();
    if n < HEADER {
        return true;
    }
    let mark = four(vgm, 0);
    let version = four(vgm, 8);
    let start = start_of(vgm);
    let clock = four(vgm, 0x80);
    (mark != MARK) | (version < VERSION) | (start < HEADER) | (n < start) | (clock != CLOCK)
}
