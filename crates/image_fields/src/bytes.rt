// Numbers as bytes, the high one first, into lent bytes and out of them.
ghost use Rattle.std.specs.Prelude.{◌≡◌, [], ◌∷◌, ◌+◌, ◌≤◌, length};
ghost use Rattle.image_fields.specs.Bytes.{stored, row, bit_of, be2, be4, be8, two_at, four_at, eight_at};

// A yes as 1, a no as 0.
pub fn bit(b: bool) -> u8
    ensures { result ≡ bit_of b }
{
    if b { 1 } else { 0 }
}

// A row of bytes.
pub fn put_bytes(out: &mut [u8], at: usize, bytes: &[u8])
    requires { at + length bytes.now ≤ length out.old }
    ensures { out.new ≡ stored out.old at bytes.now }
{
    let end = at + bytes.len();
    out[at..end].copy_from_slice(bytes);
}

// A byte.
pub fn put_one(out: &mut [u8], at: usize, x: u8)
    requires { at + 1 ≤ length out.old }
    ensures { out.new ≡ stored out.old at (x ∷ []) }
{
    out[at] = x;
}

// Yes or no as a byte.
pub fn put_flag(out: &mut [u8], at: usize, b: bool)
    requires { at + 1 ≤ length out.old }
    ensures { out.new ≡ stored out.old at (bit_of b ∷ []) }
{
    out[at] = bit(b);
}

// Three yes or no in a row.
pub fn put_flags(out: &mut [u8], at: usize, a: bool, b: bool, c: bool)
    requires { at + 3 ≤ length out.old }
    ensures { out.new ≡ stored out.old at (bit_of a ∷ bit_of b ∷ bit_of c ∷ []) }
{
    put_bytes(out, at, &[bit(a), bit(b), bit(c)]);
}

// A number in two bytes.
pub fn put_two(out: &mut [u8], at: usize, x: u16)
    requires { at + 2 ≤ length out.old }
    ensures { out.new ≡ stored out.old at (be2 x) }
{
    put_bytes(out, at, &u16::to_be_bytes(x));
}

// In four.
pub fn put_four(out: &mut [u8], at: usize, x: u32)
    requires { at + 4 ≤ length out.old }
    ensures { out.new ≡ stored out.old at (be4 x) }
{
    put_bytes(out, at, &u32::to_be_bytes(x));
}

// In eight.
pub fn put_eight(out: &mut [u8], at: usize, x: u64)
    requires { at + 8 ≤ length out.old }
    ensures { out.new ≡ stored out.old at (be8 x) }
{
    put_bytes(out, at, &u64::to_be_bytes(x));
}

// A row of bytes back.
pub fn bytes<const N: usize>(s: &[u8], at: usize) -> [u8; N]
    requires { at + N ≤ length s.now }
    ensures { result ≡ row s.now at 0 N }
{
    let mut there = [0; N];
    there.copy_from_slice(&s[at..at + N]);
    there
}

// The number in two bytes.
pub fn two(s: &[u8], at: usize) -> u16
    requires { at + 2 ≤ length s.now }
    ensures { result ≡ two_at s.now at }
{
    u16::from_be_bytes(bytes(s, at))
}

// In four.
pub fn four(s: &[u8], at: usize) -> u32
    requires { at + 4 ≤ length s.now }
    ensures { result ≡ four_at s.now at }
{
    u32::from_be_bytes(bytes(s, at))
}

// In eight.
pub fn eight(s: &[u8], at: usize) -> u64
    requires { at + 8 ≤ length s.now }
    ensures { result ≡ eight_at s.now at }
{
    u64::from_be_bytes(bytes(s, at))
}
