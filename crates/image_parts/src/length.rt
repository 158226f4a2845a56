// A length record as bytes: 7.
ghost use Rattle.std.specs.Prelude.{◌≡◌, ◌+◌, ◌≤◌, length};
ghost use Rattle.image_fields.specs.Bytes.{stored};
ghost use Rattle.image_parts.specs.Parts.{length_at, length_bytes, length_fits};

use channel_parts::length::Length;
use image_fields::bytes::{put_flag, put_two, two};

// Its fields into lent bytes, from a place on.
pub fn put_length(out: &mut [u8], at: usize, l: Length)
    requires { at + 7 ≤ length out.old }
    ensures { out.new ≡ stored out.old at (length_bytes l) }
{
    put_two(out, at, l.max_length);
    put_two(out, at + 2, l.length);
    put_two(out, at + 4, l.current_counter);
    put_flag(out, at + 6, l.counter_decrease_enable);
}

// What the bytes there say.
pub fn read_length(s: &[u8], at: usize) -> Length
    requires { at + 7 ≤ length s.now }
    ensures { result ≡ length_at s.now at }
{
    Length {
        max_length: two(s, at),
        length: two(s, at + 2),
        current_counter: two(s, at + 4),
        counter_decrease_enable: s[at + 6] == 1,
    }
}

// Whether they are those of one in its ranges.
pub fn length_fits(s: &[u8], at: usize, max: u16) -> bool
    requires { at + 7 ≤ length s.now }
    ensures { result ≡ length_fits max s.now at }
{
    (two(s, at) == max) & (two(s, at + 2) <= max) & (two(s, at + 4) <= max) & (s[at + 6] <= 1)
}
