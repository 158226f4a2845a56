// A converter as bytes: 4, its capacitor by the pattern.
ghost use Rattle.std.specs.Prelude.{◌≡◌, ◌+◌, ◌≤◌, length};
ghost use Rattle.image_fields.specs.Bytes.{stored};
ghost use Rattle.image_parts.specs.Parts.{converter_at, converter_bytes, converter_fits};

use frame::converter::Converter;
use frame::pattern::pattern;
use image_fields::bytes::{four, put_four};
use image_fields::floats::charge;

// Its fields into lent bytes, from a place on.
pub fn put_converter(out: &mut [u8], at: usize, d: Converter)
    requires { at + 4 ≤ length out.old }
    ensures { out.new ≡ stored out.old at (converter_bytes d) }
{
    put_four(out, at, pattern(d.capacitor));
}

// What the bytes there say.
pub fn read_converter(s: &[u8], at: usize) -> Converter
    requires { at + 4 ≤ length s.now }
    ensures { result ≡ converter_at s.now at }
{
    Converter {
        capacitor: charge(four(s, at)),
    }
}

// Whether they are those of one in its ranges.
pub fn converter_fits(s: &[u8], at: usize) -> bool
    requires { at + 4 ≤ length s.now }
    ensures { result ≡ converter_fits s.now at }
{
    four(s, at) <= 0x3F80_0000
}
