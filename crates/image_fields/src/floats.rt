// Floats as patterns, and which patterns an image may hold. A reader is total: a pattern that no capacitor or counter has is read as 0.
ghost use Rattle.std.specs.Prelude.{◌≡◌, ◌^◌, ◌≤◌};
ghost use Rattle.std.specs.Float.{binary64};
ghost use Rattle.std.specs.Float.Ieee.{to_bits, of_bits};
ghost use Rattle.image_fields.specs.Floats.{Measure, charge_of, is_kept, counter_of};

// What the field of an f64's exponent counts in: 2^52.
const FIELD: u64 = 4503599627370496;

// The bit pattern of x. That of a NaN, which no counter is, is 7FF8000000000000.
pub fn pattern64(x: f64) -> u64
    ensures { result ≡ to_bits binary64 x }
{
    if x.is_nan() {
        return 0x7FF8_0000_0000_0000;
    }
    x.to_bits()
}

// The capacitor of a pattern, 0 where no capacitor has it: 3F800000 is that of 1.0, and of floats without a sign the patterns have the order of the values.
pub fn charge(pattern: u32) -> f32
    ensures { result ≡ charge_of pattern }
{
    if pattern <= 0x3F80_0000 {
        return f32::from_bits(pattern);
    }
    0.0
}

// 2^n.
fn power(n: u64) -> u64
    requires { n ≤ 52 }
    ensures { result ≡ 2 ^ n }
{
    1u64 << n
}

// Whether the f64 of a pattern has no sign, is a whole number of 2^-places, and is below `frame` of them. An f64 of field f is a whole number of 2^(f - 1075)
// with 53 digits: below field 1023 - places it is less than one unit, and above 1075 - places no less than 2^53 of them.
pub fn kept(pattern: u64, places: u64, frame: u64) -> bool
    requires { Measure places frame }
    ensures { result ≡ is_kept places frame (of_bits binary64 pattern) }
{
    let field = pattern / FIELD;
    let digits = pattern % FIELD;
    if field == 0 {
        return digits == 0;
    }
    if !(1023 - places..=1075 - places).contains(&field) {
        return false;
    }
    let unit = power(1075 - places - field);
    let whole = FIELD + digits;
    if whole % unit != 0 {
        return false;
    }
    whole / unit < frame
}

// The sample counter of a pattern, 0 where none has it.
pub fn counter(pattern: u64, places: u64, frame: u64) -> f64
    requires { Measure places frame }
    ensures { result ≡ counter_of places frame pattern }
{
    if kept(pattern, places, frame) {
        return f64::from_bits(pattern);
    }
    0.0
}
