// Helpers on small numbers: what the Rust takes from the standard library or writes as a mask.
ghost use Rattle.std.specs.Prelude.{◌≡◌, ℕ, ◌≤◌};
ghost use Rattle.ground.specs.Num.{zero_as_eight, is_sound};
ghost use Rattle.ground.specs.Pick.{pick};

// A whole number of any width: what `flag` weighs with.
pub trait Unsigned: Copy {
    ghost value: { Self → ℕ };

    fn zero() -> Self
        ensures { value result ≡ 0 };
}

impl Unsigned for u8 {
    ghost value = { λ n. n };

    fn zero() -> u8 {
        0
    }
}

impl Unsigned for u16 {
    ghost value = { λ n. n };

    fn zero() -> u16 {
        0
    }
}

impl Unsigned for u32 {
    ghost value = { λ n. n };

    fn zero() -> u32 {
        0
    }
}

// A flag's weight where it is set, else 0.
pub fn flag<N: Unsigned>(set: bool, weight: N) -> N
    ensures value { N.value result ≡ pick set (N.value weight) 0 }
    ensures upper_bound { N.value result ≤ N.value weight }
{
    if set { weight } else { N::zero() }
}

// What a sweep's or an envelope's counter reloads to: the period, where 0 counts as 8.
pub fn reload(period: u8) -> u8
    ensures { result ≡ zero_as_eight period }
{
    if period == 0 { 8 } else { period }
}

// Whether an address is the sound unit's: FF10 to FF3F.
pub fn is_sound(addr: u16) -> bool
    ensures { result ≡ is_sound addr }
{
    (0xFF10..=0xFF3F).contains(&addr)
}
