// From frame to frame: the sample counter as a whole number of 2^-48, how many working clocks the next frame is away, and what they leave of it.
ghost use Rattle.std.specs.Prelude.{◌≡◌, ◌+◌, ◌-◌, ◌*◌, ◌^◌, ◌<◌};
ghost use Rattle.std.specs.Float.{binary64};
ghost use Rattle.ground.specs.Units.{units_of};
ghost use Rattle.clocks.specs.Calls.{K};
ghost use Rattle.clocks.specs.Counter.{Kept};
ghost use Rattle.clocks.specs.Distance.{units_in, away_of};

use crate::meter::{CLOCK_UNITS, FRAME_UNITS};

// The units of 2^-48 in 1.0: a power of two, so that neither the product nor the quotient by it rounds.
const UNITS_OF_ONE: f64 = 281474976710656.0;

// The units in a sample counter.
pub fn units_of(counter: f64) -> u64
    requires { Kept 48 K counter }
    ensures { result ≡ units_in counter }
{
    (counter * UNITS_OF_ONE) as u64
}

// The sample counter of so many units.
pub fn counter_of(units: u64) -> f64
    requires { units < K }
    ensures { result ≡ units_of binary64 48 units }
{
    units as f64 / UNITS_OF_ONE
}

// The working clocks up to and with the one that makes the next frame: the missing units by those of a clock, rounded up.
pub fn until(units: u64) -> u32
    requires { units < K }
    ensures { result ≡ away_of (units_of binary64 48 units) }
{
    ((FRAME_UNITS - units + (CLOCK_UNITS - 1)) / CLOCK_UNITS) as u32
}

// The units after the next frame, which is `due` working clocks away.
pub fn past_frame(units: u64, due: u32) -> u64
    requires units_bound { units < K }
    requires due_value { due ≡ away_of (units_of binary64 48 units) }
    ensures { result ≡ units + due * 2 ^ 48 - K }
{
    units + due as u64 * CLOCK_UNITS - FRAME_UNITS
}

// The units so many working clocks on, short of the next frame.
pub fn later(units: u64, clocks: u32) -> u64
    requires units_bound { units < K }
    requires clocks_bound { clocks < away_of (units_of binary64 48 units) }
    ensures value { result ≡ units + clocks * 2 ^ 48 }
    ensures upper_bound { result < K }
{
    units + clocks as u64 * CLOCK_UNITS
}
