// The sample counter as a whole number of 2^-48: frames of many clock calls are counted by a division, with no float and no loop.
ghost use Rattle.std.specs.Prelude.{◌≡◌, ◌≤◌};
ghost use Rattle.clocks.specs.Calls.{K};
ghost use Rattle.clocks.specs.Metered.{Held, metered, frames_from};

use crate::sample_counter::half_clocks_of;

// What a working clock adds: 2^48 units of 2^-48.
pub const CLOCK_UNITS: u64 = 281474976710656;

// What a frame takes: K units, N as a whole number of 2^-48.
pub const FRAME_UNITS: u64 = 6692696262570359;

// Half-clocks, 0 or 1, and the rest, the sample counter in units of 2^-48, below K of them.
#[derive(Clone, Copy)]
pub struct Meter {
    pub half: u64,
    pub rest: u64,
}

// The frames that some calls make, and the meter after them.
#[derive(Clone, Copy)]
pub struct Metered {
    pub frames: u64,
    pub meter: Meter,
}

impl Meter {
    // So many clock calls at one speed. 16,385 working clocks of 2^48 units and a rest below K stay under 2^64.
    pub fn calls(self, double: bool, count: u64) -> Metered
        requires held { Held K self }
        requires count_bound { count ≤ 16384 }
        ensures { result ≡ metered 48 K self double count }
    {
        let halves = self.half + half_clocks_of(double, count as u32) as u64;
        let total = self.rest + halves / 2 * CLOCK_UNITS;
        Metered {
            frames: total / FRAME_UNITS,
            meter: Meter {
                half: halves % 2,
                rest: total % FRAME_UNITS,
            },
        }
    }
}

// The frames that so many half-clocks make from a meter on, 16,384 of them at a time.
pub fn frames_from(meter: Meter, halves: u64) -> u64
    requires { Held K meter }
    ensures { result ≡ frames_from 48 K meter halves }
{
    let mut at = meter;
    let mut frames: u64 = 0;
    for _ in 0..halves / 16384 {
        let metered = at.calls(true, 16384);
        at = metered.meter;
        frames += metered.frames;
    }
    frames + at.calls(true, halves % 16384).frames
}
