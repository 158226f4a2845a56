// The head of a clock call, as `Apu::clock` has it: the half-clocks that it adds, and what a working clock does to the sample counter.
ghost use Rattle.std.specs.Prelude.{◌≡◌, ◌≤◌};
ghost use Rattle.clocks.specs.Calls.{half_clocks_of};
ghost use Rattle.clocks.specs.Counter.{every_at, tick_by};
ghost use Rattle.clocks.specs.Metered.{gained};

// N, the f64 nearest to 1048576 / 44100: working clocks a second by samples a second.
const SAMPLE_EVERY_N_CLOCKS: f64 = 23.777233560090703;

// The half-clocks of a call: 2 at normal speed, 1 at double speed.
pub fn half_clocks(double: bool) -> u8
    ensures value { result ≡ half_clocks_of double }
    ensures upper_bound { result ≤ 2 }
{
    if double { 1 } else { 2 }
}

// The half-clocks of so many calls at one speed.
pub fn half_clocks_of(double: bool, count: u32) -> u32
    requires { count ≤ 16384 }
    ensures value { result ≡ gained double count }
    ensures upper_bound { result ≤ 32768 }
{
    if double { count } else { count * 2 }
}

// Whether a working clock makes a frame, and the counter after it.
#[derive(Clone, Copy)]
pub struct Ticked {
    pub made: bool,
    pub counter: f64,
}

// 1 is added; at or above N a frame is made and N taken off.
pub fn tick(counter: f64) -> Ticked
    ensures { result ≡ tick_by (every_at 44100) counter }
{
    let sum = counter + 1.0;
    if sum >= SAMPLE_EVERY_N_CLOCKS {
        Ticked {
            made: true,
            counter: sum - SAMPLE_EVERY_N_CLOCKS,
        }
    } else {
        Ticked {
            made: false,
            counter: sum,
        }
    }
}
