// A frequency sweep as bytes: 8.
ghost use Rattle.std.specs.Prelude.{◌≡◌, ◌+◌, ◌≤◌, length};
ghost use Rattle.image_fields.specs.Bytes.{stored};
ghost use Rattle.image_parts.specs.Pulse.{sweep_at, sweep_bytes, sweep_fits};

use channel_pulse::sweep::Sweep;
use image_fields::bytes::{put_flag, put_one, put_two, two};

// Its fields into lent bytes, from a place on.
pub fn put_sweep(out: &mut [u8], at: usize, w: Sweep)
    requires { at + 8 ≤ length out.old }
    ensures { out.new ≡ stored out.old at (sweep_bytes w) }
{
    put_one(out, at, w.period);
    put_one(out, at + 1, w.current_time);
    put_flag(out, at + 2, w.internal_enable);
    put_two(out, at + 3, w.frequency_shadow);
    put_flag(out, at + 5, w.negate);
    put_one(out, at + 6, w.shift_n);
    put_flag(out, at + 7, w.calculation_happened);
}

// What the bytes there say.
pub fn read_sweep(s: &[u8], at: usize) -> Sweep
    requires { at + 8 ≤ length s.now }
    ensures { result ≡ sweep_at s.now at }
{
    Sweep {
        period: s[at],
        current_time: s[at + 1],
        internal_enable: s[at + 2] == 1,
        frequency_shadow: two(s, at + 3),
        negate: s[at + 5] == 1,
        shift_n: s[at + 6],
        calculation_happened: s[at + 7] == 1,
    }
}

// Whether they are those of one in its ranges.
pub fn sweep_fits(s: &[u8], at: usize) -> bool
    requires { at + 8 ≤ length s.now }
    ensures { result ≡ sweep_fits s.now at }
{
    (s[at] <= 7)
        & (s[at + 1] <= 8)
        & (s[at + 2] <= 1)
        & (two(s, at + 3) <= 2047)
        & (s[at + 5] <= 1)
        & (s[at + 6] <= 7)
        & (s[at + 7] <= 1)
}
