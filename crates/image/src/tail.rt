// The unit's own fields as bytes, which stand after its channels: 15, from FF24 to the model.
ghost use Rattle.std.specs.Prelude.{◌≡◌, ◌+◌, ◌≤◌, length};
ghost use Rattle.clocks.specs.Position.{PositionHeld};
ghost use Rattle.image_fields.specs.Bytes.{stored};
ghost use Rattle.image.specs.Image.{tail_bytes, tail_fits};

use apu::Apu;
use clocks::meter::FRAME_UNITS;
use image_fields::bytes::{eight, put_bytes, put_eight, put_flag};
use image_fields::codes::position_byte;
use image_fields::floats::{kept, pattern64};

// The sample counter counts in 2^-48.
pub const PLACES: u64 = 48;

// Those fields into lent bytes, from a place on.
pub fn put_tail(out: &mut [u8], at: usize, unit: Apu)
    requires at_in_bounds { at + 15 ≤ length out.old }
    requires position_held { PositionHeld unit.sequencer_position }
    ensures { out.new ≡ stored out.old at (tail_bytes unit) }
{
    let counter = pattern64(unit.sample_counter);
    let position = position_byte(unit.sequencer_position);
    put_bytes(out, at, &[unit.channels_control, unit.channels_selection]);
    put_flag(out, at + 2, unit.power);
    put_eight(out, at + 3, counter);
    put_flag(out, at + 11, unit.divider_sequencer_clock_bit);
    put_bytes(out, at + 12, &[position, unit.clocks_counter]);
    put_flag(out, at + 14, unit.is_dmg);
}

// Whether the bytes there are those of a unit in its ranges. FF24 and FF25 may be any.
pub fn tail_fits(s: &[u8], at: usize) -> bool
    requires { at + 15 ≤ length s.now }
    ensures { result ≡ tail_fits s.now at }
{
    (s[at + 2] <= 1)
        & kept(eight(s, at + 3), PLACES, FRAME_UNITS)
        & (s[at + 11] <= 1)
        & ((s[at + 12] <= 7) | (s[at + 12] == 255))
        & (s[at + 13] <= 1)
        & (s[at + 14] <= 1)
}
