// All of a unit as an image, from a place on: version, length of the rest, then every field in the order of the original's structures.
ghost use Rattle.std.specs.Prelude.{◌≡◌, ◌+◌, ◌≤◌, length};
ghost use Rattle.clocks.specs.Position.{PositionHeld};
ghost use Rattle.image_fields.specs.Bytes.{stored};
ghost use Rattle.image.specs.Image.{head_bytes, unit_bytes, unit_at, unit_fits};

use crate::layout::{MODEL, NOISE, PULSE1, PULSE2, REST, TAIL, VERSION, WAVE, WAVE_MODEL};
use crate::tail::{PLACES, put_tail, tail_fits};
use apu::Apu;
use channel_noise::noise_channel::NoiseChannel;
use channel_pulse::pulse_channel::PulseChannel;
use channel_wave::wave_channel::WaveChannel;
use clocks::meter::FRAME_UNITS;
use image_fields::bytes::{eight, put_flag, put_one, put_two, two};
use image_fields::codes::position_at;
use image_fields::floats::counter;
use image_parts::group::{group_fits, put_group, read_group};

// Version and length of the rest.
fn put_head(out: &mut [u8], at: usize)
    requires { at + 3 ≤ length out.old }
    ensures { out.new ≡ stored out.old at head_bytes }
{
    put_one(out, at, VERSION);
    put_two(out, at + 1, REST);
}

// A unit into lent bytes, from a place on.
pub fn put_unit(out: &mut [u8], at: usize, unit: Apu)
    requires at_in_bounds { at + 164 ≤ length out.old }
    requires position_held { PositionHeld unit.sequencer_position }
    ensures { out.new ≡ stored out.old at (unit_bytes unit) }
{
    put_head(out, at);
    put_group(out, at + PULSE1, unit.pulse1);
    put_group(out, at + PULSE2, unit.pulse2);
    put_group(out, at + WAVE, unit.wave);
    put_flag(out, at + WAVE_MODEL, unit.is_dmg);
    put_group(out, at + NOISE, unit.noise);
    put_tail(out, at + TAIL, unit);
}

// The unit that the bytes there say.
pub fn read_unit(s: &[u8], at: usize) -> Apu
    requires { at + 164 ≤ length s.now }
    ensures { result ≡ unit_at s.now at }
{
    let tail = at + TAIL;
    Apu {
        pulse1: read_group(s, at + PULSE1),
        pulse2: read_group(s, at + PULSE2),
        wave: read_group(s, at + WAVE),
        noise: read_group(s, at + NOISE),
        channels_control: s[tail],
        channels_selection: s[tail + 1],
        power: s[tail + 2] == 1,
        sample_counter: counter(eight(s, tail + 3), PLACES, FRAME_UNITS),
        divider_sequencer_clock_bit: s[tail + 11] == 1,
        sequencer_position: position_at(s[tail + 12]),
        clocks_counter: s[tail + 13],
        is_dmg: s[tail + MODEL] == 1,
    }
}

// Whether the bytes there are those of a unit in its ranges.
pub fn unit_fits(s: &[u8], at: usize) -> bool
    requires { at + 164 ≤ length s.now }
    ensures { result ≡ unit_fits s.now at }
{
    let tail = at + TAIL;
    (s[at] == VERSION)
        & (two(s, at + 1) == REST)
        & group_fits::<PulseChannel>(s, at + PULSE1)
        & group_fits::<PulseChannel>(s, at + PULSE2)
        & group_fits::<WaveChannel>(s, at + WAVE)
        & (s[at + WAVE_MODEL] == s[tail + MODEL])
        & group_fits::<NoiseChannel>(s, at + NOISE)
        & tail_fits(s, tail)
}
