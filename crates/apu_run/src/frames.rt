// From frame to frame: the channels go their clocks up to the next frame at once, then the frame, and on.
ghost use Rattle.std.specs.Prelude.{◌≡◌, ◌+◌, ◌≤◌, ◌<◌, true, length};
ghost use Rattle.std.proofs.lemmas.List.Edits.{sets};
ghost use Rattle.clocks.specs.Calls.{K};
ghost use Rattle.apu.specs.Held.{Held, FloatsHeld};
ghost use Rattle.apu_run.specs.Working.{ran_of};
ghost use Rattle.apu_run.specs.Parts.{silent_of, behind, parts_of};

use crate::frame_settings::frame_settings_of;
use crate::frame_step::{stand_still, step_frame};
use crate::levels::{known_of, levels_of, no_levels};
use crate::phases::{Converters, Phases, converters_of, fast_of, phases_of, settings_of};
use apu::Apu;
use clocks::distance::{counter_of, later, past_frame, units_of, until};
use log_items::items::{FRAME_BYTES, put_mix, put_silence};

// What a run moved, to be put back into its unit, and the place after its bytes. (The unit itself, handed back whole, would be copied twice.)
#[derive(Clone, Copy)]
pub struct Parts {
    pub phases: Phases,
    pub converters: Converters,
    pub counter: f64,
    pub at: usize,
}

// So many working clocks of a unit whose sample counter is ahead, at so many units: its channels have `waiting` clocks to come before them.
fn sound_from(
    unit: Apu,
    ahead: u64,
    count: u32,
    waiting: u32,
    out: &mut [u8],
    start: usize,
) -> Parts
    requires held { Held unit }
    requires floats_held { FloatsHeld unit }
    requires ahead_bound { ahead < K }
    requires count_bound { waiting + count ≤ 32767 }
    requires waiting_in_bounds { start + length (ran_of count (behind unit ahead waiting)).bytes ≤ length out.old }
    ensures value { result ≡ parts_of (ran_of count (behind unit ahead waiting)) start }
    ensures out_after { out.new ≡ sets out.old start (ran_of count (behind unit ahead waiting)).bytes }
{
    let settings = settings_of(unit);
    let frame_settings = frame_settings_of(settings);
    let fast = fast_of(settings);
    let ram = settings.wave.buffer;
    let mut phases = phases_of(unit);
    let mut converters = converters_of(unit);
    let mut units = ahead;
    let mut due = until(units);
    let mut left = count;
    let mut at = start;
    // the channels' clocks that are still to come; the clock of a frame's own call comes after the frame
    let mut pending = waiting;
    // what goes into the converters, and for how many clocks that is known: at first for none
    let mut levels = no_levels();
    let mut known = 0u32;
    loop {
        // up to the clock before the frame, or to the last one where none comes
        let clocks = pending + (due - 1).min(left);
        let over = left < due;
        if over | (known <= clocks) {
            phases = phases.advance(settings, clocks);
            if over {
                return Parts {
                    phases,
                    converters: stand_still(frame_settings, converters_of(unit), converters),
                    counter: counter_of(later(units, left)),
                    at,
                };
            }
            levels = levels_of(frame_settings, phases, &ram);
            known = known_of(fast, settings, frame_settings, phases);
            pending = 0;
        } else {
            pending = clocks;
        }
        let step = step_frame(frame_settings, levels, converters);
        put_mix(out, at, step.mix);
        converters = step.converters;
        at += FRAME_BYTES;
        units = past_frame(units, due);
        left -= due;
        pending += 1;
        due = until(units);
    }
}

// So many working clocks, none of which moves the sequencer, with their frames' bytes from `start` on.
pub fn sound(unit: Apu, count: u32, out: &mut [u8], start: usize) -> Parts
    requires held { Held unit }
    requires floats_held { FloatsHeld unit }
    requires count_bound { count ≤ 32767 }
    requires unit_in_bounds { start + length (ran_of count unit).bytes ≤ length out.old }
    ensures value { result ≡ parts_of (ran_of count unit) start }
    ensures out_after { out.new ≡ sets out.old start (ran_of count unit).bytes }
{
    sound_from(unit, units_of(unit.sample_counter), count, 0, out, start)
}

// Whether all four channels are muted, as with power off.
pub fn silent(unit: Apu) -> bool
    ensures { result ≡ silent_of unit }
{
    unit.pulse1.channel.muted()
        & (unit.pulse2.channel.muted() & (unit.wave.channel.muted() & unit.noise.channel.muted()))
}

// The same as `sound`, of a unit whose channels are all muted: every frame is silence, and the channels' clocks all wait to the end. (As a function of its own:
// in one with `sound_from` the loop over frames takes a tenth longer.)
pub fn rest(unit: Apu, count: u32, out: &mut [u8], start: usize) -> Parts
    requires unit_value { silent_of unit ≡ true }
    requires held { Held unit }
    requires floats_held { FloatsHeld unit }
    requires count_bound { count ≤ 32767 }
    requires unit_in_bounds { start + length (ran_of count unit).bytes ≤ length out.old }
    ensures value { result ≡ parts_of (ran_of count unit) start }
    ensures out_after { out.new ≡ sets out.old start (ran_of count unit).bytes }
{
    let mut units = units_of(unit.sample_counter);
    let mut due = until(units);
    let mut left = count;
    let mut at = start;
    let mut waiting = 0u32;
    while due <= left {
        put_silence(out, at);
        at += FRAME_BYTES;
        units = past_frame(units, due);
        left -= due;
        waiting += due;
        due = until(units);
    }
    sound_from(unit, units, left, waiting, out, at)
}
