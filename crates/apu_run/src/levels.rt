// What goes into the four converters: it stays as it is while no output changes, so that most frames need not look at the channels at all.
ghost use Rattle.std.specs.Prelude.{◌≡◌, ◌≤◌, pos};
ghost use Rattle.std.specs.Float.{binary32};
ghost use Rattle.std.specs.Float.Ieee.{of_int};
ghost use Rattle.frame.specs.Converter.{in_of};
ghost use Rattle.apu_run.specs.Phases.{SettingsHeld, PhasesHeld};
ghost use Rattle.apu_run.specs.FrameSettings.{FrameSettingsHeld, pulse_output, nibble_at, wave_output, noise_output, no_levels, levels_of};
ghost use Rattle.apu_run.specs.FrameSettings.{calm_by, pulse_calm, noise_calm, calm_of, known_of};
ghost use Rattle.channel_noise.specs.Phase.{NoisePhaseHeld};
ghost use Rattle.channel_pulse.specs.Phase.{PulsePhaseHeld};
ghost use Rattle.channel_pulse.specs.Pulse as pulse;

use crate::frame_settings::FrameSettings;
use crate::phases::{Phases, Settings};
use channel_noise::phase::NoisePhase;
use channel_pulse::phase::PulsePhase;
use channel_pulse::pulse_channel::PulseChannel;

// Each channel's output by 15.
#[derive(Clone, Copy, Default)]
pub struct Levels {
    pub pulse1: f32,
    pub pulse2: f32,
    pub wave: f32,
    pub noise: f32,
}

pub fn no_levels() -> Levels
    ensures { result ≡ no_levels }
{
    Levels::default()
}

// An output as a float, by its bits: 2^23 and the number, less 2^23. (The machine's own conversion can wait for what its register held before, and so each
// frame for the last one: on x86-64 that took a quarter of the time.)
fn whole(output: u32) -> f32
    requires { output ≤ 15 }
    ensures { result ≡ of_int binary32 (pos output) }
{
    f32::from_bits(0x4B00_0000 + output) - 8388608.0
}

// What an output gives to its converter.
fn level(output: u32) -> f32
    requires { output ≤ 15 }
    ensures { result ≡ in_of output }
{
    whole(output) / 15.0
}

// A pulse's output at a position of its duty row.
fn pulse_output(row: u32, volume: u32, position: u32) -> u32
    requires position_bound { position ≤ 7 }
    requires volume_bound { volume ≤ 15 }
    ensures value { result ≡ pulse_output row volume position }
    ensures upper_bound { result ≤ 15 }
{
    (row >> (7 - position)) % 2 * volume
}

// The nibble at a position of wave RAM.
fn nibble_at(position: u32, ram: &[u8; 16]) -> u8
    requires { position ≤ 31 }
    ensures value { result ≡ nibble_at position ram.now }
    ensures upper_bound { result ≤ 15 }
{
    let place = (position / 2) as usize;
    let byte = ram[place];
    if position % 2 == 0 {
        byte / 16 % 16
    } else {
        byte % 16
    }
}

// The wave's output.
fn wave_output(shift: u32, position: u32, ram: &[u8; 16]) -> u32
    requires shift_bound { shift ≤ 4 }
    requires position_bound { position ≤ 31 }
    ensures value { result ≡ wave_output shift position ram.now }
    ensures upper_bound { result ≤ 15 }
{
    let nibble = nibble_at(position, ram) as u32;
    nibble >> shift
}

// The noise's.
fn noise_output(volume: u32, register: u32) -> u32
    requires { volume ≤ 15 }
    ensures value { result ≡ noise_output volume register }
    ensures upper_bound { result ≤ 15 }
{
    (1 - register % 2) * volume
}

// The levels of the four. Wave RAM is lent: copied it would cost as much as the four.
pub fn levels_of(t: FrameSettings, m: Phases, ram: &[u8; 16]) -> Levels
    requires frame_settings_held { FrameSettingsHeld t }
    requires phases_held { PhasesHeld m }
    ensures { result ≡ levels_of t m ram.now }
{
    let output1 = pulse_output(
        t.pulse1.row,
        t.pulse1.volume,
        m.pulse1.sequencer_position as u32,
    );
    let output2 = pulse_output(
        t.pulse2.row,
        t.pulse2.volume,
        m.pulse2.sequencer_position as u32,
    );
    let output3 = wave_output(t.wave_shift, m.wave.buffer_position, ram);
    let output4 = noise_output(t.noise_volume, m.noise.feedback_shift_register);
    Levels {
        pulse1: level(output1),
        pulse2: level(output2),
        wave: level(output3),
        noise: level(output4),
    }
}

// How many clocks an output stays: up to the next step, and where that changes nothing up to the step after it.
fn calm(same: bool, timer: u32, reload: u32) -> u32
    requires timer_bound { timer ≤ 65535 }
    requires reload_bound { reload ≤ 65535 }
    ensures { result ≡ calm_by same timer reload }
{
    if same { timer + (reload + 1) } else { timer }
}

// A pulse's: for longer than a run before the first trigger.
fn pulse_calm(channel: PulseChannel, row: u32, m: PulsePhase) -> u32
    requires held { pulse.Held channel }
    requires pulse_phase_held { PulsePhaseHeld m }
    ensures { result ≡ pulse_calm channel.first_trigger row (pulse.reload_of channel) m }
{
    let position = m.sequencer_position as u32;
    let next = pulse_output(row, 1, (position + 1) % 8);
    let now = pulse_output(row, 1, position);
    let clocks = calm(next == now, m.frequency_timer, channel.reload() as u32);
    if channel.first_trigger { clocks } else { 32767 }
}

// The noise's: a step takes its register's bit 1 to bit 0.
fn noise_calm(reload: u32, m: NoisePhase) -> u32
    requires noise_phase_held { NoisePhaseHeld m }
    requires reload_bound { reload ≤ 65535 }
    ensures { result ≡ noise_calm reload m }
{
    let register = m.feedback_shift_register;
    let next = noise_output(1, register / 2);
    let now = noise_output(1, register);
    calm(next == now, m.frequency_timer, reload)
}

// How many clocks the levels of all four stay.
fn calm_of(settings: Settings, t: FrameSettings, m: Phases) -> u32
    requires settings_held { SettingsHeld settings }
    requires phases_held { PhasesHeld m }
    ensures { result ≡ calm_of settings t m }
{
    let pulse1 = pulse_calm(settings.pulse1, t.pulse1.row, m.pulse1);
    let pulse2 = pulse_calm(settings.pulse2, t.pulse2.row, m.pulse2);
    let wave = m.wave.frequency_timer / 2;
    let noise = noise_calm(settings.noise_reload, m.noise);
    pulse1.min(pulse2).min(wave.min(noise))
}

// For how many clocks from a look on the levels are known, that of the look among them; of a fast run for none: there to ask costs more than it saves.
pub fn known_of(fast: bool, settings: Settings, t: FrameSettings, m: Phases) -> u32
    requires settings_held { SettingsHeld settings }
    requires phases_held { PhasesHeld m }
    ensures { result ≡ known_of fast settings t m }
{
    if fast {
        return 0;
    }
    calm_of(settings, t, m) + 1
}
