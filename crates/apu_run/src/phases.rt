// The unit in three parts: what a run leaves as it is, what moves with each clock, what moves with each frame. Small records go through a loop faster than
// the unit.
ghost use Rattle.std.specs.Prelude.{◌≡◌, ◌≤◌, ◌/◌, min};
ghost use Rattle.ground.specs.Iterate.{iterate};
ghost use Rattle.apu.specs.Held.{Held};
ghost use Rattle.apu_run.specs.Phases.{SettingsHeld, PhasesHeld, settings_of, phases_of, converters_of, fast_of, tones_after};
ghost use Rattle.apu_run.specs.Phases.{phases_clocked, group_with, put_back};

use apu::Apu;
use channel_groups::group::Group;
use channel_noise::noise_channel::NoiseChannel;
use channel_noise::phase::NoisePhase;
use channel_pulse::phase::PulsePhase;
use channel_pulse::pulse_channel::PulseChannel;
use channel_wave::phase::WavePhase;
use channel_wave::wave_channel::WaveChannel;
use frame::converter::Converter;

// What a run leaves as it is. (Its channels' own positions and timers are not read.)
#[derive(Clone, Copy)]
pub struct Settings {
    pub pulse1: PulseChannel,
    pub pulse2: PulseChannel,
    pub wave: WaveChannel,
    pub noise: NoiseChannel,
    pub channels_control: u8,
    pub channels_selection: u8,
    pub power: bool,
    // what the noise timer reloads to, read once a run
    pub noise_reload: u32,
}

// What moves with each clock.
#[derive(Clone, Copy)]
pub struct Phases {
    pub pulse1: PulsePhase,
    pub pulse2: PulsePhase,
    pub wave: WavePhase,
    pub noise: NoisePhase,
}

// What moves with each clock, without the noise.
#[derive(Clone, Copy)]
struct TonePhases {
    pulse1: PulsePhase,
    pulse2: PulsePhase,
    wave: WavePhase,
}

// What moves with each frame.
#[derive(Clone, Copy)]
pub struct Converters {
    pub pulse1: Converter,
    pub pulse2: Converter,
    pub wave: Converter,
    pub noise: Converter,
}

pub fn settings_of(unit: Apu) -> Settings
    requires { Held unit }
    ensures { result ≡ settings_of unit }
{
    Settings {
        pulse1: unit.pulse1.channel,
        pulse2: unit.pulse2.channel,
        wave: unit.wave.channel,
        noise: unit.noise.channel,
        channels_control: unit.channels_control,
        channels_selection: unit.channels_selection,
        power: unit.power,
        noise_reload: unit.noise.channel.get_frequency() as u32,
    }
}

pub fn phases_of(unit: Apu) -> Phases
    requires { Held unit }
    ensures { result ≡ phases_of unit }
{
    Phases {
        pulse1: unit.pulse1.channel.phase(),
        pulse2: unit.pulse2.channel.phase(),
        wave: unit.wave.channel.phase(),
        noise: unit.noise.channel.phase(),
    }
}

pub fn converters_of(unit: Apu) -> Converters
    ensures { result ≡ converters_of unit }
{
    Converters {
        pulse1: unit.pulse1.converter,
        pulse2: unit.pulse2.converter,
        wave: unit.wave.converter,
        noise: unit.noise.converter,
    }
}

// So many clocks at least are between two steps of each, by what their timers reload to; the wave's goes two a clock.
fn near(reload1: u32, reload2: u32, reload3: u32) -> u32
    ensures { result ≡ min (min reload1 reload2) (reload3 / 2) }
{
    reload1.min(reload2).min(reload3 / 2)
}

// Whether a channel may step in every frame, which come 23 clocks apart or more.
pub fn fast_of(settings: Settings) -> bool
    requires { SettingsHeld settings }
    ensures { result ≡ fast_of settings }
{
    let tones = near(
        settings.pulse1.reload() as u32,
        settings.pulse2.reload() as u32,
        settings.wave.reload() as u32,
    );
    tones.min(settings.noise_reload) < 23
}

// The pulses and the wave after so many working clocks with power on. Where none steps twice they go without a jump.
fn advance_tones(phases: Phases, settings: Settings, n: u32) -> TonePhases
    requires phases_held { PhasesHeld phases }
    requires settings_held { SettingsHeld settings }
    requires n_bound { n ≤ 32768 }
    ensures { result ≡ tones_after settings n phases }
{
    let first = settings.pulse1;
    let second = settings.pulse2;
    let reload1 = first.reload() as u32;
    let reload2 = second.reload() as u32;
    let reload3 = settings.wave.reload() as u32;
    if (1 <= n) & (n <= near(reload1, reload2, reload3)) {
        TonePhases {
            pulse1: phases.pulse1.advance_near(first.first_trigger, reload1, n),
            pulse2: phases.pulse2.advance_near(second.first_trigger, reload2, n),
            wave: phases.wave.advance_near(reload3, n),
        }
    } else {
        TonePhases {
            pulse1: phases.pulse1.advance(first.first_trigger, reload1, n),
            pulse2: phases.pulse2.advance(second.first_trigger, reload2, n),
            wave: phases.wave.advance(reload3, n),
        }
    }
}

impl Phases {
    // So many working clocks at once; with power off the channels stand still.
    pub fn advance(self, settings: Settings, n: u32) -> Phases
        requires phases_held { PhasesHeld self }
        requires settings_held { SettingsHeld settings }
        requires n_bound { n ≤ 32768 }
        ensures { result ≡ iterate n (phases_clocked settings) self }
    {
        if !settings.power {
            return self;
        }
        let tones = advance_tones(self, settings, n);
        let narrow = settings.noise.step_mode_7_bits;
        Phases {
            pulse1: tones.pulse1,
            pulse2: tones.pulse2,
            wave: tones.wave,
            noise: self.noise.advance(narrow, settings.noise_reload, n),
        }
    }
}

// A group with another converter and another channel.
fn group_with<C: Copy>(group: Group<C>, converter: Converter, channel: C) -> Group<C>
    ensures { result ≡ group_with group converter channel }
{
    Group {
        converter,
        channel,
        ..group
    }
}

// The unit with all of it put back, and the sample counter.
pub fn put_back(unit: Apu, phases: Phases, converters: Converters, counter: f64) -> Apu
    requires { PhasesHeld phases }
    ensures { result ≡ put_back unit phases converters counter }
{
    let pulse1 = unit.pulse1.channel.with_phase(phases.pulse1);
    let pulse2 = unit.pulse2.channel.with_phase(phases.pulse2);
    let wave = unit.wave.channel.with_phase(phases.wave);
    let noise = unit.noise.channel.with_phase(phases.noise);
    let mut next = unit;
    next.pulse1 = group_with(unit.pulse1, converters.pulse1, pulse1);
    next.pulse2 = group_with(unit.pulse2, converters.pulse2, pulse2);
    next.wave = group_with(unit.wave, converters.wave, wave);
    next.noise = group_with(unit.noise, converters.noise, noise);
    next.sample_counter = counter;
    next
}
