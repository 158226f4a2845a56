// What a run's settings give to each of its frames, worked out once for the run.
ghost use Rattle.std.specs.Prelude.{◌≡◌, ◌≤◌};
ghost use Rattle.apu_run.specs.FrameSettings.{loud_of, route_of, pulse_settings_of, frame_settings_of};

use crate::phases::Settings;
use channel_pulse::pulse_channel::{PulseChannel, duty_row};
use frame::mixing::{Sides, selected};

// A channel's way from its converter to the two sides: a muted channel's converter stands still, and it goes to neither.
#[derive(Clone, Copy)]
pub struct Route {
    pub muted: bool,
    pub rightward: bool,
    pub leftward: bool,
}

// A pulse's duty row and volume, wide, so that a frame masks nothing, and its route.
#[derive(Clone, Copy)]
pub struct PulseSettings {
    pub row: u32,
    pub volume: u32,
    pub route: Route,
}

// The pulses; the wave's shift and the noise's volume, wide too, and their routes; each side's factor, its volume and 1.
#[derive(Clone, Copy)]
pub struct FrameSettings {
    pub pulse1: PulseSettings,
    pub pulse2: PulseSettings,
    pub wave_shift: u32,
    pub wave_route: Route,
    pub noise_volume: u32,
    pub noise_route: Route,
    pub loud: Sides,
}

// A side's factor at its volume.
fn loud(volume: u8) -> f32
    ensures { result ≡ loud_of volume }
{
    volume as f32 + 1.0
}

// By FF25; channels are 0 to 3, pulse 1 first.
fn route_of(muted: bool, selection: u8, channel: u8) -> Route
    requires { channel ≤ 3 }
    ensures { result ≡ route_of muted selection channel }
{
    let right = selected(selection, channel);
    let left = selected(selection, channel + 4);
    Route {
        muted,
        rightward: right & !muted,
        leftward: left & !muted,
    }
}

fn pulse_settings_of(pulse: PulseChannel, selection: u8, channel: u8) -> PulseSettings
    requires { channel ≤ 3 }
    ensures { result ≡ pulse_settings_of pulse selection channel }
{
    PulseSettings {
        row: duty_row(pulse.duty) as u32,
        volume: pulse.envelope.current_volume as u32,
        route: route_of(pulse.muted(), selection, channel),
    }
}

pub fn frame_settings_of(settings: Settings) -> FrameSettings
    ensures { result ≡ frame_settings_of settings }
{
    let control = settings.channels_control;
    let selection = settings.channels_selection;
    FrameSettings {
        pulse1: pulse_settings_of(settings.pulse1, selection, 0),
        pulse2: pulse_settings_of(settings.pulse2, selection, 1),
        wave_shift: settings.wave.volume_shift as u32,
        wave_route: route_of(settings.wave.muted(), selection, 2),
        noise_volume: settings.noise.envelope.current_volume as u32,
        noise_route: route_of(settings.noise.muted(), selection, 3),
        loud: Sides {
            right: loud(control % 8),
            left: loud(control / 16 % 8),
        },
    }
}
