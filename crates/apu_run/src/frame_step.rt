// A frame from what was taken out of the unit: `push_output` of apu.rs without the unit. Each number is worked out or chosen and not jumped to, so that the
// compiler takes the channels side by side: both arms of a choice are worked out, and the choice comes last. (With an early return for a muted channel a frame
// of four sounding channels took 265 instructions in place of 207, and 12 % longer; one of two, 18 % less.)
ghost use Rattle.std.specs.Prelude.{◌≡◌};
ghost use Rattle.apu_run.specs.FrameSettings.{sound_of, frame_step_by, stood_of, stood_still};

use crate::frame_settings::{FrameSettings, Route};
use crate::levels::Levels;
use crate::phases::Converters;
use frame::converter::Converter;
use frame::mixing::{Mix, Sides, Voiced, mix_of};

// The converters after a frame, and the frame's ten numbers.
#[derive(Clone, Copy)]
pub struct FrameStep {
    pub converters: Converters,
    pub mix: Mix,
}

// A channel's level through its converter to both sides. The converter goes on though the channel be muted, when it should stand still: that is made good
// once, after the run (`stand_still`), since a choice here would be waited for by every next frame.
fn sound_channel(converter: Converter, level: f32, route: Route, loud: Sides) -> Voiced
    ensures { result ≡ sound_of converter level route loud }
{
    let dac_out = level - converter.capacitor;
    let part = dac_out / 8.0;
    let right = part * loud.right / 5.0;
    let left = part * loud.left / 5.0;
    Voiced {
        converter: Converter {
            capacitor: level - dac_out * 0.996,
        },
        sides: Sides {
            right: if route.rightward { right } else { 0.0 },
            left: if route.leftward { left } else { 0.0 },
        },
    }
}

// The four channels and their sums.
pub fn step_frame(t: FrameSettings, levels: Levels, k: Converters) -> FrameStep
    ensures { result ≡ frame_step_by t levels k }
{
    let p = sound_channel(k.pulse1, levels.pulse1, t.pulse1.route, t.loud);
    let q = sound_channel(k.pulse2, levels.pulse2, t.pulse2.route, t.loud);
    let w = sound_channel(k.wave, levels.wave, t.wave_route, t.loud);
    let n = sound_channel(k.noise, levels.noise, t.noise_route, t.loud);
    FrameStep {
        converters: Converters {
            pulse1: p.converter,
            pulse2: q.converter,
            wave: w.converter,
            noise: n.converter,
        },
        mix: mix_of(p.sides, q.sides, w.sides, n.sides),
    }
}

// A muted channel's converter as it was before, another's as it is after.
fn stood(muted: bool, before: Converter, after: Converter) -> Converter
    ensures { result ≡ stood_of muted before after }
{
    if muted { before } else { after }
}

// The converters after a run that began with those before: who is muted stays so through all of it.
pub fn stand_still(t: FrameSettings, before: Converters, after: Converters) -> Converters
    ensures { result ≡ stood_still t before after }
{
    Converters {
        pulse1: stood(t.pulse1.route.muted, before.pulse1, after.pulse1),
        pulse2: stood(t.pulse2.route.muted, before.pulse2, after.pulse2),
        wave: stood(t.wave_route.muted, before.wave, after.wave),
        noise: stood(t.noise_route.muted, before.noise, after.noise),
    }
}
