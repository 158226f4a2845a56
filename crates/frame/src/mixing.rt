// The mixing of `Apu::push_output` in apu.rs: each operation in f32, in the Rust's order.
ghost use Rattle.std.specs.Prelude.{◌≡◌, ◌≤◌};
ghost use Rattle.frame.specs.Mixing.{side_of, sides_of, selected_of, voiced, mixed};

use crate::converter::Converter;

// The two numbers of a frame that go to one buffer.
#[derive(Clone, Copy)]
pub struct Sides {
    pub right: f32,
    pub left: f32,
}

// The ten numbers of a frame.
#[derive(Clone, Copy)]
pub struct Mix {
    pub pulse1: Sides,
    pub pulse2: Sides,
    pub wave: Sides,
    pub noise: Sides,
    pub all: Sides,
}

// A channel's number on one side, by the side's volume and whether FF25 selects the channel there.
pub fn side_of(sample: f32, volume: u8, selected: bool) -> f32
    ensures { result ≡ side_of sample volume selected }
{
    let part = sample / 8.0;
    let loud = volume as f32 + 1.0;
    if selected {
        return part * loud / 5.0;
    }
    // apu.rs divides every side by 5, one that is not selected too; it comes to 0.0
    0.0 / 5.0
}

// A channel's numbers on both sides.
pub fn sides_of(sample: f32, right: u8, left: u8, rightward: bool, leftward: bool) -> Sides
    ensures { result ≡ sides_of sample right left rightward leftward }
{
    Sides {
        right: side_of(sample, right, rightward),
        left: side_of(sample, left, leftward),
    }
}

// A converter after a frame's step, and its channel's two numbers.
#[derive(Clone, Copy)]
pub struct Voiced {
    pub converter: Converter,
    pub sides: Sides,
}

// Whether a bit of FF25 is set: bits 0 to 3 send the channels to the right, 4 to 7 to the left.
pub fn selected(selection: u8, bit: u8) -> bool
    requires { bit ≤ 7 }
    ensures { result ≡ selected_of selection bit }
{
    (selection >> bit) % 2 == 1
}

// The converter's step and the channel's numbers, by FF24 and FF25; channels are 0 to 3, pulse 1 first.
pub fn voice(
    converter: Converter,
    output: u8,
    muted: bool,
    control: u8,
    selection: u8,
    channel: u8,
) -> Voiced
    requires { channel ≤ 3 }
    ensures { result ≡ voiced converter output muted control selection channel }
{
    let converted = converter.dac_output(output, muted);
    let rightward = selected(selection, channel);
    let leftward = selected(selection, channel + 4);
    let sides = sides_of(
        converted.dac_out,
        control % 8,
        control / 16 % 8,
        rightward,
        leftward,
    );
    let next = converted.converter;
    Voiced {
        converter: next,
        sides,
    }
}

// The four channels' numbers with their sums, added from the left.
pub fn mix_of(pulse1: Sides, pulse2: Sides, wave: Sides, noise: Sides) -> Mix
    ensures { result ≡ mixed pulse1 pulse2 wave noise }
{
    let all = Sides {
        right: pulse1.right + pulse2.right + wave.right + noise.right,
        left: pulse1.left + pulse2.left + wave.left + noise.left,
    };
    Mix {
        pulse1,
        pulse2,
        wave,
        noise,
        all,
    }
}
