// The sound unit: `Apu` of apu.rs, its record and constructors here, the rest by part.
#![tactic(auto)]

pub mod registers; // registers.rt: reads, writes and power

ghost use Rattle.std.specs.Prelude.{◌≡◌};
ghost use Rattle.apu.specs.Held.{Held, FloatsHeld};
ghost use Rattle.apu.specs.Start.{fresh, skipped};

use channel_groups::noise_group::NoiseGroup;
use channel_groups::pulse_group::PulseGroup;
use channel_groups::wave_group::WaveGroup;

#[derive(Clone, Copy)]
pub struct Apu {
    pub pulse1: PulseGroup,
    pub pulse2: PulseGroup,
    pub wave: WaveGroup,
    pub noise: NoiseGroup,
    // FF24
    pub channels_control: u8,
    // FF25
    pub channels_selection: u8,
    pub power: bool,
    // working clocks, less N for each frame made: 0 up to N, a whole number of 2^-48
    pub sample_counter: f64,
    // the divider bit that the last working clock saw
    pub divider_sequencer_clock_bit: bool,
    // -1 to 7
    pub sequencer_position: i8,
    // half-clocks, 0 or 1
    pub clocks_counter: u8,
    pub is_dmg: bool,
}

impl Apu {
    // A fresh unit: everything 0 or off.
    pub fn new(dmg: bool) -> Apu
        ensures value { result ≡ fresh dmg }
        ensures held { Held result × FloatsHeld result }
    {
        Apu {
            pulse1: PulseGroup::new(),
            pulse2: PulseGroup::new(),
            wave: WaveGroup::new(),
            noise: NoiseGroup::new(),
            channels_control: 0,
            channels_selection: 0,
            power: false,
            sample_counter: 0.0,
            divider_sequencer_clock_bit: false,
            sequencer_position: 0,
            clocks_counter: 0,
            is_dmg: dmg,
        }
    }

    // The unit as the boot program leaves it. Pulse 1 is on though its DAC flag is off.
    pub fn new_skip_boot_rom(dmg: bool) -> Apu
        ensures value { result ≡ skipped dmg }
        ensures held { Held result × FloatsHeld result }
    {
        let mut next = Apu::new(dmg);
        next.pulse1.channel.envelope = next.pulse1.channel.envelope.write_envelope_register(0xF3);
        next.pulse1.channel = next.pulse1.channel.write_pattern_duty(2).set_enable(true);
        next.noise.length = next.noise.length.write_sound_length(0x3F);
        next.channels_control = 0x77;
        next.channels_selection = 0xF3;
        next.power = true;
        next
    }
}
