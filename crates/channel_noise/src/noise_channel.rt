// The noise channel: `NoiseChannel` of noise_channel.rs, with its on/off rules from channel.rs.
ghost use Rattle.std.specs.Prelude.{◌≡◌, ◌≤◌};
ghost use Rattle.channel_noise.specs.Noise.{Held, fresh, written, byte_of, dac_set, enveloped, reload_of};
ghost use Rattle.channel_noise.specs.Noise.{clocked, triggered, output_of, muted_of};
ghost use Rattle.channel_noise.specs.With.{with_on};
ghost use Rattle.channel_noise.specs.Phase.{NoisePhaseHeld, noise_phase_of, with_noise_phase};

use crate::feedback::step_one;
use crate::phase::NoisePhase;
use crate::reloads::reload_at;
use channel_parts::envelope::Envelope;
use ground::num::flag;

#[derive(Clone, Copy, Default)]
pub struct NoiseChannel {
    pub shift_clock_frequency: u8,
    pub step_mode_7_bits: bool,
    pub divisor_code: u8,
    pub frequency_timer: u16,
    // 15 bits
    pub feedback_shift_register: u16,
    pub envelope: Envelope,
    pub channel_enabled: bool,
    pub dac_enable: bool,
}

impl NoiseChannel {
    // Everything 0 or off.
    pub fn new() -> NoiseChannel
        ensures { result ≡ fresh }
    {
        Self::default()
    }

    // A write to FF22.
    pub fn write_noise_register(self, value: u8) -> NoiseChannel
        ensures { result ≡ written self value }
    {
        let mut next = self;
        next.shift_clock_frequency = value / 16;
        next.step_mode_7_bits = value / 8 % 2 == 1;
        next.divisor_code = value % 8;
        next
    }

    // What FF22 reads as.
    pub fn read_noise_register(self) -> u8
        ensures { result ≡ byte_of self }
    {
        self.shift_clock_frequency % 16 * 16
            + flag(self.step_mode_7_bits, 8)
            + self.divisor_code % 8
    }

    // A write to FF21: the envelope, and the DAC, which is on where one of the upper five bits is set.
    pub fn write_envelope_register(self, value: u8) -> NoiseChannel
        ensures { result ≡ enveloped self value }
    {
        let mut next = self;
        next.envelope = self.envelope.write_envelope_register(value);
        next.set_dac_enable(8 <= value)
    }

    pub fn set_enable(self, enabled: bool) -> NoiseChannel
        ensures { result ≡ with_on self enabled }
    {
        let mut next = self;
        next.channel_enabled = enabled;
        next
    }

    // The DAC; off turns the channel off.
    pub fn set_dac_enable(self, enabled: bool) -> NoiseChannel
        ensures { result ≡ dac_set self enabled }
    {
        let mut next = self;
        next.dac_enable = enabled;
        next.channel_enabled = self.channel_enabled & enabled;
        next
    }

    // What the timer reloads to.
    pub fn get_frequency(self) -> u16
        requires { Held self }
        ensures { result ≡ reload_of self }
    {
        let ff22 = self.read_noise_register();
        reload_at(ff22)
    }

    // A working clock.
    pub fn clock(self) -> NoiseChannel
        requires { Held self }
        ensures { result ≡ clocked self }
    {
        let mut next = self;
        if self.frequency_timer == 0 {
            let register = self.feedback_shift_register as u32;
            next.feedback_shift_register = step_one(register, self.step_mode_7_bits) as u16;
            next.frequency_timer = self.get_frequency();
            next
        } else {
            next.frequency_timer = self.frequency_timer - 1;
            next
        }
    }

    // What its clocks move.
    pub fn phase(self) -> NoisePhase
        ensures { result ≡ noise_phase_of self }
    {
        NoisePhase {
            feedback_shift_register: self.feedback_shift_register as u32,
            frequency_timer: self.frequency_timer as u32,
        }
    }

    // The channel with this as what its clocks move.
    pub fn with_phase(self, phase: NoisePhase) -> NoiseChannel
        requires { NoisePhaseHeld phase }
        ensures { result ≡ with_noise_phase self phase }
    {
        let mut next = self;
        next.feedback_shift_register = phase.feedback_shift_register as u16;
        next.frequency_timer = phase.frequency_timer as u16;
        next
    }

    // A trigger: on if the DAC is, then the envelope and the register; the timer runs on.
    pub fn trigger(self) -> NoiseChannel
        ensures { result ≡ triggered self }
    {
        let mut next = self;
        next.envelope = self.envelope.trigger();
        next.feedback_shift_register = 0x7FFF;
        next.channel_enabled = self.channel_enabled | self.dac_enable;
        next
    }

    // What goes to the converter: 0 with the channel off, else the volume where bit 0 is 0.
    pub fn output(self) -> u8
        ensures { result ≡ output_of self }
    {
        self.output_at(self.phase())
    }

    // The same, where the clocks came to this.
    pub fn output_at(self, phase: NoisePhase) -> u8
        ensures { result ≡ output_of (with_noise_phase self phase) }
    {
        let sounds = self.channel_enabled & (phase.feedback_shift_register % 2 == 0);
        flag(sounds, self.envelope.current_volume)
    }

    // Whether the converter stands still: channel off, or volume 0.
    pub fn muted(self) -> bool
        ensures { result ≡ muted_of self }
    {
        !self.channel_enabled | (self.envelope.current_volume == 0)
    }
}
