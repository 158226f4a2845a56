// The noise with its length record and its converter: what is its own.
ghost use Rattle.std.specs.Prelude.{◌≡◌};
ghost use Rattle.channel_groups.specs.NoiseGroups.{kind, Held, written, byte_of, sounded, length_written, envelope_written, noise_written, envelope_clocked};
ghost use Rattle.channel_groups.specs.Keeps.{noise_keeps};

use crate::bits::control_byte;
use crate::group::{Channel, Group, Sounded};
use channel_noise::noise_channel::NoiseChannel;

pub type NoiseGroup = Group<NoiseChannel>;

impl Channel for NoiseChannel {
    type Model = ();

    const MAX_LENGTH: u16 = 64;

    ghost MAX_LENGTH = { 64 };

    ghost kind = { kind };

    ghost keeps = { noise_keeps };

    fn new() -> NoiseChannel {
        NoiseChannel::new()
    }

    fn is_on(self) -> bool {
        self.channel_enabled
    }

    fn set_enable(self, enabled: bool) -> NoiseChannel {
        NoiseChannel::set_enable(self, enabled)
    }

    fn retune(self, _value: u8) -> NoiseChannel {
        self
    }

    fn trigger(self, _model: ()) -> NoiseChannel {
        NoiseChannel::trigger(self)
    }

    fn clock(self) -> NoiseChannel {
        NoiseChannel::clock(self)
    }

    fn output(self) -> u8 {
        NoiseChannel::output(self)
    }

    fn muted(self) -> bool {
        NoiseChannel::muted(self)
    }
}

impl NoiseGroup {
    // FF20: the length.
    fn write_length(self, value: u8) -> NoiseGroup
        ensures { result ≡ length_written self value }
    {
        let mut next = self;
        next.length = self.length.write_sound_length(value % 64);
        next
    }

    // FF21: the envelope and the DAC.
    fn write_envelope(self, value: u8) -> NoiseGroup
        ensures { result ≡ envelope_written self value }
    {
        let mut next = self;
        next.channel = self.channel.write_envelope_register(value);
        next
    }

    // FF22: shift, mode and divisor code.
    fn write_noise(self, value: u8) -> NoiseGroup
        ensures { result ≡ noise_written self value }
    {
        let mut next = self;
        next.channel = self.channel.write_noise_register(value);
        next
    }

    // A write at one of the offsets 1 to 4 of its five registers; offset 0, FF1F, is unused.
    pub fn write(self, at: u16, even: bool, value: u8) -> NoiseGroup
        requires { Held self }
        ensures { result ≡ written self at even value }
    {
        match at {
            1 => self.write_length(value),
            2 => self.write_envelope(value),
            3 => self.write_noise(value),
            4 => self.write_control((), even, value),
            _ => self,
        }
    }

    // What its registers read as, by the offset.
    pub fn read(self, at: u16) -> u8
        ensures { result ≡ byte_of self at }
    {
        match at {
            2 => self.channel.envelope.read_envelope_register(),
            3 => self.channel.read_noise_register(),
            4 => control_byte(self.length),
            _ => 0xFF,
        }
    }

    // A clock of the envelope.
    pub fn clock_envelope(self) -> NoiseGroup
        ensures { result ≡ envelope_clocked self }
    {
        let mut next = self;
        next.channel.envelope = self.channel.envelope.clock();
        next
    }

    // Its part in a frame, by FF24 and FF25.
    pub fn sound(self, control: u8, selection: u8) -> Sounded<NoiseChannel>
        requires { Held self }
        ensures { result ≡ sounded self control selection }
    {
        self.sound_as(control, selection, 3)
    }
}
