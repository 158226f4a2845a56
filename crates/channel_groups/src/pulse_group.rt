// A pulse with its length record and its converter: what is its own.
ghost use Rattle.std.specs.Prelude.{◌≡◌, ◌≤◌};
ghost use Rattle.channel_groups.specs.PulseGroups.{kind, Held, written, byte_of, sounded, sweep_written, length_written, envelope_written, tuned};
ghost use Rattle.channel_groups.specs.PulseGroups.{sweep_clocked, envelope_clocked, rewound};
ghost use Rattle.channel_groups.specs.Keeps.{pulse_keeps};

use crate::bits::{control_byte, high_written, low_written};
use crate::group::{Channel, Group, Sounded};
use channel_pulse::pulse_channel::PulseChannel;

pub type PulseGroup = Group<PulseChannel>;

impl Channel for PulseChannel {
    type Model = ();

    const MAX_LENGTH: u16 = 64;

    ghost MAX_LENGTH = { 64 };

    ghost kind = { kind };

    ghost keeps = { pulse_keeps };

    fn new() -> PulseChannel {
        PulseChannel::new()
    }

    fn is_on(self) -> bool {
        self.channel_enabled
    }

    fn set_enable(self, enabled: bool) -> PulseChannel {
        PulseChannel::set_enable(self, enabled)
    }

    fn retune(self, value: u8) -> PulseChannel {
        self.write_frequency(high_written(self.frequency, value))
    }

    fn trigger(self, _model: ()) -> PulseChannel {
        PulseChannel::trigger(self)
    }

    fn clock(self) -> PulseChannel {
        PulseChannel::clock(self)
    }

    fn output(self) -> u8 {
        PulseChannel::output(self)
    }

    fn muted(self) -> bool {
        PulseChannel::muted(self)
    }
}

impl PulseGroup {
    // FF10, of pulse 1 alone.
    pub fn write_sweep(self, value: u8) -> PulseGroup
        ensures { result ≡ sweep_written self value }
    {
        let mut next = self;
        next.channel = self.channel.write_sweep_register(value);
        next
    }

    // FFx1: the length, and with power on the duty.
    fn write_length(self, power: bool, value: u8) -> PulseGroup
        ensures { result ≡ length_written self power value }
    {
        let mut next = self;
        next.length = self.length.write_sound_length(value % 64);
        if power {
            next.channel = self.channel.write_pattern_duty(value / 64);
        }
        next
    }

    // FFx2: the envelope and the DAC.
    fn write_envelope(self, value: u8) -> PulseGroup
        ensures { result ≡ envelope_written self value }
    {
        let mut next = self;
        next.channel = self.channel.write_envelope_register(value);
        next
    }

    // FFx3: the low bits of the frequency.
    fn write_low(self, value: u8) -> PulseGroup
        ensures { result ≡ tuned self value }
    {
        let frequency = low_written(self.channel.frequency, value);
        let mut next = self;
        next.channel = self.channel.write_frequency(frequency);
        next
    }

    // A write at one of the offsets 1 to 4 of its five registers; offset 0 is FF10, or of pulse 2 nothing.
    pub fn write(self, at: u16, power: bool, even: bool, value: u8) -> PulseGroup
        requires { Held self }
        ensures { result ≡ written self at power even value }
    {
        match at {
            1 => self.write_length(power, value),
            2 => self.write_envelope(value),
            3 => self.write_low(value),
            4 => self.write_control((), even, value),
            _ => self,
        }
    }

    // What its registers read as, by the offset, but for FF10.
    pub fn read(self, at: u16) -> u8
        ensures { result ≡ byte_of self at }
    {
        match at {
            1 => 0x3F + self.channel.duty % 4 * 64,
            2 => self.channel.envelope.read_envelope_register(),
            4 => control_byte(self.length),
            _ => 0xFF,
        }
    }

    // A sweep clock, of pulse 1 alone.
    pub fn clock_sweeper(self) -> PulseGroup
        requires { Held self }
        ensures { result ≡ sweep_clocked self }
    {
        let mut next = self;
        next.channel = self.channel.clock_sweeper();
        next
    }

    // A clock of the envelope.
    pub fn clock_envelope(self) -> PulseGroup
        ensures { result ≡ envelope_clocked self }
    {
        let mut next = self;
        next.channel.envelope = self.channel.envelope.clock();
        next
    }

    // Power on: the duty position at 0.
    pub fn rewind(self) -> PulseGroup
        ensures { result ≡ rewound self }
    {
        let mut next = self;
        next.channel = self.channel.reset_sequencer();
        next
    }

    // Its part in a frame, by FF24 and FF25; pulse 1 is channel 0, pulse 2 channel 1.
    pub fn sound(self, control: u8, selection: u8, number: u8) -> Sounded<PulseChannel>
        requires held { Held self }
        requires number_bound { number ≤ 3 }
        ensures { result ≡ sounded self control selection number }
    {
        self.sound_as(control, selection, number)
    }
}
