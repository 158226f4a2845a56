// The wave with its length record and its converter: what is its own.
ghost use Rattle.std.specs.Prelude.{◌≡◌};
ghost use Rattle.channel_groups.specs.WaveGroups.{kind, Held, written, byte_of, sounded, dac_written, length_written, volume_written};
ghost use Rattle.channel_groups.specs.WaveGroups.{tuned, ram_written, rewound};
ghost use Rattle.channel_groups.specs.Keeps.{wave_keeps};

use crate::bits::{control_byte, high_written, low_written};
use crate::group::{Channel, Group, Sounded};
use channel_wave::wave_channel::WaveChannel;
use ground::num::flag;

pub type WaveGroup = Group<WaveChannel>;

impl Channel for WaveChannel {
    type Model = bool;

    const MAX_LENGTH: u16 = 256;

    ghost MAX_LENGTH = { 256 };

    ghost kind = { kind };

    ghost keeps = { wave_keeps };

    fn new() -> WaveChannel {
        WaveChannel::new()
    }

    fn is_on(self) -> bool {
        self.channel_enable
    }

    fn set_enable(self, enabled: bool) -> WaveChannel {
        WaveChannel::set_enable(self, enabled)
    }

    fn retune(self, value: u8) -> WaveChannel {
        self.write_frequency(high_written(self.frequency, value))
    }

    fn trigger(self, dmg: bool) -> WaveChannel {
        WaveChannel::trigger(self, dmg)
    }

    fn clock(self) -> WaveChannel {
        WaveChannel::clock(self)
    }

    fn output(self) -> u8 {
        WaveChannel::output(self)
    }

    fn muted(self) -> bool {
        WaveChannel::muted(self)
    }
}

impl WaveGroup {
    // FF1A: the DAC.
    fn write_dac(self, value: u8) -> WaveGroup
        ensures { result ≡ dac_written self value }
    {
        let mut next = self;
        next.channel = self.channel.set_dac_enable(128 <= value);
        next
    }

    // FF1B: the length.
    fn write_length(self, value: u8) -> WaveGroup
        ensures { result ≡ length_written self value }
    {
        let mut next = self;
        next.length = self.length.write_sound_length(value);
        next
    }

    // FF1C: the volume.
    fn write_volume(self, value: u8) -> WaveGroup
        ensures { result ≡ volume_written self value }
    {
        let mut next = self;
        next.channel = self.channel.write_volume(value / 32);
        next
    }

    // FF1D: the low bits of the frequency.
    fn write_low(self, value: u8) -> WaveGroup
        ensures { result ≡ tuned self value }
    {
        let frequency = low_written(self.channel.frequency, value);
        let mut next = self;
        next.channel = self.channel.write_frequency(frequency);
        next
    }

    // A write at one of the offsets 0 to 4 of its five registers.
    pub fn write(self, at: u16, dmg: bool, even: bool, value: u8) -> WaveGroup
        requires { Held self }
        ensures { result ≡ written self at dmg even value }
    {
        match at {
            0 => self.write_dac(value),
            1 => self.write_length(value),
            2 => self.write_volume(value),
            3 => self.write_low(value),
            4 => self.write_control(dmg, even, value),
            _ => self,
        }
    }

    // A write to wave RAM.
    pub fn write_ram(self, dmg: bool, offset: u8, value: u8) -> WaveGroup
        ensures { result ≡ ram_written self dmg offset value }
    {
        let mut next = self;
        next.channel = self.channel.write_buffer(dmg, offset, value);
        next
    }

    // What its registers read as, by the offset.
    pub fn read(self, at: u16) -> u8
        ensures { result ≡ byte_of self at }
    {
        match at {
            0 => 0x7F + flag(self.channel.dac_enable, 128),
            2 => 0x9F + self.channel.volume % 4 * 32,
            4 => control_byte(self.length),
            _ => 0xFF,
        }
    }

    // Power on: the position at 0.
    pub fn rewind(self) -> WaveGroup
        ensures { result ≡ rewound self }
    {
        let mut next = self;
        next.channel = self.channel.reset_buffer_index();
        next
    }

    // Its part in a frame, by FF24 and FF25.
    pub fn sound(self, control: u8, selection: u8) -> Sounded<WaveChannel>
        requires { Held self }
        ensures { result ≡ sounded self control selection }
    {
        self.sound_as(control, selection, 2)
    }
}
