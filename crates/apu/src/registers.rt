// The registers of the unit: `read_register`, `write_register`, the PCM reads and power of apu.rs.
ghost use Rattle.std.specs.Prelude.{◌≡◌, ◌-◌};
ghost use Rattle.ground.specs.Num.{is_sound};
ghost use Rattle.ground.specs.Pick.{pick};
ghost use Rattle.apu.specs.Held.{Held, FloatsHeld};
ghost use Rattle.clocks.specs.Position.{next_even};
ghost use Rattle.apu.specs.Answers.{refusal_of_read, returned_of_read, refusal_of_write, returned_of_write};
ghost use Rattle.apu.specs.Registers.{status_byte, byte_at, read_of, pcm12_of, pcm34_of};
ghost use Rattle.apu.specs.Registers.{sound_written, gated_written, ram_written, power_written, written_at, write_of};
ghost use Rattle.apu.specs.Registers.{zeroed, silenced, powered_off, restarted, refilled, powered_on};

use crate::Apu;
use clocks::position::next_position;
use ground::num::{flag, is_sound};

// Refusal 1: a read or write outside FF10 to FF3F.
#[derive(Clone, Copy)]
pub struct WrongAddress;

// A write's answer, and the unit after it.
#[derive(Clone, Copy)]
pub struct Written {
    pub answer: Result<(), WrongAddress>,
    pub apu: Apu,
}

impl Apu {
    // FF26: the power, and which channels are on.
    fn status(self) -> u8
        ensures { result ≡ status_byte self }
    {
        0x70 + flag(self.power, 128)
            + flag(self.noise.channel.channel_enabled, 8)
            + flag(self.wave.channel.channel_enable, 4)
            + flag(self.pulse2.channel.channel_enabled, 2)
            + flag(self.pulse1.channel.channel_enabled, 1)
    }

    // What FF10 and up read as, by the offset.
    fn byte_at(self, at: u16) -> u8
        ensures { result ≡ byte_at self at }
    {
        match at {
            0 => 0x80 + self.pulse1.channel.sweep.read_sweep_register(),
            1..=4 => self.pulse1.read(at),
            5..=9 => self.pulse2.read(at - 5),
            10..=14 => self.wave.read(at - 10),
            15..=19 => self.noise.read(at - 15),
            20 => self.channels_control,
            21 => self.channels_selection,
            22 => self.status(),
            23..=31 => 0xFF,
            _ => self.wave.channel.read_buffer(self.is_dmg, (at % 16) as u8),
        }
    }

    // A read of any address.
    pub fn read_register(self, addr: u16) -> Result<u8, WrongAddress>
        ensures { (result ≡ read_of self addr) × (refusal_of_read result ≡ pick (is_sound addr) 0 1)
            × (returned_of_read result ≡ pick (is_sound addr) (byte_at self (addr - 0xFF10)) 0) }
    {
        if is_sound(addr) {
            Ok(self.byte_at(addr - 0xFF10))
        } else {
            Err(WrongAddress)
        }
    }

    // FF76: the outputs of pulse 2 and pulse 1.
    pub fn read_pcm12(self) -> u8
        requires { Held self }
        ensures { result ≡ pcm12_of self }
    {
        self.pulse2.channel.output() % 16 * 16 + self.pulse1.channel.output() % 16
    }

    // FF77: the outputs of noise and wave.
    pub fn read_pcm34(self) -> u8
        requires { Held self }
        ensures { result ≡ pcm34_of self }
    {
        self.noise.channel.output() % 16 * 16 + self.wave.channel.output() % 16
    }

    // Whether the sequencer's next position is even, so that it will not clock length.
    fn next_even(self) -> bool
        requires { Held self }
        ensures { result ≡ next_even self.sequencer_position }
    {
        next_position(self.sequencer_position) % 2 == 0
    }

    // A write of FF10 to FF25, by the offset, that the power does not hold back.
    fn write_sound(self, at: u16, value: u8) -> Apu
        requires { Held self }
        ensures { result ≡ sound_written self at value }
    {
        let even = self.next_even();
        let mut next = self;
        match at {
            0 => next.pulse1 = self.pulse1.write_sweep(value),
            1..=4 => next.pulse1 = self.pulse1.write(at, self.power, even, value),
            5..=9 => next.pulse2 = self.pulse2.write(at - 5, self.power, even, value),
            10..=14 => next.wave = self.wave.write(at - 10, self.is_dmg, even, value),
            15..=19 => next.noise = self.noise.write(at - 15, even, value),
            20 => next.channels_control = value,
            _ => next.channels_selection = value,
        }
        next
    }

    // The same by the power: off, only the four length registers take writes.
    fn write_gated(self, at: u16, value: u8) -> Apu
        requires { Held self }
        ensures { result ≡ gated_written self at value }
    {
        if self.power || matches!(at, 1 | 6 | 11 | 16) {
            self.write_sound(at, value)
        } else {
            self
        }
    }

    // Wave RAM.
    fn write_ram(self, at: u16, value: u8) -> Apu
        ensures { result ≡ ram_written self at value }
    {
        let mut next = self;
        next.wave = self.wave.write_ram(self.is_dmg, (at % 16) as u8, value);
        next
    }

    // 0 to FF10..FF25 in order, still powered.
    fn zero_all(self) -> Apu
        requires { Held self }
        ensures { result ≡ zeroed self 22 }
    {
        let mut next = self;
        for at in 0..22u16 {
            next = next.write_sound(at, 0);
        }
        next
    }

    // All channels off, and the power.
    fn silence(self) -> Apu
        ensures { result ≡ silenced self }
    {
        let mut next = self;
        next.pulse1 = self.pulse1.silence();
        next.pulse2 = self.pulse2.silence();
        next.wave = self.wave.silence();
        next.noise = self.noise.silence();
        next.power = false;
        next
    }

    fn power_off(self) -> Apu
        requires { Held self }
        ensures { result ≡ powered_off self }
    {
        self.zero_all().silence()
    }

    // The sequencer at its start, duty and wave positions at 0. With the stored bit set the first event comes a fall later.
    fn restart(self) -> Apu
        ensures { result ≡ restarted self }
    {
        let mut next = self;
        next.pulse1 = self.pulse1.rewind();
        next.pulse2 = self.pulse2.rewind();
        next.wave = self.wave.rewind();
        next.power = true;
        next.sequencer_position = 0;
        if self.divider_sequencer_clock_bit {
            next.sequencer_position = -1;
        }
        next
    }

    // All lengths at their maximum.
    fn refill(self) -> Apu
        ensures { result ≡ refilled self }
    {
        let mut next = self;
        next.pulse1 = self.pulse1.reset_length_counter();
        next.pulse2 = self.pulse2.reset_length_counter();
        next.wave = self.wave.reset_length_counter();
        next.noise = self.noise.reset_length_counter();
        next
    }

    fn power_on(self) -> Apu
        ensures { result ≡ powered_on self }
    {
        let started = self.restart();
        if self.is_dmg {
            started
        } else {
            started.refill()
        }
    }

    // FF26: only bit 7 counts, and only where it changes the power.
    fn write_power(self, value: u8) -> Apu
        requires { Held self }
        ensures { result ≡ power_written self value }
    {
        match (128 <= value, self.power) {
            (true, false) => self.power_on(),
            (false, true) => self.power_off(),
            _ => self,
        }
    }

    // A write of FF10 and up, by the offset.
    fn write_at(self, at: u16, value: u8) -> Apu
        requires { Held self }
        ensures { result ≡ written_at self at value }
    {
        match at {
            0..=21 => self.write_gated(at, value),
            22 => self.write_power(value),
            23..=31 => self,
            _ => self.write_ram(at, value),
        }
    }

    // A write of any address.
    pub fn write_register(self, addr: u16, value: u8) -> Written
        requires { Held self }
        ensures value { (result ≡ write_of self addr value) × (refusal_of_write result.answer ≡ pick (is_sound addr) 0 1)
            × (returned_of_write result.answer ≡ 0) }
        ensures held { Held result.apu × (FloatsHeld self → FloatsHeld result.apu) }
    {
        if is_sound(addr) {
            let next = self.write_at(addr - 0xFF10, value);
            Written {
                answer: Ok(()),
                apu: next,
            }
        } else {
            Written {
                answer: Err(WrongAddress),
                apu: self,
            }
        }
    }
}
