// The wave channel: `WaveChannel` of wave_channel.rs, with its on/off rules from channel.rs. The model, DMG or not, is handed in.
ghost use Rattle.std.specs.Prelude.{◌≡◌, ◌≤◌};
ghost use Rattle.channel_wave.specs.Wave.{Held, fresh, shift_of, volume_written, dac_set, index_of, byte_at, stored, reload_of, timer_clocked, clocked};
ghost use Rattle.channel_wave.specs.Wave.{four_from, rewritten, buffer_at_trigger, triggered, nibble_of, output_of, muted_of};
ghost use Rattle.channel_wave.specs.With.{with_frequency, with_position, with_on};
ghost use Rattle.channel_wave.specs.Phase.{WavePhaseHeld, wave_phase_of, with_wave_phase};

use crate::phase::WavePhase;

#[derive(Clone, Copy, Default)]
pub struct WaveChannel {
    pub volume: u8,
    // 0, not 4, until FF1C is first written
    pub volume_shift: u8,
    pub frequency: u16,
    // wave RAM: 32 nibbles, the high one of each byte first
    pub buffer: [u8; 16],
    // the nibble that sounds, 0 to 31
    pub buffer_position: u8,
    pub buffer_position_just_clocked: bool,
    pub frequency_timer: u16,
    pub channel_enable: bool,
    pub dac_enable: bool,
}

// How far a nibble is shifted right at a volume.
fn shift_of(volume: u8) -> u8
    ensures { result ≡ shift_of volume }
{
    match volume {
        0 => 4,
        1 => 0,
        2 => 1,
        _ => 2,
    }
}

// Wave RAM with its first four bytes taken from `start` on.
fn copy_four(buffer: [u8; 16], start: usize) -> [u8; 16]
    requires { start ≤ 12 }
    ensures { result ≡ four_from buffer start }
{
    let mut next = buffer;
    next[..4].copy_from_slice(&buffer[start..start + 4]);
    next
}

// Wave RAM as a DMG trigger leaves it while the byte at the next position is being read.
fn rewrite(buffer: [u8; 16], position: u8) -> [u8; 16]
    requires { position ≤ 31 }
    ensures { result ≡ rewritten buffer position }
{
    let index = ((position + 1) % 32 / 2) as usize;
    if 4 <= index {
        return copy_four(buffer, index / 4 * 4);
    }
    let mut next = buffer;
    next[0] = buffer[index];
    next
}

impl WaveChannel {
    // Everything 0 or off, the stored shift too.
    pub fn new() -> WaveChannel
        ensures { result ≡ fresh }
    {
        Self::default()
    }

    // The volume bits of FF1C, with their shift.
    pub fn write_volume(self, volume: u8) -> WaveChannel
        ensures { result ≡ volume_written self volume }
    {
        let kept = volume % 4;
        let mut next = self;
        next.volume = kept;
        next.volume_shift = shift_of(kept);
        next
    }

    pub fn write_frequency(self, frequency: u16) -> WaveChannel
        ensures { result ≡ with_frequency self frequency }
    {
        let mut next = self;
        next.frequency = frequency;
        next
    }

    pub fn set_enable(self, enabled: bool) -> WaveChannel
        ensures { result ≡ with_on self enabled }
    {
        let mut next = self;
        next.channel_enable = enabled;
        next
    }

    // The DAC; off turns the channel off.
    pub fn set_dac_enable(self, enabled: bool) -> WaveChannel
        ensures { result ≡ dac_set self enabled }
    {
        let mut next = self;
        next.dac_enable = enabled;
        next.channel_enable = self.channel_enable & enabled;
        next
    }

    // Power on puts the position back.
    pub fn reset_buffer_index(self) -> WaveChannel
        ensures { result ≡ with_position self 0 }
    {
        let mut next = self;
        next.buffer_position = 0;
        next
    }

    // Where in wave RAM an access lands: while it plays at the byte that sounds, on DMG only if that was just clocked; else at the address.
    pub fn wave_buffer_index(self, dmg: bool, offset: u8) -> Option<usize>
        ensures { result ≡ index_of self dmg offset }
    {
        let here = (self.buffer_position / 2 % 16) as usize;
        let there = (offset % 16) as usize;
        if self.dac_enable & self.channel_enable {
            if dmg & !self.buffer_position_just_clocked {
                None
            } else {
                Some(here)
            }
        } else {
            Some(there)
        }
    }

    // A read of FF30 and up.
    pub fn read_buffer(self, dmg: bool, offset: u8) -> u8
        ensures { result ≡ byte_at self dmg offset }
    {
        match self.wave_buffer_index(dmg, offset) {
            Some(i) => self.buffer[i],
            None => 0xFF,
        }
    }

    // A write of FF30 and up.
    pub fn write_buffer(self, dmg: bool, offset: u8, value: u8) -> WaveChannel
        ensures { result ≡ stored self dmg offset value }
    {
        let mut next = self;
        if let Some(i) = self.wave_buffer_index(dmg, offset) {
            next.buffer[i] = value;
        }
        next
    }

    // What the timer reloads to.
    pub fn reload(self) -> u16
        requires { Held self }
        ensures { result ≡ reload_of self }
    {
        2047 - self.frequency
    }

    // One of the two clocks of its timer that a working clock has.
    fn clock_timer(self) -> WaveChannel
        requires { Held self }
        ensures { result ≡ timer_clocked self }
    {
        let mut next = self;
        if self.frequency_timer == 0 {
            next.buffer_position = (self.buffer_position + 1) % 32;
            next.buffer_position_just_clocked = true;
            next.frequency_timer = self.reload();
            next
        } else {
            next.buffer_position_just_clocked = false;
            next.frequency_timer = self.frequency_timer - 1;
            next
        }
    }

    // A working clock: "just clocked" is about its second half.
    pub fn clock(self) -> WaveChannel
        requires { Held self }
        ensures { result ≡ clocked self }
    {
        self.clock_timer().clock_timer()
    }

    // What its clocks move.
    pub fn phase(self) -> WavePhase
        ensures { result ≡ wave_phase_of self }
    {
        WavePhase {
            buffer_position: self.buffer_position as u32,
            buffer_position_just_clocked: self.buffer_position_just_clocked,
            frequency_timer: self.frequency_timer as u32,
        }
    }

    // The channel with that as it stands after some clocks.
    pub fn with_phase(self, phase: WavePhase) -> WaveChannel
        requires { WavePhaseHeld phase }
        ensures { result ≡ with_wave_phase self phase }
    {
        let mut next = self;
        next.buffer_position = phase.buffer_position as u8;
        next.buffer_position_just_clocked = phase.buffer_position_just_clocked;
        next.frequency_timer = phase.frequency_timer as u16;
        next
    }

    // Wave RAM as a trigger leaves it: rewritten on DMG with the timer at 0, whether the channel plays or not.
    fn buffer_at_trigger(self, dmg: bool) -> [u8; 16]
        requires { Held self }
        ensures { result ≡ buffer_at_trigger self dmg }
    {
        if dmg & (self.frequency_timer == 0) {
            rewrite(self.buffer, self.buffer_position)
        } else {
            self.buffer
        }
    }

    // A trigger: on if the DAC is, then wave RAM, the position, and a timer that starts three clocks later than a reload.
    pub fn trigger(self, dmg: bool) -> WaveChannel
        requires { Held self }
        ensures { result ≡ triggered self dmg }
    {
        let mut next = self;
        next.buffer = self.buffer_at_trigger(dmg);
        next.buffer_position = 0;
        next.frequency_timer = 2050 - self.frequency;
        next.channel_enable = self.channel_enable | self.dac_enable;
        next
    }

    // The nibble at the position in `phase`, high at even positions.
    fn nibble_at(self, phase: WavePhase) -> u8
        requires held { Held self }
        requires wave_phase_held { WavePhaseHeld phase }
        ensures { result ≡ nibble_of (with_wave_phase self phase) }
    {
        let place = (phase.buffer_position / 2) as usize;
        let byte = self.buffer[place];
        if phase.buffer_position % 2 == 0 {
            byte / 16 % 16
        } else {
            byte % 16
        }
    }

    // What goes to the converter with the position as in `phase`: 0 with the channel off, else the nibble shifted right by the stored shift.
    pub fn output_at(self, phase: WavePhase) -> u8
        requires held { Held self }
        requires wave_phase_held { WavePhaseHeld phase }
        ensures { result ≡ output_of (with_wave_phase self phase) }
    {
        let nibble = self.nibble_at(phase);
        let shifted = nibble >> self.volume_shift;
        if self.channel_enable { shifted } else { 0 }
    }

    // What goes to the converter.
    pub fn output(self) -> u8
        requires { Held self }
        ensures { result ≡ output_of self }
    {
        self.output_at(self.phase())
    }

    // Whether the converter stands still: only with the channel off.
    pub fn muted(self) -> bool
        ensures { result ≡ muted_of self }
    {
        !self.channel_enable
    }
}
