// A pulse channel: `PulseChannel` of pulse_channel.rs, with its on/off rules from channel.rs.
ghost use Rattle.std.specs.Prelude.{◌≡◌};
ghost use Rattle.channel_pulse.specs.Pulse.{Held, fresh, duty_written, dac_set, sweep_written, enveloped, ticked, clocked, sweep_clocked, triggered};
ghost use Rattle.channel_pulse.specs.Pulse.{reload_of, duty_row, output_of, muted_of};
ghost use Rattle.channel_pulse.specs.With.{with_position, with_frequency, with_on};
ghost use Rattle.channel_pulse.specs.Phase.{PulsePhaseHeld, pulse_phase_of, with_pulse_phase};

use crate::phase::PulsePhase;
use crate::sweep::Sweep;
use channel_parts::envelope::Envelope;
use ground::num::flag;

#[derive(Clone, Copy, Default)]
pub struct PulseChannel {
    pub sweep: Sweep,
    // the step of the duty row that sounds, 0 to 7
    pub sequencer_position: usize,
    pub duty: u8,
    pub envelope: Envelope,
    pub frequency: u16,
    pub frequency_timer: u16,
    pub channel_enabled: bool,
    // set by the first trigger, and never cleared
    pub first_trigger: bool,
    pub dac_enable: bool,
}

// A duty row as eight bits, the first step highest.
pub fn duty_row(duty: u8) -> u8
    ensures { result ≡ duty_row duty }
{
    match duty {
        0 => 0x01,
        1 => 0x81,
        2 => 0x87,
        _ => 0x7E,
    }
}

impl PulseChannel {
    // Everything 0 or off.
    pub fn new() -> PulseChannel
        ensures { result ≡ fresh }
    {
        Self::default()
    }

    // A write to FF10, which may turn the channel off.
    pub fn write_sweep_register(self, value: u8) -> PulseChannel
        ensures { result ≡ sweep_written self value }
    {
        let checked = self.sweep.write_sweep_register(value);
        let mut next = self;
        next.sweep = checked.sweep;
        next.channel_enabled = self.channel_enabled & !checked.off;
        next
    }

    // The duty bits of FFx1.
    pub fn write_pattern_duty(self, duty: u8) -> PulseChannel
        ensures { result ≡ duty_written self duty }
    {
        let mut next = self;
        next.duty = duty % 4;
        next
    }

    // A write to FFx2: the envelope, and the DAC, which is on where one of the upper five bits is set.
    pub fn write_envelope_register(self, value: u8) -> PulseChannel
        ensures { result ≡ enveloped self value }
    {
        let mut next = self;
        next.envelope = self.envelope.write_envelope_register(value);
        next.set_dac_enable(8 <= value)
    }

    pub fn write_frequency(self, frequency: u16) -> PulseChannel
        ensures { result ≡ with_frequency self frequency }
    {
        let mut next = self;
        next.frequency = frequency;
        next
    }

    pub fn set_enable(self, enabled: bool) -> PulseChannel
        ensures { result ≡ with_on self enabled }
    {
        let mut next = self;
        next.channel_enabled = enabled;
        next
    }

    // The DAC; off turns the channel off.
    pub fn set_dac_enable(self, enabled: bool) -> PulseChannel
        ensures { result ≡ dac_set self enabled }
    {
        let mut next = self;
        next.dac_enable = enabled;
        next.channel_enabled = self.channel_enabled & enabled;
        next
    }

    // Power on puts the duty position back.
    pub fn reset_sequencer(self) -> PulseChannel
        ensures { result ≡ with_position self 0 }
    {
        let mut next = self;
        next.sequencer_position = 0;
        next
    }

    // What the timer reloads to.
    pub fn reload(self) -> u16
        requires { Held self }
        ensures { result ≡ reload_of self }
    {
        2047 - self.frequency
    }

    // The timer's step: at 0 the position goes on and the timer reloads.
    fn tick(self) -> PulseChannel
        requires { Held self }
        ensures { result ≡ ticked self }
    {
        let mut next = self;
        if self.frequency_timer == 0 {
            next.sequencer_position = (self.sequencer_position + 1) % 8;
            next.frequency_timer = self.reload();
            next
        } else {
            next.frequency_timer = self.frequency_timer - 1;
            next
        }
    }

    // A working clock; a pulse stands still until its first trigger.
    pub fn clock(self) -> PulseChannel
        requires { Held self }
        ensures { result ≡ clocked self }
    {
        if self.first_trigger {
            self.tick()
        } else {
            self
        }
    }

    // What its clocks move.
    pub fn phase(self) -> PulsePhase
        requires { Held self }
        ensures { result ≡ pulse_phase_of self }
    {
        PulsePhase {
            sequencer_position: self.sequencer_position,
            frequency_timer: self.frequency_timer as u32,
        }
    }

    // The channel with that as it stands after some clocks.
    pub fn with_phase(self, phase: PulsePhase) -> PulseChannel
        requires { PulsePhaseHeld phase }
        ensures { result ≡ with_pulse_phase self phase }
    {
        let mut next = self;
        next.sequencer_position = phase.sequencer_position;
        next.frequency_timer = phase.frequency_timer as u16;
        next
    }

    // A sweep clock, which may change the frequency and may turn the channel off.
    pub fn clock_sweeper(self) -> PulseChannel
        requires { Held self }
        ensures { result ≡ sweep_clocked self }
    {
        let swept = self.sweep.clock_sweeper(self.frequency);
        let mut next = self;
        next.sweep = swept.sweep;
        next.frequency = swept.frequency;
        next.channel_enabled = self.channel_enabled & !swept.off;
        next
    }

    // A trigger: on if the DAC is, then the timer, the envelope and the sweep, which may turn it off again.
    pub fn trigger(self) -> PulseChannel
        requires { Held self }
        ensures { result ≡ triggered self }
    {
        let checked = self.sweep.sweep_trigger(self.frequency);
        PulseChannel {
            sweep: checked.sweep,
            envelope: self.envelope.trigger(),
            frequency_timer: self.reload(),
            channel_enabled: (self.channel_enabled | self.dac_enable) & !checked.off,
            first_trigger: true,
            ..self
        }
    }

    // What goes to the converter with the position as in `phase`: 0 with the channel off, else the duty bit there times the volume.
    pub fn output_at(self, phase: PulsePhase) -> u8
        requires { PulsePhaseHeld phase }
        ensures { result ≡ output_of (with_pulse_phase self phase) }
    {
        let row = duty_row(self.duty);
        let bit = (row >> (7 - phase.sequencer_position)) % 2;
        let sounds = self.channel_enabled & (bit == 1);
        flag(sounds, self.envelope.current_volume)
    }

    // What goes to the converter.
    pub fn output(self) -> u8
        requires { Held self }
        ensures { result ≡ output_of self }
    {
        self.output_at(self.phase())
    }

    // Whether the converter stands still: channel off, or volume 0.
    pub fn muted(self) -> bool
        ensures { result ≡ muted_of self }
    {
        !self.channel_enabled | (self.envelope.current_volume == 0)
    }
}
