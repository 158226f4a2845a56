// The frequency sweep of pulse 1: the `sweep_` fields of `PulseChannel` in pulse_channel.rs. Pulse 2 has one too, which stays at rest.
ghost use Rattle.std.specs.Prelude.{◌≡◌, ◌≤◌};
ghost use Rattle.channel_pulse.specs.Sweep.{Held, fresh, written, byte_of, reloaded, target_of, calculated, checked, stored, updated, expired};
ghost use Rattle.channel_pulse.specs.Sweep.{clocked, sweep_started, triggered};

use ground::num::{flag, reload};

#[derive(Clone, Copy, Default)]
pub struct Sweep {
    pub period: u8,
    pub current_time: u8,
    pub internal_enable: bool,
    pub frequency_shadow: u16,
    pub negate: bool,
    pub shift_n: u8,
    // a calculation has happened since the last trigger or FF10 write
    pub calculation_happened: bool,
}

// A sweep, and whether it turns the channel off.
#[derive(Clone, Copy)]
pub struct Checked {
    pub sweep: Sweep,
    pub off: bool,
}

// A sweep, a frequency, and whether it turns the channel off.
#[derive(Clone, Copy)]
pub struct Swept {
    pub sweep: Sweep,
    pub frequency: u16,
    pub off: bool,
}

impl Sweep {
    // Everything 0 or off.
    pub fn new() -> Sweep
        ensures { result ≡ fresh }
    {
        Self::default()
    }

    // A write to FF10. Ending negate after a calculation turns the channel off.
    pub fn write_sweep_register(self, value: u8) -> Checked
        ensures { result ≡ written self value }
    {
        let mut next = self;
        next.period = value / 16 % 8;
        next.negate = value / 8 % 2 == 1;
        next.shift_n = value % 8;
        next.calculation_happened = false;
        Checked {
            sweep: next,
            off: self.negate & !next.negate & self.calculation_happened,
        }
    }

    // What FF10 reads as, before the OR mask.
    pub fn read_sweep_register(self) -> u8
        ensures { result ≡ byte_of self }
    {
        self.period % 8 * 16 + flag(self.negate, 8) + self.shift_n % 8
    }

    // The counter reloaded.
    fn reload_sweep_counter(self) -> Sweep
        ensures { result ≡ reloaded self }
    {
        let mut next = self;
        next.current_time = reload(self.period);
        next
    }

    // The shadow plus or minus itself shifted. Neither wraps: the shadow is at most 2047, so the sum is at most 4094 and the difference never below 0.
    fn target(self) -> u16
        requires { Held self }
        ensures { result ≡ target_of self }
    {
        let shifted = self.frequency_shadow >> self.shift_n;
        if self.negate {
            self.frequency_shadow - shifted
        } else {
            self.frequency_shadow + shifted
        }
    }

    // A calculation: its result, and whether that turns the channel off.
    fn sweep_calculation(self) -> Swept
        requires { Held self }
        ensures { result ≡ calculated self }
    {
        let result = self.target();
        let mut next = self;
        next.calculation_happened = true;
        Swept {
            sweep: next,
            frequency: result,
            off: 2047 < result,
        }
    }

    // A calculation of which only the range counts.
    fn check(self) -> Checked
        requires { Held self }
        ensures { result ≡ checked self }
    {
        let found = self.sweep_calculation();
        Checked {
            sweep: found.sweep,
            off: found.off,
        }
    }

    // A result that is kept, and the check that follows.
    fn store(self, frequency: u16) -> Swept
        requires held { Held self }
        requires frequency_bound { frequency ≤ 2047 }
        ensures { result ≡ stored self frequency }
    {
        let mut next = self;
        next.frequency_shadow = frequency;
        let again = next.check();
        Swept {
            sweep: again.sweep,
            frequency,
            off: again.off,
        }
    }

    // A calculation whose result is kept where it is in range and the shift is not 0.
    fn update(self, frequency: u16) -> Swept
        requires { Held self }
        ensures { result ≡ updated self frequency }
    {
        let first = self.sweep_calculation();
        let keep = (first.frequency <= 2047) & (self.shift_n != 0);
        if keep {
            first.sweep.store(first.frequency)
        } else {
            Swept { frequency, ..first }
        }
    }

    // The counter has run out: it reloads, and a running sweep calculates.
    fn expire(self, frequency: u16) -> Swept
        requires { Held self }
        ensures { result ≡ expired self frequency }
    {
        let next = self.reload_sweep_counter();
        let due = self.internal_enable & (self.period != 0);
        if due {
            next.update(frequency)
        } else {
            Swept {
                sweep: next,
                frequency,
                off: false,
            }
        }
    }

    // A sweep clock, at the sequencer's positions 3 and 7, with the channel's frequency.
    pub fn clock_sweeper(self, frequency: u16) -> Swept
        requires { Held self }
        ensures { result ≡ clocked self frequency }
    {
        let mut next = self;
        next.current_time = self.current_time.saturating_sub(1);
        if next.current_time == 0 {
            self.expire(frequency)
        } else {
            Swept {
                sweep: next,
                frequency,
                off: false,
            }
        }
    }

    // The sweep as a trigger starts it, before the calculation.
    fn start(self, frequency: u16) -> Sweep
        ensures { result ≡ sweep_started self frequency }
    {
        Sweep {
            current_time: reload(self.period),
            internal_enable: (self.period != 0) | (self.shift_n != 0),
            frequency_shadow: frequency,
            calculation_happened: false,
            ..self
        }
    }

    // The trigger of the channel, with its frequency.
    pub fn sweep_trigger(self, frequency: u16) -> Checked
        requires held { Held self }
        requires frequency_bound { frequency ≤ 2047 }
        ensures { result ≡ triggered self frequency }
    {
        let next = self.start(frequency);
        if self.shift_n == 0 {
            Checked {
                sweep: next,
                off: false,
            }
        } else {
            next.check()
        }
    }
}
