// The length record of a channel: what `LengthCountedChannel` of channel.rs keeps beside the channel.
ghost use Rattle.std.specs.Prelude.{◌≡◌};
ghost use Rattle.channel_parts.specs.Length.{fresh, written, reset, clocked, newly_enabled, enabling, triggered};

use ground::num::flag;

#[derive(Clone, Copy)]
pub struct Length {
    // 64, of the wave 256
    pub max_length: u16,
    // the length last written; nothing reads it but an image of the unit
    pub length: u16,
    pub current_counter: u16,
    pub counter_decrease_enable: bool,
}

// A length record, and whether it turns the channel off.
#[derive(Clone, Copy)]
pub struct Clocked {
    pub length: Length,
    pub off: bool,
}

impl Length {
    // Everything 0 or off but the maximum.
    pub fn new(max: u16) -> Length
        ensures { result ≡ fresh max }
    {
        Length {
            max_length: max,
            length: 0,
            current_counter: 0,
            counter_decrease_enable: false,
        }
    }

    // A length write: the maximum less the data. Data is never above the maximum in a unit; were it, the length would be 0.
    pub fn write_sound_length(self, value: u8) -> Length
        ensures { result ≡ written self value }
    {
        let length = self.max_length.saturating_sub(value as u16);
        Length {
            length,
            current_counter: length,
            ..self
        }
    }

    // The length at its maximum, as power on puts it off DMG.
    pub fn reset_length_counter(self) -> Length
        ensures { result ≡ reset self }
    {
        Length {
            length: self.max_length,
            current_counter: self.max_length,
            ..self
        }
    }

    // A length clock: a counter that is 0 after it, or was before, turns the channel off.
    pub fn clock_length_counter(self) -> Clocked
        ensures { result ≡ clocked self }
    {
        let mut next = self;
        next.current_counter = self.current_counter.saturating_sub(1);
        if self.counter_decrease_enable {
            Clocked {
                length: next,
                off: next.current_counter == 0,
            }
        } else {
            Clocked {
                length: self,
                off: false,
            }
        }
    }

    // Whether this enable bit clocks the length at once.
    fn newly_enabled(self, enable: bool, even: bool) -> bool
        ensures { result ≡ newly_enabled self enable even }
    {
        enable & !self.counter_decrease_enable & even
    }

    // The enable bit of FFx4; `even` says that the sequencer's next position is even, so that it will not clock length.
    pub fn write_length_enable(self, enable: bool, even: bool) -> Clocked
        ensures { result ≡ enabling self enable even }
    {
        let mut next = self;
        next.counter_decrease_enable = enable;
        if self.newly_enabled(enable, even) {
            next.clock_length_counter()
        } else {
            Clocked {
                length: next,
                off: false,
            }
        }
    }

    // The trigger of its channel: a counter at 0 starts from the maximum, less the clock that `even` and an enabled length give at once.
    pub fn trigger_length(self, even: bool) -> Length
        ensures { result ≡ triggered self even }
    {
        let mut next = self;
        next.current_counter = self
            .max_length
            .saturating_sub(flag(self.counter_decrease_enable & even, 1));
        if self.current_counter == 0 {
            next
        } else {
            self
        }
    }
}
