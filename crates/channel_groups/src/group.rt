// A group: a channel with its length record and its converter, `Dac<LengthCountedChannel<C>>` of the Rust, and what is alike for any channel C.
ghost use Rattle.std.specs.Prelude.{◌≡◌, ◌≤◌, ℕ};
ghost use Rattle.channel_groups.specs.Groups.{Kind, Held, fresh, readied, triggered, controlled, clocked, length_clocked, refilled, silenced, sounded};
ghost use Rattle.channel_groups.specs.Keeps.{KeepsRanges};

use channel_parts::length::Length;
use frame::converter::Converter;
use frame::mixing::{Sides, voice};

// A channel as its group sees it.
pub trait Channel: Copy {
    // What a trigger has to know of the unit: of the wave the model, of the others nothing.
    type Model: Copy;

    // 64, of the wave 256
    const MAX_LENGTH: u16;

    ghost MAX_LENGTH: { ℕ };

    // The rules of the channel.
    ghost kind: { Kind Self Self.Model };

    fn new() -> Self
        ensures { result ≡ kind.fresh };

    fn is_on(self) -> bool
        ensures { result ≡ kind.on self };

    fn set_enable(self, enabled: bool) -> Self
        ensures { result ≡ kind.switched self enabled };

    // The high bits of the frequency, of a channel that has one, from the byte of FFx4.
    fn retune(self, value: u8) -> Self
        ensures { result ≡ kind.retuned value self };

    fn trigger(self, model: Self::Model) -> Self
        requires { kind.Own self }
        ensures { result ≡ kind.triggered model self };

    // A working clock.
    fn clock(self) -> Self
        requires { kind.Own self }
        ensures { result ≡ kind.clocked self };

    // What goes to the converter, and whether that stands still.
    fn output(self) -> u8
        requires { kind.Own self }
        ensures { result ≡ kind.output_of self };

    fn muted(self) -> bool
        ensures { result ≡ kind.muted_of self };

    ghost keeps: { KeepsRanges kind };
}

#[derive(Clone, Copy)]
pub struct Group<C> {
    pub converter: Converter,
    pub length: Length,
    pub channel: C,
}

// A group after its part in a frame, and the two numbers that it sounds.
#[derive(Clone, Copy)]
pub struct Sounded<C> {
    pub group: Group<C>,
    pub sides: Sides,
}

impl<C: Channel> Group<C> {
    // Everything 0 or off.
    pub fn new() -> Group<C>
        ensures { result ≡ fresh C.kind C.MAX_LENGTH }
    {
        let converter = Converter::new();
        let length = Length::new(C::MAX_LENGTH);
        let channel = C::new();
        Group {
            converter,
            length,
            channel,
        }
    }

    // FFx4 but for the trigger: the frequency, then the length enable, which may clock the length at once and so turn the channel off.
    fn ready(self, even: bool, value: u8) -> Group<C>
        ensures { result ≡ readied C.kind self even value }
    {
        let clocked = self.length.write_length_enable(value / 64 % 2 == 1, even);
        let tuned = self.channel.retune(value);
        let mut next = self;
        next.length = clocked.length;
        next.channel = tuned.set_enable(tuned.is_on() & !clocked.off);
        next
    }

    // A trigger: of the length, then of the channel.
    fn start(self, model: C::Model, even: bool) -> Group<C>
        requires { Held C.kind C.MAX_LENGTH self }
        ensures { result ≡ triggered C.kind self model even }
    {
        let mut next = self;
        next.length = self.length.trigger_length(even);
        next.channel = self.channel.trigger(model);
        next
    }

    // FFx4; `even` says that the sequencer's next position is even.
    pub(crate) fn write_control(self, model: C::Model, even: bool, value: u8) -> Group<C>
        requires { Held C.kind C.MAX_LENGTH self }
        ensures { result ≡ controlled C.kind self model even value }
    {
        let ready = self.ready(even, value);
        if 128 <= value {
            ready.start(model, even)
        } else {
            ready
        }
    }

    // A working clock of the channel.
    pub fn clock(self) -> Group<C>
        requires { Held C.kind C.MAX_LENGTH self }
        ensures { result ≡ clocked C.kind self }
    {
        let mut next = self;
        next.channel = self.channel.clock();
        next
    }

    // A length clock, which may turn the channel off.
    pub fn clock_length_counter(self) -> Group<C>
        ensures { result ≡ length_clocked C.kind self }
    {
        let clocked = self.length.clock_length_counter();
        let mut next = self;
        next.length = clocked.length;
        next.channel = self.channel.set_enable(self.channel.is_on() & !clocked.off);
        next
    }

    // Power on, off DMG: the length at its maximum.
    pub fn reset_length_counter(self) -> Group<C>
        ensures { result ≡ refilled self }
    {
        let mut next = self;
        next.length = self.length.reset_length_counter();
        next
    }

    // Power off: the channel off.
    pub fn silence(self) -> Group<C>
        ensures { result ≡ silenced C.kind self }
    {
        let mut next = self;
        next.channel = self.channel.set_enable(false);
        next
    }

    // Its part in a frame, by FF24, FF25 and the channel's number there.
    pub(crate) fn sound_as(self, control: u8, selection: u8, number: u8) -> Sounded<C>
        requires held { Held C.kind C.MAX_LENGTH self }
        requires number_bound { number ≤ 3 }
        ensures { result ≡ sounded C.kind self control selection number }
    {
        let voiced = voice(
            self.converter,
            self.channel.output(),
            self.channel.muted(),
            control,
            selection,
            number,
        );
        let mut next = self;
        next.converter = voiced.converter;
        Sounded {
            group: next,
            sides: voiced.sides,
        }
    }
}
