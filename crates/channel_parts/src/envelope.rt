// The envelope of a channel, a volume that steps up or down: `EnvelopGenerator` of envelope.rs. Its methods take any numbers.
ghost use Rattle.std.specs.Prelude.{◌≡◌};
ghost use Rattle.channel_parts.specs.Envelope.{fresh, written, byte_of, step_volume, goes_on, stepped, runs, expired, clocked, triggered};

use ground::num::{flag, reload};

#[repr(C)]
#[derive(Clone, Copy, Default)]
pub struct Envelope {
    pub starting_volume: u8,
    pub current_volume: u8,
    pub sweep_increase: bool,
    pub period: u8,
    // stops at either end of the volume, until a trigger
    pub envelope_can_run: bool,
    pub counter: u8,
}

// The volume one step on, within 0..15.
fn step_volume(volume: u8, increase: bool) -> u8
    ensures { result ≡ step_volume volume increase }
{
    if increase {
        if volume < 15 { volume + 1 } else { volume }
    } else {
        volume.saturating_sub(1)
    }
}

// Whether an envelope that has come to this volume goes on running.
fn goes_on(volume: u8) -> bool
    ensures { result ≡ goes_on volume }
{
    (volume != 0) & (volume != 15)
}

impl Envelope {
    // Everything 0 or off.
    pub fn new() -> Envelope
        ensures { result ≡ fresh }
    {
        Self::default()
    }

    // A write to FFx2 sets the volume at once; whether the envelope runs stays as it was.
    pub fn write_envelope_register(self, value: u8) -> Envelope
        ensures { result ≡ written self value }
    {
        let volume = value / 16;
        let period = value % 8;
        Envelope {
            starting_volume: volume,
            current_volume: volume,
            sweep_increase: value / 8 % 2 == 1,
            period,
            counter: period,
            ..self
        }
    }

    // What FFx2 reads as.
    pub fn read_envelope_register(self) -> u8
        ensures { result ≡ byte_of self }
    {
        self.starting_volume % 16 * 16 + flag(self.sweep_increase, 8) + self.period % 8
    }

    // A step of the volume, after which it may stop.
    fn step(self) -> Envelope
        ensures { result ≡ stepped self }
    {
        let volume = step_volume(self.current_volume, self.sweep_increase);
        Envelope {
            current_volume: volume,
            envelope_can_run: goes_on(volume),
            ..self
        }
    }

    // Whether a step is due when the counter runs out.
    fn runs(self) -> bool
        ensures { result ≡ runs self }
    {
        self.envelope_can_run & (self.period != 0)
    }

    // The counter has run out: it reloads, and a running envelope steps.
    fn expire(self) -> Envelope
        ensures { result ≡ expired self }
    {
        let mut next = self;
        next.counter = reload(self.period);
        if self.runs() { next.step() } else { next }
    }

    // A clock of the sequencer, at its position 8.
    pub fn clock(self) -> Envelope
        ensures { result ≡ clocked self }
    {
        let mut next = self;
        next.counter = self.counter.saturating_sub(1);
        if next.counter == 0 {
            self.expire()
        } else {
            next
        }
    }

    // The trigger of its channel sets the volume again and lets it run.
    pub fn trigger(self) -> Envelope
        ensures { result ≡ triggered self }
    {
        Envelope {
            current_volume: self.starting_volume,
            envelope_can_run: true,
            counter: self.period,
            ..self
        }
    }
}
