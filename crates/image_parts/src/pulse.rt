// A pulse channel as bytes, 30.
ghost use Rattle.image_parts.specs.Pulse.{pulse_layout};

use crate::envelope::{envelope_fits, put_envelope, read_envelope};
use crate::group::ChannelBytes;
use crate::sweep::{put_sweep, read_sweep, sweep_fits};
use channel_pulse::pulse_channel::PulseChannel;
use image_fields::bytes::{eight, put_eight, put_flags, put_one, put_two, two};

impl ChannelBytes for PulseChannel {
    ghost layout = { pulse_layout };

    fn put(self, out: &mut [u8], at: usize) {
        put_sweep(out, at, self.sweep);
        put_eight(out, at + 8, self.sequencer_position as u64);
        put_one(out, at + 16, self.duty);
        put_envelope(out, at + 17, self.envelope);
        put_two(out, at + 23, self.frequency);
        put_two(out, at + 25, self.frequency_timer);
        put_flags(
            out,
            at + 27,
            self.channel_enabled,
            self.first_trigger,
            self.dac_enable,
        );
    }

    fn read(s: &[u8], at: usize) -> PulseChannel {
        PulseChannel {
            sweep: read_sweep(s, at),
            sequencer_position: eight(s, at + 8) as usize,
            duty: s[at + 16],
            envelope: read_envelope(s, at + 17),
            frequency: two(s, at + 23),
            frequency_timer: two(s, at + 25),
            channel_enabled: s[at + 27] == 1,
            first_trigger: s[at + 28] == 1,
            dac_enable: s[at + 29] == 1,
        }
    }

    fn fits(s: &[u8], at: usize) -> bool {
        sweep_fits(s, at)
            & (eight(s, at + 8) <= 7)
            & (s[at + 16] <= 3)
            & envelope_fits(s, at + 17)
            & (two(s, at + 23) <= 2047)
            & (two(s, at + 25) <= 2047)
            & (s[at + 27] <= 1)
            & (s[at + 28] <= 1)
            & (s[at + 29] <= 1)
    }
}
