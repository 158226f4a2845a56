// The noise channel as bytes, 15.
ghost use Rattle.image_parts.specs.Noise.{noise_layout};

use crate::envelope::{envelope_fits, put_envelope, read_envelope};
use crate::group::ChannelBytes;
use channel_noise::noise_channel::NoiseChannel;
use image_fields::bytes::{put_flag, put_one, put_two, two};

impl ChannelBytes for NoiseChannel {
    ghost layout = { noise_layout };

    fn put(self, out: &mut [u8], at: usize) {
        put_one(out, at, self.shift_clock_frequency);
        put_flag(out, at + 1, self.step_mode_7_bits);
        put_one(out, at + 2, self.divisor_code);
        put_two(out, at + 3, self.frequency_timer);
        put_two(out, at + 5, self.feedback_shift_register);
        put_envelope(out, at + 7, self.envelope);
        put_flag(out, at + 13, self.channel_enabled);
        put_flag(out, at + 14, self.dac_enable);
    }

    fn read(s: &[u8], at: usize) -> NoiseChannel {
        NoiseChannel {
            shift_clock_frequency: s[at],
            step_mode_7_bits: s[at + 1] == 1,
            divisor_code: s[at + 2],
            frequency_timer: two(s, at + 3),
            feedback_shift_register: two(s, at + 5),
            envelope: read_envelope(s, at + 7),
            channel_enabled: s[at + 13] == 1,
            dac_enable: s[at + 14] == 1,
        }
    }

    fn fits(s: &[u8], at: usize) -> bool {
        (s[at] <= 15)
            & (s[at + 1] <= 1)
            & (s[at + 2] <= 7)
            & (two(s, at + 3) <= 16383)
            & (two(s, at + 5) <= 0x7FFF)
            & envelope_fits(s, at + 7)
            & (s[at + 13] <= 1)
            & (s[at + 14] <= 1)
    }
}
