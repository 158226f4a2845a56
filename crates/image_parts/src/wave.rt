// The wave channel as bytes, 26. The model byte after them is the unit's.
ghost use Rattle.std.specs.Prelude.{◌≡◌, ◌+◌, ◌≤◌, length};
ghost use Rattle.image_fields.specs.Bytes.{stored};
ghost use Rattle.image_parts.specs.Wave.{ram_at, ram_bytes, wave_layout};

use crate::group::ChannelBytes;
use channel_wave::wave_channel::WaveChannel;
use image_fields::bytes::{bytes, put_bytes, put_flag, put_one, put_two, two};
use image_fields::codes::shift_fits;

// Wave RAM into lent bytes, from a place on.
pub fn put_ram(out: &mut [u8], at: usize, ram: [u8; 16])
    requires { at + 16 ≤ length out.old }
    ensures { out.new ≡ stored out.old at (ram_bytes ram) }
{
    put_bytes(out, at, &ram);
}

// The sixteen bytes there.
pub fn read_ram(s: &[u8], at: usize) -> [u8; 16]
    requires { at + 16 ≤ length s.now }
    ensures { result ≡ ram_at s.now at }
{
    bytes(s, at)
}

impl ChannelBytes for WaveChannel {
    ghost layout = { wave_layout };

    fn put(self, out: &mut [u8], at: usize) {
        let ram = self.buffer;
        put_bytes(out, at, &[self.volume, self.volume_shift]);
        put_two(out, at + 2, self.frequency);
        put_ram(out, at + 4, ram);
        put_one(out, at + 20, self.buffer_position);
        put_flag(out, at + 21, self.buffer_position_just_clocked);
        put_two(out, at + 22, self.frequency_timer);
        put_flag(out, at + 24, self.channel_enable);
        put_flag(out, at + 25, self.dac_enable);
    }

    fn read(s: &[u8], at: usize) -> WaveChannel {
        let ram = read_ram(s, at + 4);
        WaveChannel {
            volume: s[at],
            volume_shift: s[at + 1],
            frequency: two(s, at + 2),
            buffer: ram,
            buffer_position: s[at + 20],
            buffer_position_just_clocked: s[at + 21] == 1,
            frequency_timer: two(s, at + 22),
            channel_enable: s[at + 24] == 1,
            dac_enable: s[at + 25] == 1,
        }
    }

    fn fits(s: &[u8], at: usize) -> bool {
        (s[at] <= 3)
            & shift_fits(s[at], s[at + 1])
            & (two(s, at + 2) <= 2047)
            & (s[at + 20] <= 31)
            & (s[at + 21] <= 1)
            & (two(s, at + 22) <= 2050)
            & (s[at + 24] <= 1)
            & (s[at + 25] <= 1)
    }
}
