// Register bits that several groups share.
ghost use Rattle.std.specs.Prelude.{◌≡◌};
ghost use Rattle.channel_groups.specs.Bits.{low_written, high_written, control_byte};

use channel_parts::length::Length;
use ground::num::flag;

// FFx3: the low eight bits of a frequency.
pub fn low_written(frequency: u16, value: u8) -> u16
    ensures { result ≡ low_written frequency value }
{
    frequency / 256 * 256 + value as u16
}

// FFx4: the high three bits of a frequency.
pub fn high_written(frequency: u16, value: u8) -> u16
    ensures { result ≡ high_written frequency value }
{
    frequency % 256 + (value % 8) as u16 * 256
}

// What FFx4 reads as: only the length enable.
pub fn control_byte(length: Length) -> u8
    ensures { result ≡ control_byte length }
{
    0xBF + flag(length.counter_decrease_enable, 64)
}
