// A group as bytes: its converter, its length and its channel; and what that asks of a channel.
ghost use Rattle.std.specs.Prelude.{◌≡◌, ◌+◌, ◌≤◌, length};
ghost use Rattle.image_fields.specs.Bytes.{stored};
ghost use Rattle.image_parts.specs.Groups.{Layout, group_at, group_bytes, group_fits};

use crate::converter::{converter_fits, put_converter, read_converter};
use crate::length::{length_fits, put_length, read_length};
use channel_groups::group::{Channel, Group};

// A channel as bytes.
pub trait ChannelBytes: Channel {
    ghost layout: { Layout Self };

    // Its fields into lent bytes, from a place on.
    fn put(self, out: &mut [u8], at: usize)
        requires { at + layout.size ≤ length out.old }
        ensures { out.new ≡ stored out.old at (layout.bytes self) };

    // What the bytes there say.
    fn read(s: &[u8], at: usize) -> Self
        requires { at + layout.size ≤ length s.now }
        ensures { result ≡ layout.value s.now at };

    // Whether they are those of one in its ranges.
    fn fits(s: &[u8], at: usize) -> bool
        requires { at + layout.size ≤ length s.now }
        ensures { result ≡ layout.fits s.now at };
}

// Converter, length record and channel into lent bytes, from a place on.
pub fn put_group<C: ChannelBytes>(out: &mut [u8], at: usize, group: Group<C>)
    requires { at + (11 + C.layout.size) ≤ length out.old }
    ensures { out.new ≡ stored out.old at (group_bytes C.layout group) }
{
    put_converter(out, at, group.converter);
    put_length(out, at + 4, group.length);
    group.channel.put(out, at + 11);
}

// What the bytes there say.
pub fn read_group<C: ChannelBytes>(s: &[u8], at: usize) -> Group<C>
    requires { at + (11 + C.layout.size) ≤ length s.now }
    ensures { result ≡ group_at C.layout s.now at }
{
    Group {
        converter: read_converter(s, at),
        length: read_length(s, at + 4),
        channel: C::read(s, at + 11),
    }
}

// Whether all three are in their ranges, the length in that of its maximum.
pub fn group_fits<C: ChannelBytes>(s: &[u8], at: usize) -> bool
    requires { at + (11 + C.layout.size) ≤ length s.now }
    ensures { result ≡ group_fits C.layout C.MAX_LENGTH s.now at }
{
    converter_fits(s, at) & length_fits(s, at + 4, C::MAX_LENGTH) & C::fits(s, at + 11)
}
