// The bytes that playing makes: of a read, of both PCM reads, of a frame.
ghost use Rattle.std.specs.Prelude.{◌≡◌, ◌+◌, ◌-◌, ◌≤◌, length, replicate};
ghost use Rattle.std.proofs.lemmas.List.Edits.{sets};
ghost use Rattle.frame.specs.Held.{Numbers};
ghost use Rattle.log_items.specs.Items.{be32, sides_bytes, read_item, pcm_item, mix_item, frame_length, Known, silence};

use frame::mixing::{Mix, Sides};

// The letters that begin the items: R, P and F.
pub const READ: u8 = 0x52;

pub const PCM: u8 = 0x50;

pub const FRAME: u8 = 0x46;

// How many bytes a frame's item has.
pub const FRAME_BYTES: usize = 41;

// A number of four bytes, the high one first: of the turned number, the low one. (Stored low byte first it is a single store, and the compiler stores four such
// numbers at once; the number itself, stored high byte first, it would take apart byte by byte.)
fn put_word(out: &mut [u8], at: usize, word: u32)
    requires { at + 4 ≤ length out.old }
    ensures { out.new ≡ sets out.old at (be32 word) }
{
    let turned = word.swap_bytes();
    out[at] = (turned % 256) as u8;
    out[at + 1] = (turned / 0x100 % 256) as u8;
    out[at + 2] = (turned / 0x1_0000 % 256) as u8;
    out[at + 3] = (turned / 0x100_0000) as u8;
}

// A read: hex 52 and the byte.
pub fn put_read(out: &mut [u8], at: usize, byte: u8)
    requires { at + 2 ≤ length out.old }
    ensures { out.new ≡ sets out.old at (read_item byte) }
{
    out[at] = READ;
    out[at + 1] = byte;
}

// Both PCM reads: hex 50 and two bytes.
pub fn put_pcm(out: &mut [u8], at: usize, pcm12: u8, pcm34: u8)
    requires { at + 3 ≤ length out.old }
    ensures { out.new ≡ sets out.old at (pcm_item pcm12 pcm34) }
{
    out[at] = PCM;
    out[at + 1] = pcm12;
    out[at + 2] = pcm34;
}

// A channel's two numbers, right then left. None is a NaN, so each one's pattern is its bits.
fn put_numbers(out: &mut [u8], at: usize, sides: Sides)
    requires at_in_bounds { at + 8 ≤ length out.old }
    requires numbers { Numbers sides }
    ensures { out.new ≡ sets out.old at (sides_bytes sides) }
{
    put_word(out, at, f32::to_bits(sides.right));
    put_word(out, at + 4, f32::to_bits(sides.left));
}

// A frame: hex 46 and the patterns of its ten numbers.
pub fn put_mix(out: &mut [u8], at: usize, mix: Mix)
    requires frame_length_in_bounds { at + frame_length ≤ length out.old }
    requires known { Known mix }
    ensures { out.new ≡ sets out.old at (mix_item mix) }
{
    out[at] = FRAME;
    put_numbers(out, at + 1, mix.pulse1);
    put_numbers(out, at + 9, mix.pulse2);
    put_numbers(out, at + 17, mix.wave);
    put_numbers(out, at + 25, mix.noise);
    put_numbers(out, at + 33, mix.all);
}

// Zeros from a place up to another.
fn put_zeros(out: &mut [u8], from: usize, to: usize)
    requires { (from ≤ to) × (to ≤ length out.old) }
    ensures { out.new ≡ sets out.old from (replicate (to - from) 0) }
{
    out[from..to].fill(0);
}

// A frame of which every number is 0.
pub fn put_silence(out: &mut [u8], at: usize)
    requires { at + frame_length ≤ length out.old }
    ensures { out.new ≡ sets out.old at (mix_item silence) }
{
    out[at] = FRAME;
    put_zeros(out, at + 1, at + FRAME_BYTES);
}
