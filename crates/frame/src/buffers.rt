// The five lent buffers: two numbers at a place of each, and nowhere else.
ghost use Rattle.std.specs.Prelude.{◌≡◌, ◌+◌, ◌≤◌, length};
ghost use Rattle.frame.specs.Buffers.{put, framed, Room, room_in, room_for};
ghost use Rattle.frame.specs.Lent.{lent_as, SameBuffers};

use crate::mixing::{Mix, Sides};

// Whether two numbers lie from `place` on in a buffer of this length.
pub fn has_room(len: usize, place: usize) -> bool
    ensures { result ≡ room_in len place }
{
    if len < 2 {
        return false;
    }
    place <= len - 2
}

// Right at the place and left after it.
pub fn put_sides(buffer: &mut [f32], place: usize, sides: Sides)
    requires { place + 2 ≤ length buffer.old }
    ensures { buffer.new ≡ put buffer.old place sides }
{
    buffer[place] = sides.right;
    buffer[place + 1] = sides.left;
}

// The five buffers that a clock call is lent: one for each channel, and one for their sum.
#[derive(Drop)]
pub struct Lent<'a> {
    pub pulse1: &'a mut [f32],
    pub pulse2: &'a mut [f32],
    pub wave: &'a mut [f32],
    pub noise: &'a mut [f32],
    pub all: &'a mut [f32],
}

impl Lent<'_> {
    // Whether each buffer has room.
    pub fn have_room(&self, place: usize) -> bool
        ensures { result ≡ room_for place (lent_as self.now) }
    {
        let first = has_room(self.pulse1.len(), place);
        let second = has_room(self.pulse2.len(), place);
        let third = has_room(self.wave.len(), place);
        let fourth = has_room(self.noise.len(), place);
        first & (second & (third & (fourth & has_room(self.all.len(), place))))
    }

    // A frame's ten numbers, a pair to each buffer.
    pub fn put_frame(&mut self, mix: Mix, place: usize)
        requires { Room place (lent_as self.old) }
        ensures value { lent_as self.new ≡ framed mix place (lent_as self.old) }
        ensures same { SameBuffers self.old self.new }
    {
        put_sides(self.pulse1, place, mix.pulse1);
        put_sides(self.pulse2, place, mix.pulse2);
        put_sides(self.wave, place, mix.wave);
        put_sides(self.noise, place, mix.noise);
        put_sides(self.all, place, mix.all);
    }
}
