// Where each part of an image begins. The parts follow each other, so a wider one moves the bases after it and nothing else.
pub const VERSION: u8 = 1;

// The bytes after version and length, and all of them.
pub const REST: u16 = 161;

pub const IMAGE_BYTES: usize = 164;

pub const PULSE1: usize = 3;

pub const PULSE2: usize = 44;

pub const WAVE: usize = 85;

// The model byte of the wave channel, which is the unit's too.
pub const WAVE_MODEL: usize = 122;

pub const NOISE: usize = 123;

// FF24 and what follows it.
pub const TAIL: usize = 149;

// The model byte of the unit, from there.
pub const MODEL: usize = 14;
