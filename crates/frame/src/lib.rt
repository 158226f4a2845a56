// From the channels' outputs to the ten numbers of a frame, and into the lent buffers.
#![tactic(auto)]

pub mod buffers; // buffers.rt: two numbers at a place of five buffers
pub mod converter; // converter.rt: a channel's output through its capacitor
pub mod mixing; // mixing.rt: four channels' samples, on two sides, and their sums
pub mod pattern; // pattern.rt: the bits of a sample
