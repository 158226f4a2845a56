// The groups of the sound unit: a channel with its length record and its converter, `Dac<LengthCountedChannel<C>>` of channel.rs,
// and what apu.rs does to one group alone: its five registers, its clocks, its part in a frame.
#![tactic(auto)]

pub mod bits; // bits.rt: register bits that several groups share
pub mod group; // group.rt: what is alike for any channel
pub mod noise_group; // noise_group.rt: FF1F to FF23
pub mod pulse_group; // pulse_group.rt: FF10 to FF14, FF15 to FF19
pub mod wave_group; // wave_group.rt: FF1A to FF1E, and wave RAM
