// The parts of a kept unit's image, each from a place of its own on: written, read, and whether what stands there is in its ranges. The files are the
// original's, the order of the fields is that of its structures.
#![tactic(auto)]

pub mod converter; // converter.rt: a capacitor
pub mod envelope; // envelope.rt: a volume envelope
pub mod group; // group.rt: converter, length and channel, for any channel
pub mod length; // length.rt: a length record
pub mod noise; // noise.rt: the noise channel
pub mod pulse; // pulse.rt: a pulse channel
pub mod sweep; // sweep.rt: a frequency sweep
pub mod wave; // wave.rt: wave RAM and the wave channel
