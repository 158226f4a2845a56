// The clock call of the sound unit, `clock` of apu.rs: frame, refusal, channels and sequencer. The unit goes in and comes back by value.
#![tactic(auto)]

pub mod clock; // clock.rt: the call, its frame and its refusal
pub mod sequencer; // sequencer.rt: what follows the sample counter in a working clock
