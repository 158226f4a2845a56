// The clocks of the sound unit: half-clocks, the f64 sample counter, a meter that counts frames in whole numbers, the distance to the next frame,
// the sequencer's position.
#![tactic(auto)]

pub mod distance; // distance.rt: how far the next frame is, in whole numbers
pub mod meter; // meter.rt: the frames of many clock calls, without ticking
pub mod position; // position.rt: the sequencer's position as a number
pub mod sample_counter; // sample_counter.rt: half-clocks of a call, and one working clock of the counter
