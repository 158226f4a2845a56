// Many clock calls at once: calls are reckoned in numbers and their working clocks owed; a run plays what is owed from frame to frame, between which each
// channel goes its clocks at once.
#![tactic(auto)]

pub mod phases; // phases.rt: what the clocks move, taken out of the unit and put back
pub mod frames; // frames.rt: from frame to frame
mod frame_settings; // frame_settings.rt: what the settings give to every frame of a run
mod levels; // levels.rt: what goes into the converters, and for how long it stays
mod frame_step; // frame_step.rt: a frame from those
pub mod calls; // calls.rt: the calls of a record, with the bytes of their frames
