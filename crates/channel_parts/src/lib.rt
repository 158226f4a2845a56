// What several channels are made of: records taken by value, each method handing back the next one.
#![tactic(auto)]

pub mod envelope; // envelope.rt: a volume that steps up or down
pub mod length; // length.rt: the counter that turns a channel off
