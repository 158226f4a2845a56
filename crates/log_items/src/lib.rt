// The output of the log player: the bytes of its items.
#![tactic(auto)]

pub mod items; // items.rt: a read, both PCM reads, a frame
