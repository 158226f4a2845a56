// The wave channel: a record taken by value, each method handing back the next one.
#![tactic(auto)]

pub mod phase; // phase.rt: what its clocks move, many clocks at once
pub mod wave_channel; // wave_channel.rt: 32 nibbles, and the DMG's ways with them
