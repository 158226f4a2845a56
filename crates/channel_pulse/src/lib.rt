// A pulse channel: records taken by value, each method handing back the next one.
#![tactic(auto)]

pub mod pulse_channel; // pulse_channel.rt: duty, timer, envelope and sweep
pub mod sweep; // sweep.rt: the frequency sweep
pub mod phase; // phase.rt: what its clocks move, many clocks at once
