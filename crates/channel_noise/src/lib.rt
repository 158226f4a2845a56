// The noise channel: a record taken by value, each method handing back the next one.
#![tactic(auto)]

pub mod feedback; // feedback.rt: the 15-bit register, many steps at once
pub mod noise_channel; // noise_channel.rt: divisor, timer, register and envelope
pub mod reloads; // reloads.rt: what the timer reloads to, as a list
pub mod phase; // phase.rt: what its clocks move, many clocks at once
