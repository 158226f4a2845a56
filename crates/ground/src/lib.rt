// What every crate of the sound unit stands on: small numbers and timers here, choice and float laws in specs/ and proofs/.
#![tactic(auto)]

pub mod num; // num.rt: small numbers
pub mod timer; // timer.rt: many clocks of a timer at once
