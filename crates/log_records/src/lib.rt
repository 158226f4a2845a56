// The records of an access log: where each one's body begins and ends, and what it says.
#![tactic(auto)]

pub mod cut; // cut.rt: where a record's body begins and ends
pub mod divider; // divider.rt: the divider in each call of a clock record
pub mod judge; // judge.rt: what a body says
