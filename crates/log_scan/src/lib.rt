// What an access log asks for: the scan that finds what is wrong and counts, and the answers. The sound unit is not needed for any of it.
#![tactic(auto)]

pub mod answer; // answer.rt: refusals 3 to 6, and what a log makes
pub mod refusal; // refusal.rt: what any refusal has, its two numbers
mod scan; // scan.rt: the first wrong record, and the sums
