// Plays access logs on the sound unit: a log's bytes in, the bytes of its reads and frames out.
#![tactic(auto)]

pub mod log; // log.rt: a whole log
pub mod play; // play.rt: records, one after the other
mod body; // body.rt: the record at a place, and the write to one group that it may be
mod reckon; // reckon.rt: what clock records come to, in numbers
