// Plays access logs on kept units: an image and a log in, the log's output and the image after it out.
#![tactic(auto)]

pub mod answer; // answer.rt: refusals 7 and 8 around those of the log
pub mod make; // make.rt: a fresh unit's image
pub mod play; // play.rt: a log on the unit of an image
