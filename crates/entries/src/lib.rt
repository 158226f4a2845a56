// What a host in C or Rust calls. A static library exports the marked functions of its own crate alone, so they stand together here, above all else.
#![tactic(auto)]

pub mod images; // images.rt: images of kept units, and logs played on them
pub mod log; // log.rt: a whole access log
mod pack; // pack.rt: an answer as one number
pub mod vgm; // vgm.rt: a VGM file as an access log
