// A unit kept as bytes and taken up later: images of version 1.
#![tactic(auto)]

pub mod keep; // keep.rt: an image written into lent bytes, and a unit taken from one
pub mod layout; // layout.rt: where each part begins
mod tail; // tail.rt: the unit's own fields, after its channels
mod unit; // unit.rt: all of a unit
