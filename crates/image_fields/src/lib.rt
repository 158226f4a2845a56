// The fields of a kept unit's image: numbers, yes and no, and floats as bytes at a place of lent memory, and back. The sound unit is not needed here.
#![tactic(auto)]

pub mod bytes; // bytes.rt: numbers in one, two, four and eight bytes, the high one first
pub mod codes; // codes.rt: the sequencer's position as a byte, and which wave shift a volume may have
pub mod floats; // floats.rt: capacitors and sample counters by their patterns
