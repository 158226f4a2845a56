// The laws of a kept unit's image, part by part, there and back: proofs/. This crate has no code of its own.
#![tactic(auto)]
