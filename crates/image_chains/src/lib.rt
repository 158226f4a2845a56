// Logs played one after another through images, as one statement about the definitions: specs/Chains.antt. This crate has no code of its own.
#![tactic(auto)]
