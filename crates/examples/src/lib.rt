// The marked examples of document 01, as one list of facts about the definitions: specs/Marked.antt. This crate has no code of its own.
#![tactic(auto)]
