// A VGM file as an access log of version 2: its header, its commands, the records that they become, and the log's bytes.
#![tactic(auto)]

mod clockwork; // clockwork.rt: the clock calls that samples become
mod command; // command.rt: the command at a place
mod header; // header.rt: whether the header is taken, and where the commands start
pub mod import; // import.rt: refusals 9, 10, 11 and 6, and the log
pub mod refusal; // refusal.rt: why a file is refused
mod scan; // scan.rt: the first command that is not taken, and the log's length
mod write; // write.rt: the log's bytes
