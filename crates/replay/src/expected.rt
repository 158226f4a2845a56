// A case of the input, by its head of 24 bytes: kind, refusal, the log's length in two bytes, then in four each the number returned, the output's length,
// frames, clock calls and records.
use log_scan::answer::{LogAnswer, Played};
use log_scan::refusal::Refusal;

// What is done with a case's log: it names the family that follows, is played, or is a VGM file to import.
#[derive(Clone, Copy, PartialEq, Eq)]
pub enum Kind {
    Name,
    Play,
    Import,
}

// How to play a log, and what it must be answered.
#[derive(Clone, Copy)]
pub struct Case {
    pub kind: Kind,
    // whether a digest stands for the output's bytes
    pub digested: bool,
    pub refused: u8,
    pub length: u16,
    pub number: u64,
    pub room: usize,
    pub frames: u64,
    pub clocks: u64,
    pub records: u64,
}

// The kinds are 0 for a name, 1 and 2 for a log, and those from 3 on for a VGM file; with an even one comes a digest.
impl From<[[u8; 4]; 6]> for Case {
    fn from(head: [[u8; 4]; 6]) -> Case {
        let [
            [kind, refused, high, low],
            number,
            room,
            frames,
            clocks,
            records,
        ] = head;
        Case {
            kind: match kind {
                0 => Kind::Name,
                1 | 2 => Kind::Play,
                _ => Kind::Import,
            },
            digested: kind % 2 == 0,
            refused,
            length: u16::from_be_bytes([high, low]),
            number: u64::from(u32::from_be_bytes(number)),
            room: u32::from_be_bytes(room) as usize,
            frames: u64::from(u32::from_be_bytes(frames)),
            clocks: u64::from(u32::from_be_bytes(clocks)),
            records: u64::from(u32::from_be_bytes(records)),
        }
    }
}

impl Case {
    // Bytes written: none with a refusal.
    pub fn written(&self) -> usize {
        if self.refused == 0 {
            self.number as usize
        } else {
            0
        }
    }

    // How many bytes follow the log: the output's, or their digest's.
    pub fn bytes_after(&self) -> usize {
        if self.digested { 8 } else { self.written() }
    }
}

// Whether a log that is played has the frames, clock calls and records of the case.
fn counts_are(case: Case, played: Played) -> bool {
    (played.frames == case.frames)
        & (played.clocks == case.clocks)
        & (played.records == case.records)
}

// Whether an answer is the one of the case.
pub fn answer_is(case: Case, answer: LogAnswer) -> bool {
    let refused = case.refused as u64;
    match answer {
        Ok(played) => {
            (refused == 0) & (played.written == case.number) & counts_are(case, played)
        }
        Err(refusal) => (refused == refusal.number()) & (case.number == refusal.returned()),
    }
}
