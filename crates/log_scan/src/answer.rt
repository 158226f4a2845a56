// What a log is answered: refusals 3 to 6, or what playing it makes. The bytes, frames and clock calls are counted here, before anything is played.
ghost use Rattle.std.specs.Prelude.{◌≡◌, ◌&&◌, ltb};
ghost use Rattle.std.proofs.Common.{rules};
ghost use Rattle.ground.specs.Pick.{pick};
ghost use Rattle.clocks.specs.Calls.{K};
ghost use Rattle.clocks.specs.Metered.{Held};
ghost use Rattle.log_records.specs.Records.{listed};
ghost use Rattle.log_scan.specs.Scan.{summed};
ghost use Rattle.log_scan.specs.Answers.{bad_start, is_done, refusal_of, returned_of, refused_for, returned_for, counts_after};
ghost use Rattle.log_scan.specs.Answers.{number_of, number_returned, refusal_in, returned_in};
ghost use Rattle.log_scan.specs.Answers.{Small, bytes_by, played_by, scanned_from, within_room};

use crate::refusal::{Refusal, Written};
use crate::scan::{Sums, scan_list};
use clocks::meter::{Meter, frames_from};
use log_items::items::FRAME_BYTES;
use log_records::cut::version_of;

// What playing a log did: the bytes that it wrote, and how many frames, clock calls and records those came from.
#[derive(Clone, Copy)]
pub struct Played {
    pub written: u64,
    pub frames: u64,
    pub clocks: u64,
    pub records: u64,
}

// Why a log was refused.
#[derive(Clone, Copy, Debug, PartialEq, Eq)]
pub enum LogRefusal {
    TooLong,
    BadStart,
    WrongRecord { place: u64 },
    TooShort { needed: u64 },
}

// What playing a log answers.
pub type LogAnswer = Result<Played, LogRefusal>;

// Whether a log's first two bytes are wrong: version 1 or 2, then a start byte from 0 to 3.
fn bad_start(log: &[u8]) -> bool
    ensures { result ≡ bad_start log.now }
{
    if log.len() < 2 {
        return true;
    }
    let version = log[0];
    ((version != 1) & (version != 2)) | (3 < log[1])
}

// What playing good records does: 41 bytes for a frame, and those of reads.
fn counted(meter: Meter, sums: Sums) -> Played
    requires held { Held K meter }
    requires small { Small sums }
    ensures { result ≡ played_by meter sums }
{
    let frames = frames_from(meter, sums.halves);
    Played {
        written: frames * FRAME_BYTES as u64 + sums.read_bytes,
        frames,
        clocks: sums.calls,
        records: sums.records,
    }
}

// What a log is answered where there is room enough: refusals 3, 4 and 5 in that order, or what playing it makes on a unit with that stored half-clock
// and remainder.
pub fn scan_from(log: &[u8], meter: Meter) -> LogAnswer
    requires { Held K meter }
    ensures value { result ≡ scanned_from meter log.now }
    ensures result_value { (refusal_of result ≡ refused_for log.now)
        × (returned_of result ≡ returned_for (bytes_by meter (summed (listed log.now))) log.now) }
{
    let long = 65536 < log.len();
    let bad = bad_start(log);
    if long {
        return Err(LogRefusal::TooLong);
    }
    if bad {
        return Err(LogRefusal::BadStart);
    }
    let found = scan_list(version_of(log), log);
    match found.wrong {
        None => Ok(counted(meter, found.sums)),
        Some(place) => Err(LogRefusal::WrongRecord {
            place: place as u64,
        }),
    }
}

// The same in an output of so many bytes: refusal 6 comes last.
pub fn within(answer: LogAnswer, room: usize) -> LogAnswer
    ensures value { result ≡ within_room room answer }
    ensures result_value { (refusal_of result ≡ pick (is_done answer && ltb room (returned_of answer)) 6 (refusal_of answer))
        × (returned_of result ≡ returned_of answer) }
{
    let played = answer?;
    if (room as u64) < played.written {
        return Err(LogRefusal::TooShort {
            needed: played.written,
        });
    }
    Ok(played)
}

// Whether a log was played, and not refused.
pub fn is_done(answer: LogAnswer) -> bool
    ensures { result ≡ is_done answer }
{
    answer.is_ok()
}

impl Refusal for LogRefusal {
    ghost number_of = { number_of };

    ghost number_returned = { number_returned };

    fn number(self) -> u64 {
        match self {
            LogRefusal::TooLong => 3,
            LogRefusal::BadStart => 4,
            LogRefusal::WrongRecord { .. } => 5,
            LogRefusal::TooShort { .. } => 6,
        }
    }

    fn returned(self) -> u64 {
        match self {
            LogRefusal::TooLong | LogRefusal::BadStart => 0,
            LogRefusal::WrongRecord { place } => place,
            LogRefusal::TooShort { needed } => needed,
        }
    }

    ghost in_table = { Prim.search rules };
}

impl Written for Played {
    ghost bytes_of = { λ p. p.written };

    fn written(self) -> u64 {
        self.written
    }
}

// The refusal's number in the table, 0 for none.
pub fn refusal<T: Copy, E: Refusal>(answer: Result<T, E>) -> u64
    ensures { result ≡ refusal_in E.number_of answer }
{
    match answer {
        Ok(_) => 0,
        Err(refusal) => refusal.number(),
    }
}

// Bytes written, or the number that a refusal returns.
pub fn returned<T: Written, E: Refusal>(answer: Result<T, E>) -> u64
    ensures { result ≡ returned_in T.bytes_of E.number_returned answer }
{
    match answer {
        Ok(done) => done.written(),
        Err(refusal) => refusal.returned(),
    }
}

// Frames, clock calls and records at the front of a lent slice that has room for them; a refusal puts nothing.
pub fn put_counts<E: Copy>(answer: Result<Played, E>, counts: &mut [u64])
    ensures { counts.new ≡ counts_after answer counts.old }
{
    if let Ok(played) = answer {
        if 3 <= counts.len() {
            counts[0] = played.frames;
            counts[1] = played.clocks;
            counts[2] = played.records;
        }
    }
}
