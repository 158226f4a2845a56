// The scan of a log's records: the first wrong one, and sums over all. Nothing is played and nothing written; what each record has is joined to
// what those before it had.
ghost use Rattle.std.specs.Prelude.{◌≡◌, ◌*◌, ◌≤◌, length, Ok};
ghost use Rattle.clocks.specs.Calls.{half_clocks_of};
ghost use Rattle.log_records.specs.Judge.{judge_of};
ghost use Rattle.log_records.specs.Records.{records_from};
ghost use Rattle.log_scan.specs.Scan.{Fits, added, both, one_record, sums_in, found_in, found_all};

use clocks::sample_counter::half_clocks;
use log_records::cut::{CutShort, cut_at};
use log_records::judge::{Record, WrongRecord, clocks_at, judge};

// Over some records: how many they are, the clock calls that they ask for, the half-clocks of those, and the bytes that reads make.
#[derive(Clone, Copy, Default)]
pub struct Sums {
    pub records: u64,
    pub calls: u64,
    pub halves: u64,
    pub read_bytes: u64,
}

// The place of the first wrong record, if one is wrong, and the sums.
#[derive(Clone, Copy, Default)]
pub struct Found {
    pub wrong: Option<usize>,
    pub sums: Sums,
}

// The sums over two rows of records, one after the other.
fn add(a: Sums, b: Sums) -> Sums
    requires { Fits a b }
    ensures { result ≡ added a b }
{
    Sums {
        records: a.records + b.records,
        calls: a.calls + b.calls,
        halves: a.halves + b.halves,
        read_bytes: a.read_bytes + b.read_bytes,
    }
}

// The sums over one record.
fn one_record(calls: u64, halves: u64, read_bytes: u64) -> Sums
    ensures { result ≡ one_record calls halves read_bytes }
{
    Sums {
        records: 1,
        calls,
        halves,
        read_bytes,
    }
}

// Those over a clock record: so many calls, of one or two half-clocks each.
fn one_clock(double: bool, count: u16) -> Sums
    ensures { result ≡ one_record count (count * half_clocks_of double) 0 }
{
    let calls = count as u64;
    one_record(calls, calls * (half_clocks(double) as u64), 0)
}

// Those over a right record.
fn sums_in(taken: Record) -> Sums
    ensures { result ≡ sums_in (Ok taken) }
{
    match taken {
        Record::Write { .. } => one_record(0, 0, 0),
        Record::Read { .. } => one_record(0, 0, 2),
        Record::Clock { double, count, .. } => one_clock(double, count),
        Record::Pcm => one_record(0, 0, 3),
    }
}

// What some records have and one more after them: its body in a log of a version, its first length byte at the place. (A place is joined only where a record
// is wrong: joined after each one, a scan took longer.)
fn scan_record(found: Found, version: u8, body: &[u8], place: usize) -> Found
    requires { Fits found.sums (sums_in (judge_of version body.now)) }
    ensures { result ≡ both found (found_in place (judge_of version body.now)) }
{
    match judge(version, body) {
        Ok(taken) => Found {
            sums: add(found.sums, sums_in(taken)),
            ..found
        },
        Err(WrongRecord) => Found {
            wrong: found.wrong.or(Some(place)),
            sums: add(found.sums, one_record(0, 0, 0)),
        },
    }
}

// What the records of a log of a version have, which begin after its first two bytes.
pub fn scan_list(version: u8, log: &[u8]) -> Found
    requires { length log.now ≤ 65536 }
    ensures { result ≡ found_all (records_from version log.now 2) }
{
    let mut found = Found::default();
    let mut at: usize = 2;
    loop {
        if let Some(clocks) = clocks_at(version, log, at) {
            found.sums = add(found.sums, one_clock(clocks.double, clocks.count));
            at = clocks.end;
        } else {
            match cut_at(log, at) {
                Ok(None) => {
                    return found;
                }
                Err(CutShort) => {
                    found.wrong = found.wrong.or(Some(at));
                    return found;
                }
                Ok(Some(len)) => {
                    let from = at + 2;
                    let to = from + len;
                    found = scan_record(found, version, &log[from..to], at);
                    at = to;
                }
            }
        }
    }
}
