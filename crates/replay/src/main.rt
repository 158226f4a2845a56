// Plays logs whose answers are known, and compares: a line for each family, and the total. Standard input is a row of cases: a head, which `expected` reads,
// the log, and then for kind 1 the output's bytes, for kind 2 a digest of them in eight; kind 0 names the family that follows, in place of a log.
// Kinds 3 and 4 are those of a VGM file in place of a log, which is imported; its log is the output.
// A log that is not refused is played twice: by `play_log`, and on the unit itself, call by call, by `play_plainly`.
// The first family has the answers of `host/make-answers`, from the rules; the others have the original's, by `host/record`.
#![tactic(auto)]

mod compare;
mod expected;
mod imported;
mod plain;
mod tally;

use compare::{digest, fill, untouched};
use expected::{Case, Kind, answer_is};
use imported::import_is;
use log_player::log::play_log;
use log_scan::answer::{LogAnswer, LogRefusal};
use plain::play_plainly;
use std::io::Read;
use tally::Tally;

// The most cases that are read.
const MOST: u32 = 100_000;

// Where a case's log, the bytes that it must make and the output lie.
#[derive(Drop)]
struct Space {
    log: [u8; 65_536],
    want: [u8; 65_536],
    out: [u8; 65_536],
}

// Reads so many bytes to the front of a buffer: they, or nothing where they are not all there.
fn read_part<'a>(input: &mut impl Read, space: &'a mut [u8], length: usize) -> Option<&'a [u8]> {
    let part = space.get_mut(..length)?;
    input.read_exact(part).ok()?;
    Some(part)
}

// Whether the output holds the bytes of the case, by themselves or their digest, and nothing past them was touched.
fn output_is(case: Case, want: &[u8], out: &[u8]) -> bool {
    let Some((made, rest)) = out.split_at_checked(case.written()) else {
        return false;
    };
    let same = if case.digested {
        digest(made).as_flattened() == want
    } else {
        made == want
    };
    same && untouched(rest)
}

// The log played in an output of so many bytes.
fn answer_of(log: &[u8], room: usize, out: &mut [u8]) -> LogAnswer {
    match out.get_mut(..room) {
        Some(out) => play_log(log, out),
        None => Err(LogRefusal::TooLong),
    }
}

// How many bytes the log makes on the unit itself, in an output of so many bytes.
fn plain_length(log: &[u8], room: usize, out: &mut [u8]) -> Option<u64> {
    play_plainly(log, out.get_mut(..room)?)
}

// Whether a log that is not refused makes the bytes of the case on the unit itself too.
fn plainly_same(case: Case, log: &[u8], want: &[u8], out: &mut [u8]) -> bool {
    if case.refused != 0 {
        return true;
    }
    fill(out);
    let made = plain_length(log, case.room, out);
    made == Some(case.number) && output_is(case, want, out)
}

// Plays the log both ways, or imports the file, and compares everything that it answers.
fn replayed(case: Case, log: &[u8], want: &[u8], out: &mut [u8]) -> bool {
    fill(out);
    if case.kind == Kind::Import {
        return import_is(case, log, out) && output_is(case, want, out);
    }
    let answer = answer_of(log, case.room, out);
    answer_is(case, answer) && output_is(case, want, out) && plainly_same(case, log, want, out)
}

// The next case, or a family's name; nothing where the input ends before it does.
fn step(
    rt: &impl Print,
    input: &mut impl Read,
    space: &mut Space,
    tally: &mut Tally,
) -> Option<()> {
    let mut head = [[0; 4]; 6];
    input.read_exact(head.as_flattened_mut()).ok()?;
    let case = Case::from(head);
    let log = read_part(input, &mut space.log, case.length as usize)?;
    if case.kind == Kind::Name {
        tally.next_family(rt, log);
        return Some(());
    }
    let want = read_part(input, &mut space.want, case.bytes_after())?;
    let same = replayed(case, log, want, &mut space.out);
    tally.count(same, case.written() as u64);
    Some(())
}

fn main(rt: HostRuntime) {
    let mut input = rt.reader();
    let mut tally = Tally::default();
    let mut space = Space {
        log: [0; 65_536],
        want: [0; 65_536],
        out: [0; 65_536],
    };
    for _ in 0..MOST {
        if step(&rt, &mut input, &mut space, &mut tally).is_none() {
            tally.end(&rt);
            return;
        }
    }
}
