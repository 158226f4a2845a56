// The import program: reads a VGM file from standard input and writes its access log to standard output, and nothing else there; or REFUSED with a refusal's
// number and the number that it returns to standard error. TOO LONG there is a file of more bytes than it takes.
#![tactic(auto)]

ghost use Rattle.std.specs.Prelude.{◌≡◌, length};

use log_scan::refusal::Refusal;
use log_vgm::import::import_log;
use std::io::{self, Cursor, Input, Read};

// The most bytes of a file that it takes. (The library has no such bound.)
const MOST: usize = 1_048_576;

// Room for those, and a byte more. (Its length is said here once: a check that works it out by itself runs out of stack.)
fn room() -> [u8; MOST + 1]
    ensures { 1048577 ≡ length result }
{
    [0; MOST + 1]
}

// Writes the file's log, or why there is none.
fn import(rt: &(impl Print + Eprint), vgm: &[u8]) -> io::Result<()> {
    let mut log = [0; 65_536];
    match import_log(vgm, &mut log) {
        Ok(written) => rt.write_all(&log[..written as usize]),
        Err(refusal) => eprintln!(rt; "REFUSED {} {}", refusal.number(), refusal.returned()),
    }
}

// Reads to the front of the lent bytes, and says how many there are. A read that fails ends the file.
fn read_file(rt: &impl Input, vgm: &mut [u8]) -> usize {
    let most = vgm.len();
    let mut taken = Cursor::new(vgm);
    let _ = io::copy(&mut rt.reader().take(most as u64), &mut taken);
    taken.position() as usize
}

// The file on standard input, and of a longer one a byte more than is taken.
fn main(rt: HostRuntime) {
    let mut vgm = room();
    let end = read_file(&rt, &mut vgm);
    // What can't be written is passed over.
    let _ = match vgm.get(..end) {
        Some(file) if end <= MOST => import(&rt, file),
        _ => eprintln!(rt; "TOO LONG"),
    };
}
