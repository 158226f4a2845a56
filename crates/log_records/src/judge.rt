// The judge of a record's body: a part of the log, which starts in its middle.
ghost use Rattle.std.specs.Prelude.{◌≡◌, ◌+◌, ◌*◌, ◌<◌, ◌≤◌, length, Ok, Err};
ghost use Rattle.log_records.specs.Judge.{word, clock_length, divider_in, fair_of, clock_of, judge_of, clocks_of};
ghost use Rattle.log_records.specs.Divider.{phase_of};
ghost use Rattle.log_records.specs.Records.{clocks_at};
ghost use Rattle.ground.specs.Pick.{pick};
ghost use Rattle.ground.specs.Num.{is_sound};

use crate::divider::Divider;
use ground::num::is_sound;

// What a record's body says, if it is right.
#[derive(Clone, Copy)]
pub enum Record {
    Write {
        addr: u16,
        value: u8,
    },
    Read {
        addr: u16,
    },
    Clock {
        double: bool,
        divider: Divider,
        count: u16,
    },
    Pcm,
}

// Refusal 5: a body that is none of these.
#[derive(Clone, Copy)]
pub struct WrongRecord;

// The two bytes at i, the high one first.
pub fn word_at(bytes: &[u8], i: usize) -> u16
    requires { i + 1 < length bytes.now }
    ensures { result ≡ word bytes.now i }
{
    u16::from_be_bytes([bytes[i], bytes[i + 1]])
}

// The address that two bytes of a body say, the high one first, where it is the sound unit's.
fn address_of(high: u8, low: u8) -> Result<u16, WrongRecord>
    ensures { result ≡ pick (is_sound (high * 256 + low)) (Ok (high * 256 + low)) (Err (record {})) }
{
    let addr = u16::from_be_bytes([high, low]);
    if is_sound(addr) {
        Ok(addr)
    } else {
        Err(WrongRecord)
    }
}

// The bytes of a clock record's body in a log of a version.
fn clock_length(version: u8) -> usize
    ensures value { result ≡ clock_length version }
    ensures lower_bound { (5 ≤ result) × (result ≤ 6) }
{
    if version == 1 { 5 } else { 6 }
}

// The divider that a clock record's body says: from version 2 on its phase comes after it.
fn divider_in(version: u8, body: &[u8]) -> Divider
    requires { 5 ≤ length body.now }
    ensures { result ≡ divider_in version body.now }
{
    if version == 1 {
        Divider::Standing {
            byte: body[2],
            phase: 0,
        }
    } else {
        Divider::Running {
            byte: body[2],
            phase: body[3],
        }
    }
}

// Whether speed, phase and count are in their ranges.
fn fair(speed: u8, divider: Divider, count: u16) -> bool
    ensures { result ≡ fair_of speed (phase_of divider) count }
{
    let (Divider::Standing { phase, .. } | Divider::Running { phase, .. }) = divider;
    (speed <= 1) & ((phase <= 63) & ((1 <= count) & (count <= 16384)))
}

// Kind 03: speed, divider and count.
fn judge_clock(version: u8, body: &[u8]) -> Result<Record, WrongRecord>
    ensures { result ≡ clock_of version body.now }
{
    let length = clock_length(version);
    if body.len() != length {
        return Err(WrongRecord);
    }
    let speed = body[1];
    let divider = divider_in(version, body);
    let count = word_at(body, length - 2);
    if fair(speed, divider, count) {
        Ok(Record::Clock {
            double: speed == 1,
            divider,
            count,
        })
    } else {
        Err(WrongRecord)
    }
}

// A clock record and the place after it.
#[derive(Clone, Copy)]
pub struct Clocks {
    pub double: bool,
    pub divider: Divider,
    pub count: u16,
    pub end: usize,
}

// What a body of a clock record's length says, where it is one, that ends at a place.
fn clocks_in(version: u8, body: &[u8], end: usize) -> Option<Clocks>
    requires { length body.now ≡ clock_length version }
    ensures { result ≡ clocks_of end (judge_of version body.now) }
{
    let length = clock_length(version);
    let speed = body[1];
    let divider = divider_in(version, body);
    let count = word_at(body, length - 2);
    if (body[0] == 3) & fair(speed, divider, count) {
        return Some(Clocks {
            double: speed == 1,
            divider,
            count,
            end,
        });
    }
    None
}

// The clock record at a place of a log of this version, if one stands there.
fn clocks_of(version: u8, log: &[u8], at: usize) -> Option<Clocks>
    ensures { result ≡ clocks_at version log.now at }
{
    let length = clock_length(version);
    let n = log.len();
    if n < length + 2 {
        return None;
    }
    if n - length - 2 < at {
        return None;
    }
    if word_at(log, at) as usize == length {
        let from = at + 2;
        let to = from + length;
        return clocks_in(version, &log[from..to], to);
    }
    None
}

// The same by the version: each arm is compiled for its own length. (In one for both, records of one call took half as long again.)
pub fn clocks_at(version: u8, log: &[u8], at: usize) -> Option<Clocks>
    ensures { result ≡ clocks_at version log.now at }
{
    if version == 1 {
        clocks_of(1, log, at)
    } else {
        clocks_of(version, log, at)
    }
}

// What a body says in a log of a version, by its kind. (Called, and not compiled into its callers, a scan of writes took half as long again; with the length
// told before the kind, a scan of reads a third.)
#[inline]
pub fn judge(version: u8, body: &[u8]) -> Result<Record, WrongRecord>
    ensures { result ≡ judge_of version body.now }
{
    let [kind, rest @ ..] = body else {
        return Err(WrongRecord);
    };
    match (*kind, rest) {
        (1, [high, low, value]) => {
            let addr = address_of(*high, *low)?;
            Ok(Record::Write {
                addr,
                value: *value,
            })
        }
        (2, [high, low]) => {
            let addr = address_of(*high, *low)?;
            Ok(Record::Read { addr })
        }
        (3, _) => judge_clock(version, body),
        (4, []) => Ok(Record::Pcm),
        _ => Err(WrongRecord),
    }
}
