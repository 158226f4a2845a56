// A log played on the unit itself: each clock call by itself, as the rules state it, with the divider that this call sees.
ghost use Rattle.std.specs.Prelude.{IfSome};
ghost use Rattle.apu.specs.Held.{Held};

use apu::Apu;
use apu_clock::clock::clock;
use frame::buffers::Lent;
use frame::pattern::pattern;
use log_items::items::{FRAME, PCM, READ};
use log_player::log::start_byte;
use log_player::play::start;
use log_records::cut::{cut_at, version_of};
use log_records::divider::{Divider, divider_at};
use log_records::judge::{Record, judge};
use std::io::{self, Cursor, Write};

// A frame: its letter, and of each two numbers the patterns, the high byte first, of the right one, then of the left.
fn write_frame(out: &mut impl Write, numbers: [[f32; 2]; 5]) -> io::Result<()> {
    out.write_all(&[FRAME])?;
    for [right, left] in numbers {
        out.write_all(&pattern(right).to_be_bytes())?;
        out.write_all(&pattern(left).to_be_bytes())?;
    }
    Ok(())
}

// In what follows there is nothing where the output has no room, and for anything that a log which is not refused never asks for.

// One clock call, and the frame that it makes.
fn play_call(unit: Apu, double: bool, divider: u8, out: &mut impl Write) -> Option<Apu>
    requires { Held unit }
    ensures { IfSome result (λ next. Held next) }
{
    let mut pulse1 = [0.0f32; 2];
    let mut pulse2 = [0.0f32; 2];
    let mut wave = [0.0f32; 2];
    let mut noise = [0.0f32; 2];
    let mut all = [0.0f32; 2];
    let clocked = clock(
        unit,
        double,
        divider,
        0,
        &mut Lent {
            pulse1: &mut pulse1,
            pulse2: &mut pulse2,
            wave: &mut wave,
            noise: &mut noise,
            all: &mut all,
        },
    );
    if clocked.answer.ok()? {
        write_frame(out, [pulse1, pulse2, wave, noise, all]).ok()?;
    }
    Some(clocked.apu)
}

// The calls of a clock record.
fn play_calls(
    unit: Apu,
    double: bool,
    divider: Divider,
    count: u16,
    out: &mut impl Write,
) -> Option<Apu>
    requires { Held unit }
    ensures { IfSome result (λ next. Held next) }
{
    let mut next = unit;
    for i in 0..count {
        next = play_call(next, double, divider_at(divider, i as u32), out)?;
    }
    Some(next)
}

// A record's body, in a log of a version.
fn play_record(unit: Apu, version: u8, body: &[u8], out: &mut impl Write) -> Option<Apu>
    requires { Held unit }
    ensures { IfSome result (λ next. Held next) }
{
    match judge(version, body).ok()? {
        Record::Write { addr, value } => {
            let written = unit.write_register(addr, value);
            Some(written.apu)
        }
        Record::Read { addr } => {
            let byte = unit.read_register(addr).ok()?;
            out.write_all(&[READ, byte]).ok()?;
            Some(unit)
        }
        Record::Clock {
            double,
            divider,
            count,
        } => play_calls(unit, double, divider, count, out),
        Record::Pcm => {
            let pcm = [PCM, unit.read_pcm12(), unit.read_pcm34()];
            out.write_all(&pcm).ok()?;
            Some(unit)
        }
    }
}

// The records of a log of a version, which begin after its first two bytes.
#[tactic(auto, using(log_records::proofs::Framing::body_fits))]
fn play_records(unit: Apu, version: u8, log: &[u8], out: &mut impl Write) -> Option<()>
    requires { Held unit }
{
    let mut next = unit;
    let mut at: usize = 2;
    while let Some(len) = cut_at(log, at).ok()? {
        let from = at + 2;
        let to = from + len;
        next = play_record(next, version, &log[from..to], out)?;
        at = to;
    }
    Some(())
}

// Plays a log that is not refused, and hands back how many bytes it makes.
pub fn play_plainly(log: &[u8], out: &mut [u8]) -> Option<u64> {
    let mut made = Cursor::new(out);
    play_records(start(start_byte(log)), version_of(log), log, &mut made)?;
    Some(made.position())
}
