// Plays sequences of calls on the unit itself and prints what it answers: reads, PCM reads and the patterns of samples. What it prints was
// compared with the Rust's answers to the same sequences (docs/EVIDENCE.md). Commands come from standard input, five bytes each.
#![tactic(auto)]

mod command;
mod text;

ghost use Rattle.apu.specs.Held.{Held};

use apu::Apu;
use apu::registers::WrongAddress;
use apu_clock::clock::{NoRoom, clock};
use command::Command;
use frame::buffers::Lent;
use std::io::{self, Cursor, Input, Read};
use text::{Frame, print_line};

// The most bytes of commands that are read.
const MOST: usize = 65_536;

// One clock call, whose frame is printed where it makes one.
fn show_clock(rt: &impl Print, unit: Apu, double: bool, divider: u8) -> Apu
    requires { Held unit }
    ensures { Held result }
{
    let mut frame = Frame::SILENT;
    let clocked = clock(
        unit,
        double,
        divider,
        0,
        &mut Lent {
            pulse1: &mut frame.pulse1,
            pulse2: &mut frame.pulse2,
            wave: &mut frame.wave,
            noise: &mut frame.noise,
            all: &mut frame.all,
        },
    );
    match clocked.answer {
        Ok(true) => print_line(rt, frame),
        Ok(false) => {}
        Err(NoRoom) => print_line(rt, "X"),
    }
    clocked.apu
}

// So many clock calls with one divider.
fn show_clocks(rt: &impl Print, unit: Apu, double: bool, divider: u8, count: u16) -> Apu
    requires { Held unit }
    ensures { Held result }
{
    let mut next = unit;
    for _ in 0..count {
        next = show_clock(rt, next, double, divider);
    }
    next
}

// A new unit, by bit 0 DMG and by bit 1 past its boot program.
fn show_start(rt: &impl Print, start: u8) -> Apu
    ensures { Held result }
{
    print_line(rt, format_args!("U {start:02X}"));
    let dmg = start % 2 == 1;
    if start / 2 % 2 == 1 {
        Apu::new_skip_boot_rom(dmg)
    } else {
        Apu::new(dmg)
    }
}

fn show_write(rt: &impl Print, unit: Apu, addr: u16, value: u8) -> Apu
    requires { Held unit }
    ensures { Held result }
{
    let written = unit.write_register(addr, value);
    if let Err(WrongAddress) = written.answer {
        print_line(rt, "X");
    }
    written.apu
}

fn show_read(rt: &impl Print, unit: Apu, addr: u16) {
    match unit.read_register(addr) {
        Ok(byte) => print_line(rt, format_args!("R {addr:04X} {byte:02X}")),
        Err(WrongAddress) => print_line(rt, "X"),
    }
}

fn show_pcm(rt: &impl Print, unit: Apu)
    requires { Held unit }
{
    let pcm12 = unit.read_pcm12();
    let pcm34 = unit.read_pcm34();
    print_line(rt, format_args!("P {pcm12:02X} {pcm34:02X}"));
}

// One command, and the unit after it.
fn show(rt: &impl Print, unit: Apu, command: Command) -> Apu
    requires { Held unit }
    ensures { Held result }
{
    match command {
        Command::Start(start) => show_start(rt, start),
        Command::Write { addr, value } => show_write(rt, unit, addr, value),
        Command::Read { addr } => {
            show_read(rt, unit, addr);
            unit
        }
        Command::Clocks {
            double,
            divider,
            count,
        } => show_clocks(rt, unit, double, divider, count),
        Command::Pcm => {
            show_pcm(rt, unit);
            unit
        }
    }
}

// All commands are read before the first is played, so that a caller may write them all and then read. One that is cut short, or a read that fails,
// ends them.
fn main(rt: HostRuntime) {
    let mut bytes = [0; MOST];
    let mut taken = Cursor::new(&mut bytes[..]);
    let _ = io::copy(&mut rt.reader().take(MOST as u64), &mut taken);
    let end = (taken.position() as usize).min(MOST);
    let (commands, _) = bytes[..end].as_chunks();
    let mut unit = Apu::new(true);
    for command in commands {
        unit = show(&rt, unit, Command::from(*command));
    }
}
