// The bytes of the log that a file becomes.
ghost use Rattle.std.specs.Prelude.{◌≡◌, ◌++◌, ◌+◌, ◌*◌, ◌≤◌, length};
ghost use Rattle.std.proofs.lemmas.List.Edits.{sets};
ghost use Rattle.log_vgm.specs.Commands.{commands_from};
ghost use Rattle.log_vgm.specs.Log.{Low, write_record, clock_record, wholes, record_bytes, written, bytes_by, bytes_on, opening};
ghost use Rattle.log_vgm.specs.declared.command.Command.TheVariants.{Wait};

use crate::clockwork::{Clockwork, Walk, calls_in, walked};
use crate::command::{Command, next_at};

// The bytes before those of the commands: version, start byte and the write that turns the unit on.
pub const OPENING: u32 = 8;

// The bytes of a write's record: its address is FF10 and so many above.
fn write_bytes(register: u8, value: u8) -> [u8; 6]
    requires { register ≤ 0x2F }
    ensures { result ≡ record_bytes (write_record register value) }
{
    [0, 4, 1, 0xFF, 0x10 + register, value]
}

// The bytes of the record of so many calls at normal speed, `calls` being before it.
fn clock_bytes(calls: u32, count: u32) -> [u8; 8]
    requires { count ≤ 16384 }
    ensures { result ≡ record_bytes (clock_record calls count) }
{
    let divider = (calls / 64 % 256) as u8;
    let phase = (calls % 64) as u8;
    let [high, low] = (count as u16).to_be_bytes();
    [0, 6, 3, 0, divider, phase, high, low]
}

// Bytes at the front.
fn put(out: &mut [u8], bytes: &[u8])
    requires { length bytes.now ≤ length out.old }
    ensures { out.new ≡ sets out.old 0 bytes.now }
{
    out[..bytes.len()].copy_from_slice(bytes);
}

// So many records of 16,384 calls. That many bring divider and phase round to where they were, so these are all alike.
fn put_wholes(out: &mut [u8], calls: u32, count: u32)
    requires { count * 8 ≤ length out.old }
    ensures { out.new ≡ sets out.old 0 (written (wholes calls count)) }
{
    let whole = clock_bytes(calls, 16384);
    for i in 0..count as usize {
        put(&mut out[i * 8..], &whole);
    }
}

// The records of a wait, and how many bytes they are.
fn put_wait(out: &mut [u8], clockwork: Clockwork, samples: u16) -> usize
    requires { length (bytes_by clockwork (Wait samples)) ≤ length out.old }
    ensures out_after { out.new ≡ sets out.old 0 (bytes_by clockwork (Wait samples)) }
    ensures value { result ≡ length (bytes_by clockwork (Wait samples)) }
{
    let calls = calls_in(clockwork, samples);
    let count = calls / 16384;
    let rest = calls % 16384;
    let next = count as usize * 8;
    put_wholes(out, clockwork.calls, count);
    if rest == 0 {
        return next;
    }
    put(&mut out[next..], &clock_bytes(clockwork.calls, rest));
    next + 8
}

// The records of a command, and how many bytes they are.
fn put_command(out: &mut [u8], clockwork: Clockwork, command: Command) -> usize
    requires low { Low command }
    requires command_in_bounds { length (bytes_by clockwork command) ≤ length out.old }
    ensures out_after { out.new ≡ sets out.old 0 (bytes_by clockwork command) }
    ensures value { result ≡ length (bytes_by clockwork command) }
{
    match command {
        Command::Store { register, value } => {
            put(out, &write_bytes(register, value));
            6
        }
        Command::Wait { samples } => put_wait(out, clockwork, samples),
    }
}

// Version, start byte, and the write that turns the unit on.
fn put_opening(out: &mut [u8])
    requires { 8 ≤ length out.old }
    ensures { out.new ≡ sets out.old 0 opening }
{
    put(out, &[2, 1]);
    put(&mut out[2..], &write_bytes(0x16, 0x80));
}

// The records of the commands from a walk's place on.
fn put_commands(vgm: &[u8], from: Walk, out: &mut [u8])
    requires { length (bytes_on from.clockwork (commands_from vgm.now from.at)) ≤ length out.old }
    ensures { out.new ≡ sets out.old 0 (bytes_on from.clockwork (commands_from vgm.now from.at)) }
{
    let mut walk = from;
    let mut at = 0;
    while let Ok(Some(taken)) = next_at(vgm, walk.at) {
        at += put_command(&mut out[at..], walk.clockwork, taken.command);
        walk = walked(walk, taken);
    }
}

// The log of the commands from a walk's place on.
pub fn put_log(vgm: &[u8], from: Walk, out: &mut [u8])
    requires { length (opening ++ bytes_on from.clockwork (commands_from vgm.now from.at)) ≤ length out.old }
    ensures { out.new ≡ sets out.old 0 (opening ++ bytes_on from.clockwork (commands_from vgm.now from.at)) }
{
    put_opening(out);
    put_commands(vgm, from, &mut out[OPENING as usize..]);
}
