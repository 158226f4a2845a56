// The scan of a file's commands: the first that is not taken, and the bytes of the log. Nothing is written.
ghost use Rattle.std.specs.Prelude.{◌≡◌, ◌≤◌, ◌<◌, length};
ghost use Rattle.log_vgm.specs.Commands.{commands_from};
ghost use Rattle.log_vgm.specs.Log.{bytes_by, wait_bytes};
ghost use Rattle.log_vgm.specs.Imports.{scanned_on};

use crate::clockwork::{Clockwork, Walk, calls_in, walked};
use crate::command::{Command, next_at};
use crate::refusal::ImportRefusal;

// The bytes of the records of so many calls.
fn wait_bytes(calls: u32) -> u32
    requires { calls < 0x40_0000 }
    ensures { (result ≡ wait_bytes calls) × (result ≤ 2056) }
{
    calls.div_ceil(16384) * 8
}

// The bytes of a command's records.
fn bytes_of(clockwork: Clockwork, command: Command) -> u32
    ensures { (result ≡ length (bytes_by clockwork command)) × (result < 0x1_0000) }
{
    match command {
        Command::Store {
            register: _,
            value: _,
        } => 6,
        Command::Wait { samples } => wait_bytes(calls_in(clockwork, samples)),
    }
}

// Refusal 10, of what is not taken at a place.
fn bad_command(place: usize) -> ImportRefusal
    ensures { result ≡ ImportRefusal.BadCommand place }
{
    ImportRefusal::BadCommand {
        place: place as u64,
    }
}

// The bytes of a log with the commands from a walk's place on, after so many bytes of it: 65,537, one above the most, for more.
pub fn scan(vgm: &[u8], from: Walk, opening: u32) -> Result<u32, ImportRefusal>
    requires { opening ≤ 65537 }
    ensures { result ≡ scanned_on opening from.clockwork (commands_from vgm.now from.at) }
{
    let mut walk = from;
    let mut bytes = opening;
    while let Some(taken) = next_at(vgm, walk.at).map_err(|_| bad_command(walk.at))? {
        bytes = (bytes + bytes_of(walk.clockwork, taken.command)).min(65537);
        walk = walked(walk, taken);
    }
    Ok(bytes)
}
