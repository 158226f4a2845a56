// The clock calls that samples become: 262144/11025 for each, rounded down over all of them.
ghost use Rattle.std.specs.Prelude.{◌≡◌, ◌+◌, ◌^◌, ◌<◌};
ghost use Rattle.log_vgm.specs.Clockwork.{starting_at, parts_in, calls_in, moved_of, walked_of};

use crate::command::{Command, Taken};

// Where an import is: what the samples so far leave of a call, in 11,025ths of one, and the calls so far, of which 16,384 bring divider and phase round.
#[derive(Clone, Copy)]
pub struct Clockwork {
    pub rest: u32,
    pub calls: u32,
}

// That, and the place of the next command: all that going on from there takes.
#[derive(Clone, Copy)]
pub struct Walk {
    pub at: usize,
    pub clockwork: Clockwork,
}

// No samples yet, and the first command to come.
pub fn starting(start: usize) -> Walk
    ensures { result ≡ starting_at start }
{
    let clockwork = Clockwork { rest: 0, calls: 0 };
    Walk {
        at: start,
        clockwork,
    }
}

// 11,025ths of a call.
fn parts_in(clockwork: Clockwork, samples: u16) -> u64
    ensures { (result ≡ parts_in clockwork samples) × (result < 0x8_0000_0000) }
{
    clockwork.rest as u64 + samples as u64 * 262144
}

// The calls of a wait of so many samples.
pub fn calls_in(clockwork: Clockwork, samples: u16) -> u32
    ensures { (result ≡ calls_in clockwork samples) × (result < 0x40_0000) }
{
    (parts_in(clockwork, samples) / 11025) as u32
}

// After a command: only a wait moves it on.
fn moved(clockwork: Clockwork, command: Command) -> Clockwork
    ensures { result ≡ moved_of clockwork command }
{
    match command {
        Command::Store {
            register: _,
            value: _,
        } => clockwork,
        Command::Wait { samples } => {
            let parts = parts_in(clockwork, samples);
            let calls = clockwork.calls % 16384 + calls_in(clockwork, samples);
            Clockwork {
                rest: (parts % 11025) as u32,
                calls: calls % 16384,
            }
        }
    }
}

// After a command.
pub fn walked(walk: Walk, taken: Taken) -> Walk
    requires { walk.at + 1 + taken.more < 2 ^ 64 }
    ensures { result ≡ walked_of walk taken }
{
    Walk {
        at: walk.at + 1 + taken.more,
        clockwork: moved(walk.clockwork, taken.command),
    }
}
