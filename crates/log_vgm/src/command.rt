// Commands of a VGM file.
ghost use Rattle.std.specs.Prelude.{◌≡◌};
ghost use Rattle.log_vgm.specs.Commands.{store_of, long_of, waits_of, short_of, next_at};

// A value for the register so many above FF10, or a wait of so many samples at 44,100 a second.
#[derive(Clone, Copy)]
pub enum Command {
    Store { register: u8, value: u8 },
    Wait { samples: u16 },
}

// A command of a file, and how many bytes come after its first.
#[derive(Clone, Copy)]
pub struct Taken {
    pub command: Command,
    pub more: usize,
}

// What is not taken: another command, one that is cut short, or nothing where an end should be.
#[derive(Clone, Copy)]
pub struct NotTaken;

// B3: registers up to the last byte of the wave's RAM.
fn store_of(register: u8, value: u8) -> Result<Option<Taken>, NotTaken>
    ensures { result ≡ store_of register value }
{
    if register <= 0x2F {
        let command = Command::Store { register, value };
        return Ok(Some(Taken { command, more: 2 }));
    }
    Err(NotTaken)
}

// 61: the samples in two bytes.
fn long_of(low: u8, high: u8) -> Taken
    ensures { result ≡ long_of low high }
{
    let samples = u16::from_le_bytes([low, high]);
    Taken {
        command: Command::Wait { samples },
        more: 2,
    }
}

// A wait that is one byte.
fn waits(samples: u16) -> Taken
    ensures { result ≡ waits_of samples }
{
    Taken {
        command: Command::Wait { samples },
        more: 0,
    }
}

// Commands of one byte: 62 and 63 are a sixtieth and a fiftieth of a second, 70 to 7F are 1 to 16 samples, 66 is the end.
fn short_of(first: u8) -> Result<Option<Taken>, NotTaken>
    ensures { result ≡ short_of first }
{
    match first {
        0x62 => Ok(Some(waits(735))),
        0x63 => Ok(Some(waits(882))),
        0x66 => Ok(None),
        0x70..=0x7F => Ok(Some(waits((first % 16 + 1) as u16))),
        _ => Err(NotTaken),
    }
}

// The command at a place of the file, or none at the end of its commands.
pub fn next_at(vgm: &[u8], at: usize) -> Result<Option<Taken>, NotTaken>
    ensures { result ≡ next_at vgm.now at }
{
    let Some(rest) = vgm.get(at..) else {
        return Err(NotTaken);
    };
    match rest {
        [0xB3, register, value, ..] => store_of(*register, *value),
        [0x61, low, high, ..] => Ok(Some(long_of(*low, *high))),
        [first, ..] => short_of(*first),
        [] => Err(NotTaken),
    }
}
