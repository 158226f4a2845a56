// The commands of a sequence, five bytes each.

#[derive(Clone, Copy)]
pub enum Command {
    // A new unit, by its start byte.
    Start(u8),
    Write {
        addr: u16,
        value: u8,
    },
    Read {
        addr: u16,
    },
    // So many clock calls.
    Clocks {
        double: bool,
        divider: u8,
        count: u16,
    },
    // Both PCM reads.
    Pcm,
}

// By the first byte: 0 start, 1 write, 2 read, 3 clocks, any other both PCM reads.
impl From<[u8; 5]> for Command {
    fn from([kind, a, b, c, d]: [u8; 5]) -> Command {
        match kind {
            0 => Command::Start(a),
            1 => Command::Write {
                addr: u16::from_be_bytes([a, b]),
                value: c,
            },
            2 => Command::Read {
                addr: u16::from_be_bytes([a, b]),
            },
            3 => Command::Clocks {
                double: a == 1,
                divider: b,
                count: u16::from_be_bytes([c, d]),
            },
            _ => Command::Pcm,
        }
    }
}
