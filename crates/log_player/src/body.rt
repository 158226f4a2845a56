// The record at a place of a log: where its body ends, and the write to one group that it may be.
ghost use Rattle.std.specs.Prelude.{◌≡◌};
ghost use Rattle.log_records.specs.Records.{cut_at};
ghost use Rattle.log_player.specs.Bodies.{part_of, group_at, group_write_in};

use log_records::cut::{CutShort, cut_at};
use log_records::judge::word_at;

// The place after the record at a place, if a whole one is there.
pub fn part_at(log: &[u8], at: usize) -> Option<usize>
    ensures { result ≡ part_of at (cut_at log.now at) }
{
    match cut_at(log, at) {
        Ok(Some(len)) => Some(at + 2 + len),
        Ok(None) | Err(CutShort) => None,
    }
}

// A group of registers: one channel's.
#[derive(Clone, Copy)]
pub enum Group {
    Pulse1,
    Pulse2,
    Wave,
    Noise,
}

// A write to a register of one group, by its place in the group.
#[derive(Clone, Copy)]
pub struct GroupWrite {
    pub group: Group,
    pub offset: u16,
    pub value: u8,
}

// A write of an address. The sweep register, FF10, and what comes after the groups are left to `write_register`.
fn group_at(addr: u16, value: u8) -> Option<GroupWrite>
    ensures { result ≡ group_at addr value }
{
    let (group, base) = match addr {
        0xFF11..=0xFF14 => (Group::Pulse1, 0xFF10),
        0xFF15..=0xFF19 => (Group::Pulse2, 0xFF15),
        0xFF1A..=0xFF1E => (Group::Wave, 0xFF1A),
        0xFF1F..=0xFF23 => (Group::Noise, 0xFF1F),
        _ => return None,
    };
    Some(GroupWrite {
        group,
        offset: addr - base,
        value,
    })
}

// The write to one group that a body is, with power on. In every version a write's body has four bytes, the first of them 01; what is no right address is no
// group's. (By `judge`, a write and 16 calls took 3 % longer.)
pub fn group_write(body: &[u8], power: bool) -> Option<GroupWrite>
    ensures { result ≡ group_write_in body.now power }
{
    if body.len() != 4 {
        return None;
    }
    if power & (body[0] == 1) {
        return group_at(word_at(body, 1), body[3]);
    }
    None
}
