// What clock records come to, in numbers: how many working clocks the unit owes, over as many records as follow each other. Only `waits` looks
// at the unit itself.
ghost use Rattle.std.specs.Prelude.{◌≡◌, ◌≤◌};
ghost use Rattle.apu.specs.Held.{Held};
ghost use Rattle.log_player.specs.Coming.{begins_at, Between, Reckons, Idle, waits_of};

use apu::Apu;
use apu_clock::sequencer::{idles, sequencer_bit};
use apu_run::calls::{meet, same_bit};
use log_records::divider::divider_at;
use log_records::judge::clocks_at;

// Where a player stands in a log, and what it owes there: `owed` working clocks, then the sequencer's step if the divider's bit `fell`, then `more` of them.
#[derive(Clone, Copy)]
pub struct Reckoned {
    pub at: usize, // the place of the next record
    pub call: u32, // the calls of it that are past
    pub owed: u32,
    pub more: u32,
    pub half: u8, // the half-clocks and the stored bit at that place
    pub stored: bool,
    pub fell: bool,
}

// A player that owes nothing.
pub fn begin(at: usize) -> Reckoned
    ensures { result ≡ begins_at at }
{
    Reckoned {
        at,
        call: 0,
        owed: 0,
        more: 0,
        half: 0,
        stored: false,
        fell: false,
    }
}

// Clock records of a log of a version from a place on, up to another record, a fall, or 16,384 working clocks owed.
pub fn reckon(
    version: u8,
    log: &[u8],
    from: Reckoned,
    power: bool,
    half: u8,
    stored: bool,
) -> Reckoned
    requires between { Between version log.now from.at from.call }
    requires more_bound { from.more ≤ 16383 }
    requires half_bound { half ≤ 1 }
    ensures reckons { Reckons version log.now from.at from.call from.more power half stored result }
    ensures idle { result.owed ≡ 0 → Idle result }
{
    let mut r = from;
    r.owed = from.more;
    r.more = 0;
    r.half = half;
    r.stored = stored;
    r.fell = false;
    loop {
        let Some(clocks) = clocks_at(version, log, r.at) else {
            return r;
        };
        let count = clocks.count as u32;
        let some = same_bit(clocks.double, clocks.divider, r.call, count - r.call);
        let bit = sequencer_bit(clocks.double, divider_at(clocks.divider, r.call));
        let met = meet(r.half, power, r.stored, clocks.double, bit, some);
        r.half = met.half;
        r.call += some;
        if r.call == count {
            r.call = 0;
            r.at = clocks.end;
        }
        if met.fell {
            r.owed += 1;
            r.more = met.working - 1;
            r.stored = false;
            r.fell = true;
            return r;
        }
        r.owed += met.working;
        r.stored = met.stored;
        if 16383 < r.owed {
            return r;
        }
    }
}

// Whether what is owed may wait: the bit fell, but that step moves the sequencer's position alone, and not too much is owed. No run reads the position, so
// the step may come first and all of it be owed after that.
pub fn waits(r: Reckoned, unit: Apu) -> bool
    requires owed_bound { r.owed ≤ 32767 }
    requires more_bound { r.more ≤ 16383 }
    requires held { Held unit }
    ensures { result ≡ waits_of r unit }
{
    r.fell & (r.owed + r.more <= 16383) & idles(unit)
}
