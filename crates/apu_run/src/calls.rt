// The clock calls of a record: unit and place by value, the output into a lent slice. No call is played by itself: working clocks that leave the sequencer
// are only counted, as owed, and played together by one run when the divider's bit falls and at the end.
ghost use Rattle.std.specs.Prelude.{◌≡◌, ◌+◌, ◌-◌, ◌≤◌, ◌/◌, ◌%◌, length};
ghost use Rattle.std.proofs.lemmas.List.Edits.{sets};
ghost use Rattle.apu.specs.Held.{Held, FloatsHeld};
ghost use Rattle.apu_run.specs.Working.{ran_of};
ghost use Rattle.apu_run.specs.Calls.{clocks_bytes, after_clocks, further};
ghost use Rattle.apu_run.specs.Owed.{change_of, same_of, OneBit, met_of, fallen};

use crate::frames::{rest, silent, sound};
use crate::phases::put_back;
use apu::Apu;
use apu_clock::sequencer::{advance, sequencer_bit};
use clocks::sample_counter::half_clocks_of;
use log_records::divider::{Divider, divider_at};

// The unit, and the place of the output's next byte.
#[derive(Clone, Copy)]
pub struct Play {
    pub apu: Apu,
    pub at: usize,
}

// How far bit 4, in double speed bit 5, is from its next change, in calls: `place` is byte × 64 + phase + i.
fn until_change(double: bool, place: u32) -> u32
    ensures { result ≡ change_of double place }
{
    if double {
        2048 - place % 2048
    } else {
        1024 - place % 1024
    }
}

// How many calls from call i on, of `count`, surely see the bit that call i sees. (Numbers of 32 bits, since those of 16 are masked at every use: records of
// one call took a quarter longer with them.)
pub fn same_bit(double: bool, divider: Divider, i: u32, count: u32) -> u32
    requires i_bound { i ≤ 65535 }
    requires le_count { 1 ≤ count }
    ensures value { result ≡ same_of double divider i count }
    ensures lower_bound { (1 ≤ result) × (result ≤ count) }
    ensures one_bit { OneBit double divider i result }
{
    match divider {
        Divider::Standing { .. } => count,
        Divider::Running { byte, phase } => {
            let place = byte as u32 * 64 + phase as u32 + i;
            until_change(double, place).min(count)
        }
    }
}

// How calls that see one divider bit meet the unit: the half-clocks left, the working clocks, and what the first of those does to the stored bit.
// Numbers only, so that the unit stays where it is.
#[derive(Clone, Copy)]
pub struct Met {
    pub half: u8,
    pub working: u32,
    pub fell: bool,
    pub stored: bool,
}

pub fn meet(half: u8, power: bool, stored: bool, double: bool, bit: bool, count: u32) -> Met
    requires half_bound { half ≤ 1 }
    requires count_bound { count ≤ 16384 }
    ensures { result ≡ met_of half power stored double bit count }
{
    let halves = half as u32 + half_clocks_of(double, count);
    let working = halves / 2;
    let seen = power & (working != 0);
    Met {
        half: (halves % 2) as u8,
        working,
        fell: seen & (stored & !bit),
        stored: stored | (seen & bit),
    }
}

// So many working clocks that leave the sequencer as it is.
pub fn settle(p: Play, owed: u32, out: &mut [u8]) -> Play
    requires held { Held p.apu }
    requires floats_held { FloatsHeld p.apu }
    requires owed_bound { owed ≤ 32767 }
    requires apu_in_bounds { p.at + length (ran_of owed p.apu).bytes ≤ length out.old }
    ensures value { result ≡ further p (ran_of owed p.apu).apu (ran_of owed p.apu).bytes }
    ensures out_after { out.new ≡ sets out.old p.at (ran_of owed p.apu).bytes }
    ensures still_held { Held result.apu × FloatsHeld result.apu }
{
    let unit = p.apu;
    let ran = if silent(unit) {
        rest(unit, owed, out, p.at)
    } else {
        sound(unit, owed, out, p.at)
    };
    let apu = put_back(unit, ran.phases, ran.converters, ran.counter);
    Play { apu, at: ran.at }
}

// The same, and the last of them sees the divider's bit fall: the sequencer comes after the channels.
pub fn fall(p: Play, owed: u32, out: &mut [u8]) -> Play
    requires held { Held p.apu }
    requires floats_held { FloatsHeld p.apu }
    requires owed_bound { owed ≤ 32767 }
    requires apu_in_bounds { p.at + length (ran_of owed p.apu).bytes ≤ length out.old }
    ensures value { result ≡ further p (fallen (ran_of owed p.apu).apu) (ran_of owed p.apu).bytes }
    ensures out_after { out.new ≡ sets out.old p.at (ran_of owed p.apu).bytes }
    ensures still_held { Held result.apu × FloatsHeld result.apu }
{
    let q = settle(p, owed, out);
    let mut apu = q.apu;
    apu.divider_sequencer_clock_bit = false;
    let after = advance(apu);
    Play {
        apu: after,
        at: q.at,
    }
}

// Calls `from` up to `to` of a kind 03 record, in stretches that see one divider bit each.
pub fn play_clocks(
    p: Play,
    double: bool,
    divider: Divider,
    from: u16,
    to: u16,
    out: &mut [u8],
) -> Play
    requires held { Held p.apu }
    requires floats_held { FloatsHeld p.apu }
    requires from_bound { to - from ≤ 16384 }
    requires apu_in_bounds { p.at + length (clocks_bytes double divider from (to - from) p.apu) ≤ length out.old }
    ensures value { result ≡ further p (after_clocks double divider from (to - from) p.apu) (clocks_bytes double divider from (to - from) p.apu) }
    ensures out_after { out.new ≡ sets out.old p.at (clocks_bytes double divider from (to - from) p.apu) }
    ensures still_held { Held result.apu × FloatsHeld result.apu }
{
    let mut q = p;
    let mut owed = 0u32;
    let mut i = from;
    while i < to {
        let some = same_bit(double, divider, i as u32, (to - i) as u32);
        let bit = sequencer_bit(double, divider_at(divider, i as u32));
        let met = meet(
            q.apu.clocks_counter,
            q.apu.power,
            q.apu.divider_sequencer_clock_bit,
            double,
            bit,
            some,
        );
        q.apu.clocks_counter = met.half;
        i += some as u16;
        if met.fell {
            q = fall(q, owed + 1, out);
            owed = met.working - 1;
        } else {
            q.apu.divider_sequencer_clock_bit = met.stored;
            owed += met.working;
        }
    }
    settle(q, owed, out)
}
