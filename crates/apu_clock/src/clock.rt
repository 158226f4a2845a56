// The clock call: `clock` and `push_output` of apu.rs, over five lent buffers.
ghost use Rattle.std.specs.Prelude.{◌≡◌, ◌≤◌};
ghost use Rattle.ground.specs.Pick.{pick};
ghost use Rattle.frame.specs.Lent.{lent_as, SameBuffers};
ghost use Rattle.apu.specs.Held.{Held, FloatsHeld};
ghost use Rattle.apu_clock.specs.Clocking.{pushed, passed, frame_of, after, worked, clock_of, no_room};
ghost use Rattle.apu_clock.specs.Answers.{refusal_of, returned_of};

use crate::sequencer::finish;
use apu::Apu;
use clocks::sample_counter::{half_clocks, tick};
use frame::buffers::Lent;
use frame::mixing::{Mix, mix_of};

// Refusal 2: the call makes a frame, and in one of the five lent buffers fewer than two numbers lie from the place on.
#[derive(Clone, Copy)]
pub struct NoRoom;

// Whether a clock call made a frame, and the unit after it.
#[derive(Clone, Copy)]
pub struct Clocked {
    pub answer: Result<bool, NoRoom>,
    pub apu: Apu,
}

// The unit after a frame, and the frame's ten numbers.
#[derive(Clone, Copy)]
pub struct Framed {
    pub apu: Apu,
    pub mix: Mix,
}

// A frame: each converter steps once.
fn push_output(unit: Apu) -> Framed
    requires { Held unit }
    ensures { result ≡ pushed unit }
{
    let control = unit.channels_control;
    let selection = unit.channels_selection;
    let p = unit.pulse1.sound(control, selection, 0);
    let q = unit.pulse2.sound(control, selection, 1);
    let w = unit.wave.sound(control, selection);
    let n = unit.noise.sound(control, selection);
    let mix = mix_of(p.sides, q.sides, w.sides, n.sides);
    let mut next = unit;
    next.pulse1 = p.group;
    next.pulse2 = q.group;
    next.wave = w.group;
    next.noise = n.group;
    Framed { apu: next, mix }
}

// What follows the sample counter in a working clock; the counter and the half-clocks are kept.
fn pass(unit: Apu, counter: f64, half: u8, double: bool, divider: u8) -> Apu
    requires held { Held unit }
    requires half_bound { half ≤ 1 }
    ensures { result ≡ passed unit counter half double divider }
{
    let mut next = unit;
    next.sample_counter = counter;
    next.clocks_counter = half;
    finish(next, double, divider)
}

// A working clock that makes a frame: the frame comes first.
fn frame(unit: Apu, counter: f64, half: u8, double: bool, divider: u8) -> Framed
    requires held { Held unit }
    requires half_bound { half ≤ 1 }
    ensures { result ≡ frame_of unit counter half double divider }
{
    let framed = push_output(unit);
    Framed {
        apu: pass(framed.apu, counter, half, double, divider),
        mix: framed.mix,
    }
}

// A working clock, with so many half-clocks left after it.
fn work(unit: Apu, half: u8, double: bool, divider: u8, place: usize, lent: &mut Lent) -> Clocked
    requires held { Held unit }
    requires half_bound { half ≤ 1 }
    ensures value { after result (lent_as lent.new) ≡ worked unit half double divider place (lent_as lent.old) }
    ensures same { SameBuffers lent.old lent.new }
{
    let ticked = tick(unit.sample_counter);
    if ticked.made {
        if lent.have_room(place) {
            let framed = frame(unit, ticked.counter, half, double, divider);
            lent.put_frame(framed.mix, place);
            return Clocked {
                answer: Ok(true),
                apu: framed.apu,
            };
        }
        return Clocked {
            answer: Err(NoRoom),
            apu: unit,
        };
    }
    let apu = pass(unit, ticked.counter, half, double, divider);
    Clocked {
        answer: Ok(false),
        apu,
    }
}

// One clock call, with the divider's byte; a frame goes to `place` and `place` + 1 of each buffer.
pub fn clock(unit: Apu, double: bool, divider: u8, place: usize, lent: &mut Lent) -> Clocked
    requires { Held unit }
    ensures all_after { (after result (lent_as lent.new) ≡ clock_of unit double divider place (lent_as lent.old))
        × (refusal_of result.answer ≡ pick (no_room unit double place (lent_as lent.old)) 2 0)
        × (returned_of result.answer ≡ 0) }
    ensures same { SameBuffers lent.old lent.new }
    ensures held { Held result.apu × (FloatsHeld unit → FloatsHeld result.apu) }
{
    let half = unit.clocks_counter + half_clocks(double);
    if half < 2 {
        let mut next = unit;
        next.clocks_counter = half;
        return Clocked {
            answer: Ok(false),
            apu: next,
        };
    }
    work(unit, half - 2, double, divider, place, lent)
}
