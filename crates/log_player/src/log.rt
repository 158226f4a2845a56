// A whole log: what it is answered on a unit, and played into a lent slice.
ghost use Rattle.std.specs.Prelude.{◌≡◌, length, get_or};
ghost use Rattle.apu.specs.Held.{Held, FloatsHeld};
ghost use Rattle.apu_clock.specs.Demand3.{meter_of};
ghost use Rattle.log_scan.specs.Answers.{refusal_of, returned_of, out_after};
ghost use Rattle.log_player.specs.Logs.{answer_on, refused_on, returned_on, bytes_of_log, answer_of, refused_log, returned_log};

use crate::play::{play_list, start};
use apu::Apu;
use apu_run::calls::Play;
use clocks::distance::units_of;
use clocks::meter::Meter;
use log_records::cut::version_of;
use log_scan::answer::{LogAnswer, scan_from, within};

// The half-clock and the remainder that a unit has stored, from which its frames are counted.
pub fn meter_of(apu: Apu) -> Meter
    requires held { Held apu }
    requires floats_held { FloatsHeld apu }
    ensures { result ≡ meter_of apu }
{
    Meter {
        half: apu.clocks_counter as u64,
        rest: units_of(apu.sample_counter),
    }
}

// What a log is answered on a unit, in an output of so many bytes. Nothing is played.
pub fn answer_on(apu: Apu, log: &[u8], room: usize) -> LogAnswer
    requires held { Held apu }
    requires floats_held { FloatsHeld apu }
    ensures value { result ≡ answer_on apu log.now room }
    ensures result_value { (refusal_of result ≡ refused_on apu log.now room) × (returned_of result ≡ returned_on apu log.now) }
{
    let meter = meter_of(apu);
    let scanned = scan_from(log, meter);
    within(scanned, room)
}

// A log's start byte; 0 where it has none, and is refused.
pub fn start_byte(log: &[u8]) -> u8
    ensures { result ≡ get_or log.now 1 0 }
{
    log.get(1).copied().unwrap_or(0)
}

// Plays a log into the output, or refuses it and writes nothing.
pub fn play_log(log: &[u8], out: &mut [u8]) -> LogAnswer
    ensures value { result ≡ answer_of log.now (length out.old) }
    ensures out_after { out.new ≡ out_after result (bytes_of_log log.now) out.old }
    ensures result_value { (refusal_of result ≡ refused_log log.now (length out.old)) × (returned_of result ≡ returned_log log.now) }
{
    let apu = start(start_byte(log));
    let played = answer_on(apu, log, out.len())?;
    play_list(Play { apu, at: 0 }, version_of(log), log, out);
    Ok(played)
}
