// A whole access log, for a host in C or Rust.
ghost use Rattle.std.specs.Prelude.{◌≡◌, length};
ghost use Rattle.log_scan.specs.Answers.{packed, out_after, counts_after};
ghost use Rattle.log_player.specs.Logs.{bytes_of_log, answer_of};

use crate::pack::pack;
use log_player::log::play_log;
use log_scan::answer::put_counts;

// Plays a log into the output, or refuses it and writes nothing.
#[unsafe(no_mangle)]
pub extern "C" fn play_access_log(log: &[u8], out: &mut [u8]) -> u64
    ensures value { result ≡ packed (answer_of log.now (length out.old)) }
    ensures out_after { out.new ≡ out_after (answer_of log.now (length out.old)) (bytes_of_log log.now) out.old }
{
    pack(play_log(log, out))
}

// The same, with frames, clock calls and records put into `counts`.
#[unsafe(no_mangle)]
pub extern "C" fn play_access_log_counted(log: &[u8], out: &mut [u8], counts: &mut [u64]) -> u64
    ensures value { result ≡ packed (answer_of log.now (length out.old)) }
    ensures out_after { out.new ≡ out_after (answer_of log.now (length out.old)) (bytes_of_log log.now) out.old }
    ensures counts_after { counts.new ≡ counts_after (answer_of log.now (length out.old)) counts.old }
{
    let answer = play_log(log, out);
    put_counts(answer, counts);
    pack(answer)
}
