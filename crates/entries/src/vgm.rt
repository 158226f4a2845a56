// A VGM file as an access log, for a host in C or Rust.
ghost use Rattle.std.specs.Prelude.{◌≡◌, length};
ghost use Rattle.log_vgm.specs.Log.{log_of};
ghost use Rattle.log_vgm.specs.Imports.{imported_of, log_after};
ghost use Rattle.log_vgm.specs.Imports as imports;

use crate::pack::packed;
use log_scan::answer::{refusal, returned};
use log_vgm::import::import_log;
use log_vgm::refusal::ImportRefusal;

// The answer to a file as one number. A place above 48 bits, which no file has, is told as the greatest.
fn pack_import(answer: Result<u64, ImportRefusal>) -> u64
    ensures { result ≡ imports.packed answer }
{
    packed(refusal(answer), returned(answer).min(0xFFFF_FFFF_FFFF))
}

// Writes the log of a VGM file at the front of the lent bytes, or refuses it and writes nothing.
#[unsafe(no_mangle)]
pub extern "C" fn import_vgm(vgm: &[u8], log: &mut [u8]) -> u64
    ensures value { result ≡ imports.packed (imported_of vgm.now (length log.old)) }
    ensures log_after { log.new ≡ log_after (imported_of vgm.now (length log.old)) (log_of vgm.now) log.old }
{
    pack_import(import_log(vgm, log))
}
