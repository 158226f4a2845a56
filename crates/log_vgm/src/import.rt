// What the import of a file is answered: refusals 9, 10, 11 and 6 in that order, or its log.
ghost use Rattle.std.specs.Prelude.{◌≡◌, length};
ghost use Rattle.log_vgm.specs.Log.{log_of};
ghost use Rattle.log_vgm.specs.Imports.{fitted, imported_of, log_after};

use crate::clockwork::starting;
use crate::header::{bad_header, start_of};
use crate::refusal::ImportRefusal;
use crate::scan::scan;
use crate::write::{OPENING, put_log};

// Refusals 11 and 6, of a log of so many bytes: 65,536 are the most.
fn fit(room: usize, bytes: u32) -> Result<u64, ImportRefusal>
    ensures { result ≡ fitted room bytes }
{
    if 65536 < bytes {
        return Err(ImportRefusal::TooLong);
    }
    let needed = bytes as u64;
    if (room as u64) < needed {
        return Err(ImportRefusal::TooShort { needed });
    }
    Ok(needed)
}

// The bytes of a file's log, or why the file is refused, in an output of so many bytes. Nothing is written.
pub fn answer(vgm: &[u8], room: usize) -> Result<u64, ImportRefusal>
    ensures { result ≡ imported_of vgm.now room }
{
    if bad_header(vgm) {
        return Err(ImportRefusal::BadHeader);
    }
    let bytes = scan(vgm, starting(start_of(vgm)), OPENING)?;
    fit(room, bytes)
}

// Writes a file's log at the front of the lent bytes, or refuses it and writes nothing.
pub fn import_log(vgm: &[u8], log: &mut [u8]) -> Result<u64, ImportRefusal>
    ensures value { result ≡ imported_of vgm.now (length log.old) }
    ensures log_after { log.new ≡ log_after result (log_of vgm.now) log.old }
{
    let written = answer(vgm, log.len())?;
    put_log(vgm, starting(start_of(vgm)), log);
    Ok(written)
}
