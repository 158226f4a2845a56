// VGM files whose logs are known.
use crate::expected::Case;
use log_scan::answer::{refusal, returned};
use log_vgm::import::import_log;

// Imports the file in an output of as many bytes as the case says: whether the answer is the one of the case.
pub fn import_is(case: Case, vgm: &[u8], out: &mut [u8]) -> bool {
    let Some(log) = out.get_mut(..case.room) else {
        return false;
    };
    let answer = import_log(vgm, log);
    refusal(answer) == case.refused as u64 && returned(answer) == case.number
}
