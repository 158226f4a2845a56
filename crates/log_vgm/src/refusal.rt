// Why a file is refused: refusals 9, 10, 11 and 6.
ghost use Rattle.std.proofs.Common.{rules};
ghost use Rattle.log_vgm.specs.Imports.{number_of, number_returned};

use log_scan::refusal::Refusal;

// A place is that of the first command that is not taken; needed are the bytes of the log.
#[derive(Clone, Copy, Debug, PartialEq, Eq)]
pub enum ImportRefusal {
    BadHeader,
    BadCommand { place: u64 },
    TooLong,
    TooShort { needed: u64 },
}

impl Refusal for ImportRefusal {
    ghost number_of = { number_of };

    ghost number_returned = { number_returned };

    fn number(self) -> u64 {
        match self {
            ImportRefusal::BadHeader => 9,
            ImportRefusal::BadCommand { .. } => 10,
            ImportRefusal::TooLong => 11,
            ImportRefusal::TooShort { .. } => 6,
        }
    }

    fn returned(self) -> u64 {
        match self {
            ImportRefusal::BadHeader | ImportRefusal::TooLong => 0,
            ImportRefusal::BadCommand { place } => place,
            ImportRefusal::TooShort { needed } => needed,
        }
    }

    ghost in_table = { Prim.search rules };
}
