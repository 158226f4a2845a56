// A fresh unit's image, by a log's start byte.
ghost use Rattle.std.specs.Prelude.{◌≡◌, length};
ghost use Rattle.std.proofs.Common.{rules};
ghost use Rattle.image_player.specs.Making.{made_of, made_in, number_of_made, number_returned_of_made};
ghost use Rattle.image_player.specs.declared.make.MakeRefusal.TheVariants as refused;

use image::keep::{TooShort, write_image};
use image::layout::IMAGE_BYTES;
use log_player::play::start;
use log_scan::refusal::Refusal;

// Why making one was refused: 4 for a start byte above 3, or 8 with the bytes needed, tried in that order.
#[derive(Clone, Copy, Debug, PartialEq, Eq)]
pub enum MakeRefusal {
    BadStart,
    TooShort { needed: u64 },
}

impl From<TooShort> for MakeRefusal {
    ghost from_gives = { λ short r. r ≡ refused.TooShort short.needed };

    fn from(short: TooShort) -> MakeRefusal {
        MakeRefusal::TooShort {
            needed: short.needed as u64,
        }
    }
}

impl Refusal for MakeRefusal {
    ghost number_of = { number_of_made };

    ghost number_returned = { number_returned_of_made };

    fn number(self) -> u64 {
        match self {
            MakeRefusal::BadStart => 4,
            MakeRefusal::TooShort { .. } => 8,
        }
    }

    fn returned(self) -> u64 {
        match self {
            MakeRefusal::BadStart => 0,
            MakeRefusal::TooShort { needed } => needed,
        }
    }

    ghost in_table = { Prim.search rules };
}

// Writes a fresh unit's image to the front of the output and answers the bytes written, or refuses it and writes nothing.
pub fn fresh_image(byte: u8, out: &mut [u8]) -> Result<u64, MakeRefusal>
    ensures value { result ≡ made_of byte (length out.old) }
    ensures out_after { out.new ≡ made_in byte out.old }
{
    if 3 < byte {
        return Err(MakeRefusal::BadStart);
    }
    write_image(start(byte), out)?;
    Ok(IMAGE_BYTES as u64)
}
