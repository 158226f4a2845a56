// What playing on a kept unit answers: refusal 7, the log's own refusals, or refusal 8, tried in that order.
ghost use Rattle.std.specs.Prelude.{◌≡◌};
ghost use Rattle.std.proofs.Common.{rules};
ghost use Rattle.image_player.specs.Answers.{number_of, number_returned};
ghost use Rattle.image_player.specs.declared.answer.ImageRefusal.TheVariants as refused;

use image::keep::WrongImage;
use log_scan::answer::{LogRefusal, Played};
use log_scan::refusal::Refusal;

// Why a log on a kept unit was refused.
#[derive(Clone, Copy, Debug, PartialEq, Eq)]
pub enum ImageRefusal {
    WrongImage,
    Log(LogRefusal),
    NoRoomForImage { needed: u64 },
}

// What playing one answers.
pub type ImageAnswer = Result<Played, ImageRefusal>;

impl From<WrongImage> for ImageRefusal {
    ghost from_gives = { λ _ r. r ≡ refused.WrongImage };

    fn from(_wrong: WrongImage) -> ImageRefusal {
        ImageRefusal::WrongImage
    }
}

impl From<LogRefusal> for ImageRefusal {
    ghost from_gives = { λ log r. r ≡ refused.Log log };

    fn from(log: LogRefusal) -> ImageRefusal {
        ImageRefusal::Log(log)
    }
}

impl Refusal for ImageRefusal {
    ghost number_of = { number_of };

    ghost number_returned = { number_returned };

    fn number(self) -> u64 {
        match self {
            ImageRefusal::WrongImage => 7,
            ImageRefusal::Log(refusal) => refusal.number(),
            ImageRefusal::NoRoomForImage { .. } => 8,
        }
    }

    fn returned(self) -> u64 {
        match self {
            ImageRefusal::WrongImage => 0,
            ImageRefusal::Log(refusal) => refusal.returned(),
            ImageRefusal::NoRoomForImage { needed } => needed,
        }
    }

    ghost in_table = { Prim.search rules };
}
