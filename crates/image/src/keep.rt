// An image written into lent bytes, and a unit taken from one.
ghost use Rattle.std.specs.Prelude.{◌≡◌, false, length};
ghost use Rattle.apu.specs.Held.{Held};
ghost use Rattle.image.specs.Answers.{saved_of, saved_in, fresh_dmg, taken_if, taken_of};

use crate::layout::IMAGE_BYTES;
use crate::unit::{put_unit, read_unit, unit_fits};
use apu::Apu;

// Refusal 8: the place for an image has fewer bytes than needed.
#[derive(Clone, Copy)]
pub struct TooShort {
    pub needed: usize,
}

// Refusal 7: the image is wrong.
#[derive(Clone, Copy)]
pub struct WrongImage;

// What taking a unit up answers, and the unit.
#[derive(Clone, Copy)]
pub struct Taken {
    pub answer: Result<(), WrongImage>,
    pub apu: Apu,
}

// Writes a unit's image to the front of the output, or refuses it and writes nothing.
pub fn write_image(unit: Apu, out: &mut [u8]) -> Result<(), TooShort>
    requires { Held unit }
    ensures value { result ≡ saved_of (length out.old) }
    ensures out_after { out.new ≡ saved_in unit out.old }
{
    if out.len() < IMAGE_BYTES {
        return Err(TooShort {
            needed: IMAGE_BYTES,
        });
    }
    put_unit(out, 0, unit);
    Ok(())
}

// Refusal 7, and a fresh DMG unit beside it.
fn wrong() -> Taken
    ensures { result ≡ taken_if false fresh_dmg }
{
    Taken {
        answer: Err(WrongImage),
        apu: Apu::new(true),
    }
}

// The unit of an image, or a fresh DMG one beside the refusal.
pub fn take_image(image: &[u8]) -> Taken
    ensures { result ≡ taken_of image.now }
{
    if image.len() == IMAGE_BYTES {
        if unit_fits(image, 0) {
            return Taken {
                answer: Ok(()),
                apu: read_unit(image, 0),
            };
        }
        return wrong();
    }
    wrong()
}
