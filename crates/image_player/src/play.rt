// A log on the unit of an image.
ghost use Rattle.std.specs.Prelude.{◌≡◌, length};
ghost use Rattle.apu.specs.Held.{Whole};
ghost use Rattle.image_player.specs.Playing.{answer_kept, out_kept, after_kept, answer_from, out_from, after_from};

use crate::answer::{ImageAnswer, ImageRefusal};
use apu::Apu;
use apu_run::calls::Play;
use image::keep::{take_image, write_image};
use image::layout::IMAGE_BYTES;
use log_player::log::answer_on;
use log_player::play::play_list;
use log_records::cut::version_of;

// Plays a log on a unit, and writes the image of the unit after it. The log is answered first and the place for the image looked at next, so that a refusal
// comes before anything is written, and the image has room.
pub fn play_kept(apu: Apu, log: &[u8], out: &mut [u8], after: &mut [u8]) -> ImageAnswer
    requires { Whole apu }
    ensures value { result ≡ answer_kept apu log.now (length out.old) (length after.old) }
    ensures out_after { out.new ≡ out_kept apu log.now (length after.old) out.old }
    ensures after_after { after.new ≡ after_kept apu log.now (length out.old) after.old }
{
    let played = answer_on(apu, log, out.len())?;
    if after.len() < IMAGE_BYTES {
        return Err(ImageRefusal::NoRoomForImage {
            needed: IMAGE_BYTES as u64,
        });
    }
    let end = play_list(Play { apu, at: 0 }, version_of(log), log, out);
    write_image(end.apu, after).unwrap();
    Ok(played)
}

// Plays a log on the unit of an image. The log's start byte is judged and not used.
pub fn play_image(image: &[u8], log: &[u8], out: &mut [u8], after: &mut [u8]) -> ImageAnswer
    ensures value { result ≡ answer_from image.now log.now (length out.old) (length after.old) }
    ensures out_after { out.new ≡ out_from image.now log.now (length after.old) out.old }
    ensures after_after { after.new ≡ after_from image.now log.now (length out.old) after.old }
{
    let taken = take_image(image);
    taken.answer?;
    play_kept(taken.apu, log, out, after)
}
