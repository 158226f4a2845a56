// Images of kept units, and access logs played on them, for a host in C or Rust.
ghost use Rattle.std.specs.Prelude.{◌≡◌, length};
ghost use Rattle.image_player.specs.Answers as kept;
ghost use Rattle.image_player.specs.Playing.{answer_from, out_from, after_from};
ghost use Rattle.image_player.specs.Making.{made_of, made_in, packed_made};

use crate::pack::pack;
use image_player::make::fresh_image;
use image_player::play::play_image;
use log_scan::answer::put_counts;

// A fresh unit's image, by a log's start byte: 164, the bytes written, or refusal 4 or 8, and nothing is written.
#[unsafe(no_mangle)]
pub extern "C" fn make_image(start: u8, image: &mut [u8]) -> u64
    ensures value { result ≡ packed_made (made_of start (length image.old)) }
    ensures image_after { image.new ≡ made_in start image.old }
{
    pack(fresh_image(start, image))
}

// Plays a log's records on the unit of an image, and writes the image of the unit after them; or refuses it and writes nothing.
#[unsafe(no_mangle)]
pub extern "C" fn play_from_image(image: &[u8], log: &[u8], out: &mut [u8], after: &mut [u8]) -> u64
    ensures value { result ≡ kept.packed (answer_from image.now log.now (length out.old) (length after.old)) }
    ensures out_after { out.new ≡ out_from image.now log.now (length after.old) out.old }
    ensures after_after { after.new ≡ after_from image.now log.now (length out.old) after.old }
{
    pack(play_image(image, log, out, after))
}

// The same, with frames, clock calls and records put into `counts`.
#[unsafe(no_mangle)]
pub extern "C" fn play_from_image_counted(
    image: &[u8],
    log: &[u8],
    out: &mut [u8],
    after: &mut [u8],
    counts: &mut [u64],
) -> u64
    ensures value { result ≡ kept.packed (answer_from image.now log.now (length out.old) (length after.old)) }
    ensures out_after { out.new ≡ out_from image.now log.now (length after.old) out.old }
    ensures after_after { after.new ≡ after_from image.now log.now (length out.old) after.old }
    ensures counts_after { counts.new ≡ kept.counts_after (answer_from image.now log.now (length out.old)
        (length after.old)) counts.old }
{
    let answer = play_image(image, log, out, after);
    put_counts(answer, counts);
    pack(answer)
}
