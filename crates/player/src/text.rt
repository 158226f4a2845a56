// Lines of text on standard output, numbers in upper-case hexadecimal.
use log_items::items::{FRAME_BYTES, PCM, READ};
use std::io::{self, Stdout, Write};

const DIGITS: [u8; 16] = *b"0123456789ABCDEF";

// A frame's line: its letter, ten words of a space and eight digits, and the line's end.
const FRAME_LINE: usize = 92;

// Text on its way out: it is gathered, and goes out where there is room for no more. What can't be written is passed over, so that a log is played to its
// end. Nothing is allocated.
#[derive(Drop)]
pub struct Text {
    out: Stdout,
    bytes: [u8; 65_536],
    end: usize,
}

impl Text {
    pub fn new(out: Stdout) -> Text {
        Text {
            out,
            bytes: [0; 65_536],
            end: 0,
        }
    }
}

impl Write for Text {
    // As many of the bytes as there is room for.
    fn write(&mut self, bytes: &[u8]) -> io::Result<usize> {
        if self.end == self.bytes.len() {
            self.flush()?;
        }
        let Some(room) = self.bytes.get_mut(self.end..) else {
            return Ok(0);
        };
        let length = bytes.len().min(room.len());
        room[..length].copy_from_slice(&bytes[..length]);
        self.end += length;
        Ok(length)
    }

    fn flush(&mut self) -> io::Result<()> {
        if let Some(text) = self.bytes.get(..self.end) {
            let _ = self.out.write_all(text);
        }
        self.end = 0;
        Ok(())
    }
}

// The two digits of a byte. (By `{:02X}`, a log of reads or PCM reads took half as long again.)
fn digits(byte: u8) -> [u8; 2] {
    [DIGITS[(byte / 16) as usize], DIGITS[(byte % 16) as usize]]
}

// A line for each frame: F and its ten words.
pub fn print_frames(text: &mut impl Write, frames: &[u8]) {
    let (frames, _) = frames.as_chunks();
    for frame in frames {
        let _ = text.write_all(&frame_line(frame));
    }
}

fn frame_line(frame: &[u8; FRAME_BYTES]) -> [u8; FRAME_LINE] {
    let mut line = [b' '; FRAME_LINE];
    line[0] = b'F';
    for (i, byte) in frame[1..].iter().enumerate() {
        let [high, low] = digits(*byte);
        let at = 2 + i * 2 + i / 4;
        line[at] = high;
        line[at + 1] = low;
    }
    line[FRAME_LINE - 1] = b'\n';
    line
}

// The line of a read, R with its address and the byte, or of both PCM reads, P and two bytes; a write has none.
pub fn print_item(text: &mut impl Write, item: &[u8], addr: Option<u16>) {
    let _ = match (item, addr) {
        ([READ, byte], Some(addr)) => {
            let [high, low] = addr.to_be_bytes();
            let ([a, b], [c, d], [e, f]) = (digits(high), digits(low), digits(*byte));
            text.write_all(&[b'R', b' ', a, b, c, d, b' ', e, f, b'\n'])
        }
        ([PCM, pcm12, pcm34], _) => {
            let ([a, b], [c, d]) = (digits(*pcm12), digits(*pcm34));
            text.write_all(&[b'P', b' ', a, b, b' ', c, d, b'\n'])
        }
        _ => Ok(()),
    };
}
