// Lines of text on standard output, numbers in upper-case hexadecimal.
use frame::pattern::pattern;
use std::fmt::{self, Display, Formatter};

// A frame's numbers, each channel's right and left.
#[derive(Clone, Copy)]
pub struct Frame {
    pub pulse1: [f32; 2],
    pub pulse2: [f32; 2],
    pub wave: [f32; 2],
    pub noise: [f32; 2],
    pub all: [f32; 2],
}

impl Frame {
    pub const SILENT: Frame = Frame {
        pulse1: [0.0; 2],
        pulse2: [0.0; 2],
        wave: [0.0; 2],
        noise: [0.0; 2],
        all: [0.0; 2],
    };
}

// F and the patterns of the ten numbers.
impl Display for Frame {
    fn fmt<W: fmt::Write>(&self, f: &mut Formatter<W>) -> fmt::Result {
        f.write_str("F")?;
        for [right, left] in [self.pulse1, self.pulse2, self.wave, self.noise, self.all] {
            write!(f, " {:08X} {:08X}", pattern(right), pattern(left))?;
        }
        Ok(())
    }
}

// A line that can't be written is passed over.
pub fn print_line<D: Display + Drop>(rt: &impl Print, line: D) {
    let _ = rt.println(line);
}
