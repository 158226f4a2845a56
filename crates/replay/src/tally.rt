// What was replayed so far, and the lines that say it.
use std::fmt::{self, Display, Formatter};
use std::ops::AddAssign;

// Logs, their bytes, and how many logs differ.
#[derive(Clone, Copy, Default)]
pub struct Counts {
    pub logs: u64,
    pub bytes: u64,
    pub wrong: u64,
}

impl AddAssign for Counts {
    fn add_assign(&mut self, more: Counts) {
        self.logs = self.logs.saturating_add(more.logs);
        self.bytes = self.bytes.saturating_add(more.bytes);
        self.wrong = self.wrong.saturating_add(more.wrong);
    }
}

impl Display for Counts {
    fn fmt<W: fmt::Write>(&self, f: &mut Formatter<W>) -> fmt::Result {
        let Counts { logs, bytes, wrong } = *self;
        write!(f, "{logs} logs, {bytes} bytes, {wrong} differ")
    }
}

// The counts of the family so far, and of those before it. What can't be printed is passed over.
#[derive(Clone, Copy, Default)]
pub struct Tally {
    family: Counts,
    before: Counts,
}

impl Tally {
    // One log, by whether it is the same.
    pub fn count(&mut self, same: bool, bytes: u64) {
        self.family += Counts {
            logs: 1,
            bytes,
            wrong: if same { 0 } else { 1 },
        };
    }

    // The rest of the family's line, whose name stands already.
    fn end_family(&mut self, rt: &impl Print) {
        if 0 < self.family.logs {
            let _ = println!(rt; "{}", self.family);
        }
        self.before += self.family;
        self.family = Counts::default();
    }

    pub fn next_family(&mut self, rt: &impl Print, name: &[u8]) {
        self.end_family(rt);
        let _ = rt.write_all(name);
        let _ = print!(rt; ": ");
    }

    // There is nothing more to read.
    pub fn end(&mut self, rt: &impl Print) {
        self.end_family(rt);
        let _ = println!(rt; "all: {}", self.before);
    }
}
