// Bytes compared: recorded ones with those that were made.

// What the output holds before a log is played.
const FILL: u8 = 0xEE;

pub fn fill(out: &mut [u8]) {
    out.fill(FILL);
}

// Whether the output is as it was.
pub fn untouched(out: &[u8]) -> bool {
    out.iter().all(|byte| *byte == FILL)
}

// A number's remainder by the prime that is so much less than 2^32: its digits in a base are the bytes, each by 1 more.
fn remainder<const BASE: u32, const LESS: u32>(bytes: &[u8]) -> [u8; 4] {
    let remainder = bytes.iter().fold(0, |n, byte| {
        let longer = u64::from(n) * u64::from(BASE) + u64::from(*byte) + 1;
        (longer % (0x1_0000_0000 - u64::from(LESS))) as u32
    });
    remainder.to_be_bytes()
}

// Two such remainders of the bytes.
pub fn digest(bytes: &[u8]) -> [[u8; 4]; 2] {
    [remainder::<257, 5>(bytes), remainder::<65_599, 17>(bytes)]
}
