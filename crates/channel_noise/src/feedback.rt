// The register of a noise channel, many steps at once: 24 of them are read off as one number.
ghost use Rattle.std.specs.Prelude.{◌≡◌, ℕ, ◌≤◌, true, false};
ghost use Rattle.ground.specs.Iterate.{iterate};
ghost use Rattle.channel_noise.specs.Noise.{stepped_register};
ghost use Rattle.channel_noise.specs.Fed.{changes_of, fed};

// Where a row of bits changes: bit i is bit i of the row xor bit i + 1.
fn changes(row: u32) -> u32
    ensures { result ≡ changes_of row }
{
    row ^ (row / 2)
}

// The bits that the next 24 steps feed back, the first one lowest: 14 can be read off the register, and with those the others.
fn feedbacks_wide(register: u32) -> u32
    requires { register ≤ 0x7FFF }
    ensures value { result ≡ fed false 24 register }
    ensures upper_bound { result ≤ 0xFFFFFF }
{
    let row = register + changes(register) % 0x4000 * 0x8000;
    changes(row) % 0x100_0000
}

// The same in 7-bit mode, from the lowest 7 bits: 6 can be read off, with those 12, then 18, then 24.
fn feedbacks_narrow(low: u32) -> u32
    requires { low ≤ 0x7F }
    ensures value { result ≡ fed true 24 low }
    ensures upper_bound { result ≤ 0xFFFFFF }
{
    let row6 = low + changes(low) % 0x40 * 0x80;
    let row12 = low + changes(row6) % 0x1000 * 0x80;
    let row18 = low + changes(row12) % 0x4_0000 * 0x80;
    changes(row18) % 0x100_0000
}

// The register after so many steps, at most 24: as many as a frame can be away.
fn step_some(register: u32, narrow: bool, times: u32) -> u32
    requires register_bound { register ≤ 0x7FFF }
    requires times_bound { times ≤ 24 }
    ensures value { result ≡ iterate times (λ (x : ℕ). stepped_register x narrow) register }
    ensures upper_bound { result ≤ 0x7FFF }
{
    if narrow {
        let high = register / 0x80;
        let low = register % 0x80;
        let bits = feedbacks_narrow(low);
        ((high + bits * 0x100) >> times) % 0x100 * 0x80 + ((low + bits * 0x80) >> times) % 0x80
    } else {
        let bits = feedbacks_wide(register);
        (((register as u64 + bits as u64 * 0x8000) >> times) % 0x8000) as u32
    }
}

// The register after a step: x, which is 1 where bits 0 and 1 differ, comes in at bit 14, in 7-bit mode at bit 6 too.
pub fn step_one(register: u32, narrow: bool) -> u32
    requires { register ≤ 0x7FFF }
    ensures value { result ≡ stepped_register register narrow }
    ensures upper_bound { result ≤ 0x7FFF }
{
    let x = (register + register / 2) % 2;
    let wide = register / 2 + x * 16384;
    if narrow {
        x * 16384 + register / 256 * 128 + x * 64 + register / 2 % 64
    } else {
        wide
    }
}

// The register after so many steps: 24 by 24, then what is left.
pub fn step_times(register: u32, narrow: bool, times: u32) -> u32
    requires { register ≤ 0x7FFF }
    ensures { result ≡ iterate times (λ (x : ℕ). stepped_register x narrow) register }
{
    let mut next = register;
    let mut left = times;
    while 24 < left {
        next = step_some(next, narrow, 24);
        left = left - 24;
    }
    step_some(next, narrow, left)
}
