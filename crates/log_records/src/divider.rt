// The divider that the calls of a clock record see.
ghost use Rattle.std.specs.Prelude.{◌≡◌, ◌≤◌};
ghost use Rattle.log_records.specs.Divider.{divider_at};

// What a record says of it: a byte, which stands still, or runs on by 1 every 64 calls, `phase` of which are past. One that stands may have any phase, and
// no call sees it.
#[derive(Clone, Copy)]
pub enum Divider {
    Standing { byte: u8, phase: u8 }, // in version 1, with phase 0
    Running { byte: u8, phase: u8 }, // from version 2 on
}

// The divider in call i of a record.
pub fn divider_at(divider: Divider, i: u32) -> u8
    requires { i ≤ 65535 }
    ensures { result ≡ divider_at divider i }
{
    match divider {
        Divider::Standing { byte, .. } => byte,
        Divider::Running { byte, phase } => {
            ((byte as u32 + (phase as u32 + i) / 64) % 256) as u8
        }
    }
}
