// A volume envelope as bytes: 6.
ghost use Rattle.std.specs.Prelude.{◌≡◌, ◌+◌, ◌≤◌, length};
ghost use Rattle.image_fields.specs.Bytes.{stored};
ghost use Rattle.image_parts.specs.Parts.{envelope_at, envelope_bytes, envelope_fits};

use channel_parts::envelope::Envelope;
use image_fields::bytes::{put_flag, put_one};

// Its fields into lent bytes, from a place on.
pub fn put_envelope(out: &mut [u8], at: usize, e: Envelope)
    requires { at + 6 ≤ length out.old }
    ensures { out.new ≡ stored out.old at (envelope_bytes e) }
{
    put_one(out, at, e.starting_volume);
    put_one(out, at + 1, e.current_volume);
    put_flag(out, at + 2, e.sweep_increase);
    put_one(out, at + 3, e.period);
    put_flag(out, at + 4, e.envelope_can_run);
    put_one(out, at + 5, e.counter);
}

// What the bytes there say.
pub fn read_envelope(s: &[u8], at: usize) -> Envelope
    requires { at + 6 ≤ length s.now }
    ensures { result ≡ envelope_at s.now at }
{
    Envelope {
        starting_volume: s[at],
        current_volume: s[at + 1],
        sweep_increase: s[at + 2] == 1,
        period: s[at + 3],
        envelope_can_run: s[at + 4] == 1,
        counter: s[at + 5],
    }
}

// Whether they are those of one in its ranges.
pub fn envelope_fits(s: &[u8], at: usize) -> bool
    requires { at + 6 ≤ length s.now }
    ensures { result ≡ envelope_fits s.now at }
{
    (s[at] <= 15)
        & (s[at + 1] <= 15)
        & (s[at + 2] <= 1)
        & (s[at + 3] <= 7)
        & (s[at + 4] <= 1)
        & (s[at + 5] <= 8)
}
