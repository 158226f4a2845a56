// An answer as one number: refusal × 2^48 + bytes written or number returned.
ghost use Rattle.std.specs.Prelude.{◌≡◌, ◌+◌, ◌*◌, ◌^◌, ◌≤◌, ◌<◌};
ghost use Rattle.log_scan.specs.Answers.{refusal_in, returned_in};

use log_scan::answer::{refusal, returned};
use log_scan::refusal::{Refusal, Written};

pub fn packed(refusal: u64, number: u64) -> u64
    requires refusal_bound { refusal ≤ 11 }
    requires number_bound { number < 2 ^ 48 }
    ensures { result ≡ refusal * 2 ^ 48 + number }
{
    refusal * 0x1_0000_0000_0000 + number
}

pub fn pack<T: Written, E: Refusal>(answer: Result<T, E>) -> u64
    requires { returned_in T.bytes_of E.number_returned answer < 2 ^ 48 }
    ensures { result ≡ refusal_in E.number_of answer * 2 ^ 48 + returned_in T.bytes_of E.number_returned answer }
{
    packed(refusal(answer), returned(answer))
}
