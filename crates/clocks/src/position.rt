// The sequencer's position, -1 to 7: the only two functions that compute with it.
ghost use Rattle.std.specs.Prelude.{◌≡◌, ◌≤◌, pos};
ghost use Rattle.clocks.specs.Position.{PositionHeld, next_of};

// The next position, 0 to 8: after -1 comes 0.
pub fn next_position(position: i8) -> u8
    requires { PositionHeld position }
    ensures { result ≡ next_of position }
{
    (position + 1) as u8
}

// A position from its number.
pub fn position_of(number: u8) -> i8
    requires { number ≤ 7 }
    ensures { result ≡ pos number }
{
    number as i8
}
