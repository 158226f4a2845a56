// Two small codes of an image: the sequencer's position as a byte, and which wave shift a volume may have beside it.
ghost use Rattle.std.specs.Prelude.{◌≡◌};
ghost use Rattle.clocks.specs.Position.{PositionHeld};
ghost use Rattle.image_fields.specs.Codes.{position_byte, position_of, shift_fits};

// A sequencer position as a byte, -1 as FF.
pub fn position_byte(position: i8) -> u8
    requires { PositionHeld position }
    ensures { result ≡ position_byte position }
{
    position.cast_unsigned()
}

// The sequencer position of a byte: -1 for any above 7.
pub fn position_at(byte: u8) -> i8
    ensures { result ≡ position_of byte }
{
    if byte <= 7 {
        return byte as i8;
    }
    -1
}

// Whether the wave shift is that of its volume, or 0 at volume 0.
pub fn shift_fits(volume: u8, shift: u8) -> bool
    ensures { result ≡ shift_fits volume shift }
{
    matches!((volume, shift), (0, 4 | 0) | (1, 0) | (2, 1) | (3, 2))
}
