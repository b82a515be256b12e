ghost use Rattle.std.specs.Prelude.{◌≡◌};
ghost use Rattle.picture.specs.Colour.{byte_of, colour_of, Shown};

use crate::PixelColor;

// The colour that a byte stands for.
impl From<u8> for PixelColor {
    ghost from_gives = { λ byte colour. colour ≡ colour_of byte };

    fn from(byte: u8) -> PixelColor
        ensures { result ≡ colour_of byte }
    {
        match byte {
            0 => PixelColor::White,
            1 => PixelColor::Black,
            2 => PixelColor::CapStone,
            3 => PixelColor::Alignment,
            4 => PixelColor::Tmp1,
            _ => PixelColor::Discarded(byte - 5),
        }
    }
}

// The byte that stands for a colour. A Discarded with a number above 250 has none, and no `From` could ask that there is none: so this is a function of its own.
pub fn byte_of(color: PixelColor) -> u8
    requires { Shown color }
    ensures { result ≡ byte_of color }
{
    match color {
        PixelColor::White => 0,
        PixelColor::Black => 1,
        PixelColor::CapStone => 2,
        PixelColor::Alignment => 3,
        PixelColor::Tmp1 => 4,
        PixelColor::Discarded(n) => 5 + n,
    }
}
