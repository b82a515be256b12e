// The calls on pictures, a byte for each pixel, line by line, in a slice of width x height.
#![tactic(auto)]

ghost use Rattle.std.specs.Prelude.{◌≡◌};
ghost use Rattle.refusals.specs.First.{first, sound};
ghost use Rattle.picture.specs.Bitmap.{accept_tests};
ghost use Rattle.told_pictures.specs.Pictures.{verdict_number, Thresholds};

use told_places::status_of;

// Whether a picture is a bitmap, of bytes 0 and 1: 0, or the refusal 1, 2 or 4.
#[tactic(auto, using(crate::proofs::Numbers::status_is))]
pub fn accept(pic: &[u8], width: usize, height: usize) -> u8
    ensures { result ≡ verdict_number (first (accept_tests pic.now width height) sound) }
{
    status_of(picture::accept(pic, width, height))
}

// Makes a grey picture, 0 for black, a bitmap, in place: 0, or the refusal 1 or 2.
#[tactic(auto, using(crate::proofs::Numbers::status_is))]
pub fn prepare(pic: &mut [u8], width: usize, height: usize) -> u8
    ensures { Thresholds width height pic.old result pic.new }
{
    status_of(prepare::prepare(pic, width, height))
}
