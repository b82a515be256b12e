// What detect refuses before it starts: 1, 2, 3, 4.
ghost use Rattle.std.specs.Prelude.{◌≡◌};
ghost use Rattle.refusals.specs.First.{first, sound};
ghost use Rattle.picture.specs.Verdict.{judged};
ghost use Rattle.detect.specs.Detect.{detect_tests};

use picture::{accept, room};
use refusals::Refusal;

// All tests before the first step: sides, length, room in the stack and in the scratch, bytes.
pub fn detectable(
    pic: &[u8],
    width: usize,
    height: usize,
    lent: usize,
    scratch: usize,
) -> Result<(), Refusal>
    ensures { judged result ≡ first (detect_tests pic.now width height lent scratch) sound }
{
    let n = pic.len();
    room(width, height, n, lent)?;
    room(width, height, n, scratch)?;
    accept(pic, width, height)
}
