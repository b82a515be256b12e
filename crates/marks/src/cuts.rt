// The cuts of a picture, one after the other: on each line from left to right, and from top to bottom.
ghost use Rattle.std.specs.Prelude.{◌<◌, length};
ghost use Rattle.picture.specs.Sides.{Sized};
ghost use Rattle.scanner.specs.Scan.{OnLine};
ghost use Rattle.marks.specs.Cuts.{Reaches};

use scanner::{LinePosition, LineScanner, next_line};

// The next cut, from a scan of the line `start` on; lines without a cut are passed over.
pub fn next_cut(
    pic: &[u8],
    width: usize,
    height: usize,
    start: usize,
    first: LineScanner,
) -> Option<(usize, LinePosition, LineScanner)>
    requires { Sized width height (length pic.now) × (start < height) × OnLine width first }
    ensures { Reaches pic.now width height start first result }
{
    let mut y = start;
    let mut scan = first;
    // A loop with no counter: each turn goes on to the next line that has a cut, however far that is.
    while y < height {
        let base = y * width;
        match scan.advance(pic, base, width) {
            Some((at, next)) => {
                return Some((y, at, next));
            }
            None => {
                y = next_line(pic, width, height, y + 1);
                scan = LineScanner::new();
            }
        }
    }
    None
}
