// The lines of a picture that have a cut.
ghost use Rattle.std.specs.Prelude.{◌≡◌, ◌+◌, ◌-◌, ◌*◌, ◌≤◌, length};
ghost use Rattle.refusals.specs.Limits.{longest_side};
ghost use Rattle.scanner.specs.Cuts.{line_cuts};
ghost use Rattle.scanner.specs.Lines.{some, next_line};

use crate::LineScanner;

// Whether the line that starts at base has a cut.
fn has_cut(pic: &[u8], base: usize, width: usize) -> bool
    requires { (width ≤ longest_side) × (base + width ≤ length pic.now) }
    ensures { result ≡ some (line_cuts pic.now base width) }
{
    LineScanner::new().advance(pic, base, width).is_some()
}

// The first line from y on that has a cut, or the height where there is none.
pub fn next_line(pic: &[u8], width: usize, height: usize, y: usize) -> usize
    requires { (y ≤ height) × (width ≤ longest_side) × (length pic.now ≡ width * height) }
    ensures { result ≡ next_line pic.now width (height - y) y }
{
    for line in y..height {
        if has_cut(pic, line * width, width) {
            return line;
        }
    }
    height
}
