// The line scanner: the cuts of a line that may go through a mark (detect.rs, `LineScanner`). It sees white and not white alone.
#![tactic(auto)]

ghost use Rattle.std.specs.Prelude.{◌≡◌, ◌&&◌, leb, ◌+◌, ◌-◌, ◌<◌, ◌≤◌, length};
ghost use Rattle.refusals.specs.Limits.{longest_side};
ghost use Rattle.scanner.specs.Edges.{dark, run_end};
ghost use Rattle.scanner.specs.Cuts.{is_cut};
ghost use Rattle.scanner.specs.Scan.{begun, passed, OnLine, Comes};

use runs::is_mark_like;

mod lines;

pub use lines::next_line;

// A cut through what may be a mark: the first columns of its left edge, of its stone and of its right edge.
#[derive(Clone, Copy)]
pub struct LinePosition {
    pub left: usize,
    pub stone: usize,
    pub right: usize,
}

// Where a scan stands: the last five edges that it met, the latest last, and how many there were.
#[derive(Clone, Copy)]
pub struct LineScanner {
    pub e0: usize,
    pub e1: usize,
    pub e2: usize,
    pub e3: usize,
    pub e4: usize,
    pub met: usize,
}

// Where a dark run, or a light one, ends that reaches to column x at least, on the line that starts at base.
fn end_of(pic: &[u8], base: usize, width: usize, x: usize, is_dark: bool) -> usize
    requires { (x ≤ width) × (base + width ≤ length pic.now) }
    ensures { result ≡ run_end is_dark pic.now base (width - x) x }
{
    for end in x..width {
        if (pic[base + end] != 0) != is_dark {
            return end;
        }
    }
    width
}

// Where the run ends that starts at column x.
fn run_end(pic: &[u8], base: usize, width: usize, x: usize) -> usize
    requires { (x < width) × (width ≤ longest_side) × (base + width ≤ length pic.now) }
    ensures { result ≡ run_end (dark pic.now base x) pic.now base (width - (x + 1)) (x + 1) }
{
    if pic[base + x] == 0 {
        return end_of(pic, base, width, x + 1, false);
    }
    end_of(pic, base, width, x + 1, true)
}

impl LineScanner {
    // A scan that is to begin.
    pub fn new() -> Self
        ensures { result ≡ begun }
    {
        LineScanner {
            e0: 0,
            e1: 0,
            e2: 0,
            e3: 0,
            e4: 0,
            met: 1,
        }
    }

    // The scan, one edge further.
    fn pass(self, edge: usize) -> Self
        requires { self.met ≤ longest_side }
        ensures { result ≡ passed self edge }
    {
        LineScanner {
            e0: self.e1,
            e1: self.e2,
            e2: self.e3,
            e3: self.e4,
            e4: edge,
            met: self.met + 1,
        }
    }

    // Whether the run that ends at this edge makes a cut with the four before it.
    fn is_cut(self, pic: &[u8], base: usize, width: usize, edge: usize) -> bool
        requires { OnLine edge self × (self.e4 < width) × (width ≤ longest_side) × (edge ≤ width) × (base + width ≤ length pic.now) }
        ensures { result ≡ (leb 5 self.met && is_cut pic.now base self.e0 self.e1 self.e2 self.e3 self.e4 edge) }
    {
        let e0 = self.e0;
        let e1 = self.e1;
        let e2 = self.e2;
        let e3 = self.e3;
        let e4 = self.e4;
        if self.met < 5 {
            return false;
        }
        if pic[base + e4] == 0 {
            return false;
        }
        is_mark_like([e1 - e0, e2 - e1, e3 - e2, e4 - e3, edge - e4])
    }

    // Goes on to the next cut.
    pub fn advance(
        self,
        pic: &[u8],
        base: usize,
        width: usize,
    ) -> Option<(LinePosition, LineScanner)>
        requires { OnLine width self × (width ≤ longest_side) × (base + width ≤ length pic.now) }
        ensures { Comes pic.now base width self result }
    {
        let mut s = self;
        // A loop with no counter: each turn goes on from the last edge met to the next one, however far that is.
        while s.e4 < width {
            let edge = run_end(pic, base, width, s.e4);
            let next = s.pass(edge);
            if s.is_cut(pic, base, width, edge) {
                let at = LinePosition {
                    left: s.e0,
                    stone: s.e2,
                    right: s.e4,
                };
                return Some((at, next));
            }
            s = next;
        }
        None
    }
}
