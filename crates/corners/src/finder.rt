// What looks for corners, and the fill that shows it the rows that it meets.
ghost use Rattle.std.specs.Prelude.{◌≡◌, length};
ghost use Rattle.points.specs.Range.{Within};
ghost use Rattle.points.specs.declared.Point.{Point};
ghost use Rattle.pieces.specs.Paint.{Paints};
ghost use Rattle.fill.specs.Order.{rows_met};
ghost use Rattle.fill.specs.Fill.{Fillable};
ghost use Rattle.fill.specs.Fold.{folded};
ghost use Rattle.corners.specs.Rows.{Drawn, Sides, by_ends};

use crate::places::point_at;
use fill::step::{Stepped, fill_step, seed};
use pieces::Row;
use points::Point;

// Looks for a point of a piece, and is shown the ends of its rows.
pub trait Finder: Copy {
    // What a point that is seen makes of it.
    ghost sees: { Self → Point → Self };

    // It may be shown the points of a picture.
    ghost Ready: { Self → Type 0 };

    // A point is seen.
    fn see(self, p: Point) -> Self
        requires fact_1 { Ready self }
        requires fact_2 { Within p }
        ensures { result ≡ sees self p };

    // A row is met.
    final fn update(self, row: Row) -> Self
        requires fact_1 { Ready self }
        requires fact_2 { Drawn row }
        ensures { result ≡ by_ends sees self row }
    {
        let f = self.see(point_at(row.left, row.y));
        f.see(point_at(row.right, row.y))
    }

    // After a point it may be shown the next.
    ghost stays_ready: { (f : Self) (p : Point) → Ready f → Ready (sees f p) };
}

// Paints the piece of (x, y) with `to`, and shows each row that it meets to the finder.
pub fn fill_and_find<F: Finder>(
    pic: &mut [u8],
    w: usize,
    h: usize,
    stack: &mut [u32],
    x: usize,
    y: usize,
    to: u8,
    finder: F,
) -> F
    requires fact_1 { Fillable pic.old w h x y to (length stack.old) }
    requires fact_2 { Sides w h }
    requires fact_3 { F.Ready finder }
    ensures { Paints pic.old w h x y to pic.new × (result ≡ folded (by_ends F.sees) finder (rows_met pic.old w h x y to)) }
{
    let from = seed(pic, w, h, x, y, stack);
    let mut found = finder;
    let mut sp = 1;
    // A loop with a count of its own: what is left on the stack decides when it ends, and no list of turns is known before.
    while sp > 0 {
        match fill_step(pic, w, h, from, to, stack, sp) {
            Stepped::Met(row, top) => {
                found = found.update(row);
                sp = top;
            }
            Stepped::Passed(top) => {
                sp = top;
            }
        }
    }
    found
}
