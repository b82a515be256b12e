// A glide: the passes that the byte of their place settles, with no lookup.
ghost use Rattle.std.specs.Prelude.{◌≡◌, ◌+◌, ◌*◌, ◌<◌, ◌≤◌, length};
ghost use Rattle.refusals.specs.Limits.{farthest};
ghost use Rattle.picture.specs.Sides.{Sized};
ghost use Rattle.pieces.specs.Picture.{px};
ghost use Rattle.table.specs.Sound.{Ordered};
ghost use Rattle.alignment.specs.Spiral.{Turning, Reachable};
ghost use Rattle.alignment.specs.Visit.{place_of};
ghost use Rattle.alignment.specs.Glide.{passed_of, glance_of, glance_at, Glides};

use crate::spiral::Pass;
use crate::visit::{is_size_like, place_at};
use points::Point;
use table::Table;

// What a glance at a place tells: the pass moves on, it skips its move, or the place has to be visited.
#[derive(Clone, Copy)]
pub enum Glance {
    Moves,
    Stays,
    Unsure,
}

// Where a glide comes to: the pass, and the place that it starts from.
#[derive(Clone, Copy)]
pub struct Stand {
    pub pass: Pass,
    pub at: Point,
}

// The byte that is passed by: the newest entry's, where that entry is of another size; 0 where there is none.
pub fn passed_by(table: Table, estimate: usize) -> u8
    requires { Ordered table × (estimate ≤ farthest) }
    ensures { result ≡ passed_of estimate table }
{
    if table.n == 0 {
        return 0;
    }
    let newest = table.age[0];
    let number = newest as usize;
    let entry = table.entries[number];
    if is_size_like(entry.px, estimate) {
        return 0;
    }
    5 + newest
}

// What a byte tells of a pass.
fn glance_of(byte: u8, passed: u8) -> Glance
    ensures { result ≡ glance_of passed byte }
{
    if byte == 0 {
        return Glance::Moves;
    }
    if byte == passed {
        return Glance::Moves;
    }
    if byte < 2 {
        return Glance::Unsure;
    }
    if byte <= 4 {
        return Glance::Stays;
    }
    Glance::Unsure
}

// What the pixel (x, y) tells of a pass.
fn glance_pixel(pic: &[u8], width: usize, x: usize, y: usize, passed: u8) -> Glance
    requires { y * width + x < length pic.now }
    ensures { result ≡ glance_of passed (px pic.now width x y) }
{
    let base = y * width;
    glance_of(pic[base + x], passed)
}

// What a place tells of a pass.
fn glance_at(pic: &[u8], width: usize, height: usize, at: Point, passed: u8) -> Glance
    requires { Sized width height (length pic.now) }
    ensures { result ≡ glance_at pic.now width passed (place_of width height at) }
{
    match place_at(at.x, at.y, width, height) {
        Some((x, y)) => glance_pixel(pic, width, x, y, passed),
        None => Glance::Moves,
    }
}

// Goes on from a pass and a place, as long as the leg is short enough and a glance settles the pass.
pub fn glide(
    pic: &[u8],
    width: usize,
    height: usize,
    first: Pass,
    from: Point,
    estimate: usize,
    passed: u8,
) -> Stand
    requires { Sized width height (length pic.now) × Turning first × Reachable first from × (estimate ≤ farthest) }
    ensures { Glides pic.now width height estimate passed first from result.pass result.at }
{
    let limit = estimate * 100;
    let mut pass = first;
    let mut at = from;
    // A loop with no counter: it goes from pass to pass, and what is seen at each decides whether it goes on.
    while pass.step * pass.step < limit {
        match glance_at(pic, width, height, at, passed) {
            Glance::Moves => {
                at = pass.moved(at);
                pass = pass.next();
            }
            Glance::Stays => {
                pass = pass.next();
            }
            Glance::Unsure => {
                return Stand { pass: pass, at: at };
            }
        }
    }
    Stand { pass: pass, at: at }
}
