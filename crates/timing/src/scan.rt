// The timing scan: how often what the picture shows changes on the way from one point to another.
ghost use Rattle.std.specs.Prelude.{◌≡◌, length};
ghost use Rattle.points.specs.Range.{Near};
ghost use Rattle.picture.specs.Sides.{Sized};
ghost use Rattle.timing.specs.Changes.{change, changes, bytes_along};

use pixels::get_pixel_at_point;
use points::Point;
use scans::BresenhamScan;

// 1 where two bytes differ, and 0 where they do not.
fn differ(a: u8, b: u8) -> usize
    ensures { result ≡ change a b }
{
    usize::from(a != b)
}

// The changes from byte to byte along a scan. Its first point is where it starts from, and changes nothing.
pub fn timing_scan(pic: &[u8], width: usize, height: usize, from: Point, to: Point) -> usize
    requires fact_1 { Sized width height (length pic.now) }
    requires fact_2 { Near from }
    requires fact_3 { Near to }
    ensures { result ≡ changes (bytes_along pic.now width height from to) }
{
    let mut previous = get_pixel_at_point(pic, width, height, from);
    let mut count: usize = 0;
    for p in BresenhamScan::new(from, to) {
        let pixel = get_pixel_at_point(pic, width, height, p);
        count += differ(previous, pixel);
        previous = pixel;
    }
    count
}
