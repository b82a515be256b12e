// The size that the alignment pattern is taken to have (identify/grid.rs, `find_alignment_pattern`).
ghost use Rattle.std.specs.Prelude.{◌≡◌};
ghost use Rattle.points.specs.Range.{Near};
ghost use Rattle.alignment.specs.Estimate.{meaning, area_of, estimate_by, estimate_of};

use corners::line_from;
use geometry::Perspective;
use groups::side_of;
use points::Point;
use refusals::Refusal;
use sizes::unsigned_abs;
use stated::state;

// The area of the parallelogram that the ways from the seed to a and to c span.
fn area(seed: Point, a: Point, c: Point) -> usize
    requires fact_1 { Near seed }
    requires fact_2 { Near a }
    requires fact_3 { Near c }
    ensures { result ≡ area_of seed a c }
{
    let way = line_from(seed, c);
    unsigned_abs(side_of(seed, way, a)) as usize
}

// The estimate by two more corners of the pattern: 12 where it exceeds 10,000.
fn estimate_by(seed: Point, a: Point, c: Point) -> Result<usize, Refusal>
    requires fact_1 { Near seed }
    requires fact_2 { Near a }
    requires fact_3 { Near c }
    ensures { meaning result ≡ estimate_by seed a c }
{
    let size = area(seed, a, c);
    if size > 10000 {
        return Err(Refusal::Far);
    }
    Ok(size)
}

// The estimate by the perspectives of the two stones whose lines meet at the seed: 13 and 12 corner by corner, then 12 for itself.
pub fn size_estimate(c0: Perspective, c2: Perspective, seed: Point) -> Result<usize, Refusal>
    requires { Near seed }
    ensures { meaning result ≡ estimate_of c0 c2 seed }
{
    let p = c0.unmap(seed);
    let a = state(c0, p.u, p.v + 1.0)?;
    let q = c2.unmap(seed);
    let c = state(c2, q.u + 1.0, q.v)?;
    estimate_by(seed, a, c)
}
