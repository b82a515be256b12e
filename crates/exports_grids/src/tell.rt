// What a group comes to, into lent slices.
ghost use Rattle.std.specs.Prelude.{◌≡◌, ◌≤◌, length};
ghost use Rattle.told_places.specs.Put.{put_at};
ghost use Rattle.told_places.specs.Values.{floats_of, counted_put};
ghost use Rattle.exports_grids.specs.Tells.{status_of, counts_after, floats_after};

use grids::SkewedGridLocation;
use refusals::Refusal;
use table::Table;
use told_places::coefficients::put_floats;
use told_places::entries::put_counted;

// A grid, and the table that fitting it left.
fn put_grid(grid: SkewedGridLocation, left: Table, counts: &mut [usize], floats: &mut [f64]) -> u8
    requires { (1006 ≤ length counts.old) × (8 ≤ length floats.old) }
    ensures { (result ≡ 0) × (counts.new ≡ counted_put left grid.size counts.old) × (floats.new ≡ put_at floats.old 0 (floats_of grid.c)) }
{
    let size = grid.size as usize;
    let c = grid.c;
    put_counted(left, size, counts);
    put_floats(c, 0, floats);
    0
}

// No grid, and the table that the search left.
fn put_none(left: Table, counts: &mut [usize]) -> u8
    requires { 1006 ≤ length counts.old }
    ensures { (result ≡ 255) × (counts.new ≡ counted_put left 0 counts.old) }
{
    put_counted(left, 0, counts);
    255
}

// The answer: a grid, no grid, or a refusal's number.
pub fn tell(
    fit: Result<Option<SkewedGridLocation>, Refusal>,
    left: Table,
    counts: &mut [usize],
    floats: &mut [f64],
) -> u8
    requires { (1006 ≤ length counts.old) × (8 ≤ length floats.old) }
    ensures { (result ≡ status_of fit) × (counts.new ≡ counts_after fit left counts.old) × (floats.new ≡ floats_after fit floats.old) }
{
    match fit {
        Ok(Some(grid)) => put_grid(grid, left, counts, floats),
        Ok(None) => put_none(left, counts),
        Err(why) => u8::from(why),
    }
}
