// The search for the alignment pattern: the spiral's passes, one after the other.
ghost use Rattle.std.specs.Prelude.{◌≡◌, true, ◌≤◌, length};
ghost use Rattle.refusals.specs.Limits.{farthest};
ghost use Rattle.points.specs.Range.{Near};
ghost use Rattle.picture.specs.Sides.{Roomy};
ghost use Rattle.table.specs.Sound.{sound_test};
ghost use Rattle.alignment.specs.Spiral.{first_pass, Turning, Reachable};
ghost use Rattle.alignment.specs.Search.{meaning, Spirals};

use crate::glide::{glide, passed_by};
use crate::spiral::{Pass, first_pass};
use crate::visit::{Visit, visit_place};
use points::Point;
use refusals::Refusal;
use table::Table;

// A search's answer, beside the table that its lookups leave.
#[derive(Clone, Copy)]
pub struct Sought {
    pub place: Result<Option<Point>, Refusal>,
    pub table: Table,
}

// Looks for a region of the estimate's size, from a pass and a place on: after each visit it glides to the next.
fn search_from(
    pic: &mut [u8],
    width: usize,
    height: usize,
    stack: &mut [u32],
    table: Table,
    first: Pass,
    from: Point,
    estimate: usize,
) -> Sought
    requires { Roomy width height (length pic.old) (length stack.old) × (sound_test table width height ≡ true) × Turning first × Reachable first from × (estimate ≤ farthest) }
    ensures { Spirals width height estimate first from pic.old table (meaning result.place) pic.new result.table }
{
    let limit = estimate * 100;
    let mut pass = first;
    let mut at = from;
    let mut sofar = table;
    // A loop with no counter: what the visit finds decides whether it goes on, and the glide how many passes further.
    while pass.step * pass.step < limit {
        let visited = visit_place(pic, width, height, stack, sofar, at, estimate);
        let visit = visited.visit;
        sofar = visited.table;
        let passed = passed_by(sofar, estimate);
        match visit {
            Ok(Visit::Moves) => {
                let to = pass.moved(at);
                let on = glide(pic, width, height, pass.next(), to, estimate, passed);
                pass = on.pass;
                at = on.at;
            }
            Ok(Visit::Stays) => {
                let on = glide(pic, width, height, pass.next(), at, estimate, passed);
                pass = on.pass;
                at = on.at;
            }
            Ok(Visit::Here) => {
                return Sought {
                    place: Ok(Some(at)),
                    table: sofar,
                };
            }
            Err(why) => {
                return Sought {
                    place: Err(why),
                    table: sofar,
                };
            }
        }
    }
    Sought {
        place: Ok(None),
        table: sofar,
    }
}

// Looks for a region of the estimate's size, in a spiral from the seed on.
pub fn find_alignment_pattern(
    pic: &mut [u8],
    width: usize,
    height: usize,
    stack: &mut [u32],
    table: Table,
    seed: Point,
    estimate: usize,
) -> Sought
    requires { Roomy width height (length pic.old) (length stack.old) × (sound_test table width height ≡ true) × Near seed × (estimate ≤ farthest) }
    ensures { Spirals width height estimate first_pass seed pic.old table (meaning result.place) pic.new result.table }
{
    let passed = passed_by(table, estimate);
    let start = glide(pic, width, height, first_pass(), seed, estimate, passed);
    let pass = start.pass;
    let at = start.at;
    search_from(pic, width, height, stack, table, pass, at, estimate)
}
