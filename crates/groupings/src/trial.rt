// A group on trial: fitted on a copy of the picture, which is thrown away.
ghost use Rattle.std.specs.Prelude.{◌*◌, ◌≤◌, length};
ghost use Rattle.groups.specs.Group.{Centred, Cornered};
ghost use Rattle.grids.specs.Grid.{meaning};
ghost use Rattle.setups.specs.Remember.{Remembers};
ghost use Rattle.fourth_corner.specs.Corner.{Workable};
ghost use Rattle.groupings.specs.Trial.{Trial};

use fit::refit;
use groups::CapStoneGroup;
use setups::{Answer, no_setup};
use table::{Table, copied};

// Fits a group on a copy of the picture in the scratch, with a copy of the table.
pub fn trial(
    pic: &[u8],
    width: usize,
    height: usize,
    stack: &mut [u32],
    scratch: &mut [u8],
    table: Table,
    group: CapStoneGroup,
) -> Answer
    requires { Workable pic.now width height (length stack.old) table × (width * height ≤ length scratch.old) × Centred group × Cornered group }
    ensures { Trial pic.now width height table group (meaning result.fit) × Remembers pic.now width height result.setup }
{
    let known = no_setup();
    let turned = copied(table);
    let n = pic.len();
    scratch[0..n].copy_from_slice(pic);
    let fitted = refit(
        &mut scratch[0..n],
        width,
        height,
        stack,
        turned,
        group,
        known,
    );
    fitted.answer
}
