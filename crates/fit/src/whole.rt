// The operation: fit a group, for any input. A refusal, however late, leaves picture and table as at entry.
ghost use Rattle.std.specs.Prelude.{◌≡◌, ◌*◌, ◌≤◌, length, take};
ghost use Rattle.groups.specs.Group.{Centred, Cornered};
ghost use Rattle.grids.specs.Grid.{meaning};
ghost use Rattle.fourth_corner.specs.Corner.{Workable};
ghost use Rattle.fit.specs.Fit.{is_refusal, FitsWhole, FitPost};

use crate::Fitted;
use crate::group::from_group;
use crate::ladder::fittable;
use grids::SkewedGridLocation;
use groups::CapStoneGroup;
use refusals::Refusal;
use table::Table;

// Whether a group is refused.
fn is_refused(fit: Result<Option<SkewedGridLocation>, Refusal>) -> bool
    ensures { result ≡ is_refusal (meaning fit) }
{
    match fit {
        Ok(Some(_)) => false,
        Ok(None) => false,
        Err(_) => true,
    }
}

// Puts back what the scratch keeps.
fn put_back(pic: &mut [u8], scratch: &[u8])
    requires { length pic.old ≤ length scratch.now }
    ensures { pic.new ≡ take (length pic.old) scratch.now }
{
    let n = pic.len();
    pic.copy_from_slice(&scratch[0..n]);
}

// Fits a group on a picture that is kept in the scratch: where its steps refuse, the picture is put back.
fn fit_kept(
    pic: &mut [u8],
    width: usize,
    height: usize,
    stack: &mut [u32],
    scratch: &mut [u8],
    table: Table,
    group: CapStoneGroup,
) -> Fitted
    requires { Workable pic.old width height (length stack.old) table × (width * height ≤ length scratch.old) × Centred group × Cornered group }
    ensures { FitsWhole pic.old width height table group (meaning result.fit) pic.new result.table }
{
    let n = pic.len();
    scratch[0..n].copy_from_slice(pic);
    let fitted = from_group(pic, width, height, stack, table, group);
    let fit = fitted.fit;
    if is_refused(fit) {
        put_back(pic, scratch);
        return Fitted {
            fit: fit,
            table: table,
        };
    }
    fitted
}

// Fits a group of stones: 1, 2, 3, 9, 12, then as its steps meet them. The table goes in and comes back.
pub fn fit_group(
    pic: &mut [u8],
    width: usize,
    height: usize,
    stack: &mut [u32],
    scratch: &mut [u8],
    table: Table,
    group: CapStoneGroup,
) -> Fitted
    ensures { FitPost pic.old width height (length stack.old) (length scratch.old) table group (meaning result.fit) pic.new result.table }
{
    match fittable(
        width,
        height,
        pic.len(),
        stack.len(),
        scratch.len(),
        table,
        group,
    ) {
        Err(why) => Fitted {
            fit: Err(why),
            table: table,
        },
        Ok(()) => fit_kept(pic, width, height, stack, scratch, table, group),
    }
}
