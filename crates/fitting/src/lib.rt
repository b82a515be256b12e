// Fitting a group of stones, with the region table lent (identify/grid.rs).
#![tactic(auto)]

ghost use Rattle.std.specs.Prelude.{length};
ghost use Rattle.grids.specs.Grid.{meaning};
ghost use Rattle.fit.specs.Fit.{FitPost};

use grids::SkewedGridLocation;
use groups::CapStoneGroup;
use refusals::Refusal;
use table::Table;

// Fits a group of stones: 1, 2, 3, 9, 12, then as its steps meet them. The table that is lent holds afterwards what the fit leaves.
pub fn fit_group(
    pic: &mut [u8],
    width: usize,
    height: usize,
    stack: &mut [u32],
    scratch: &mut [u8],
    table: &mut Table,
    group: CapStoneGroup,
) -> Result<Option<SkewedGridLocation>, Refusal>
    ensures { FitPost pic.old width height (length stack.old) (length scratch.old) table.old group (meaning result) pic.new table.new }
{
    let fitted = fit::fit_group(pic, width, height, stack, scratch, *table, group);
    *table = fitted.table;
    fitted.fit
}
