// Detect, with the region table lent (prepare.rs, `detect_grids`).
#![tactic(auto)]

ghost use Rattle.std.specs.Prelude.{length};
ghost use Rattle.detect.specs.Telling.{outcome, LaidOut};
ghost use Rattle.detect.specs.Detect.{DetectPost};

use detect::Findings;
use refusals::Refusal;
use table::Table;

// Finds the stones and the grids of a bitmap: 1, 2, 3, 4, then as its stages meet them. The table that is lent holds afterwards what the stages leave, and after a refusal what it held.
pub fn detect(
    pic: &mut [u8],
    width: usize,
    height: usize,
    stack: &mut [u32],
    scratch: &mut [u8],
    table: &mut Table,
) -> Result<Findings, Refusal>
    ensures { DetectPost pic.old width height (length stack.old) (length scratch.old) table.old (outcome result) pic.new table.new × LaidOut result }
{
    let found = detect::detect(pic, width, height, stack, scratch, *table);
    *table = found.table;
    found.findings
}
