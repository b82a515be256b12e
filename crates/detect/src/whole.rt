// The operation: detect, for any input. A refusal, however late, leaves picture and table as at entry.
ghost use Rattle.std.specs.Prelude.{◌≡◌, length};
ghost use Rattle.refusals.specs.First.{first, sound};
ghost use Rattle.detect.specs.Telling.{outcome, LaidOut};
ghost use Rattle.detect.specs.Detect.{detect_tests, DetectsWhole, DetectPost};

use crate::Detection;
use crate::ladder::detectable;
use crate::stages::find;
use rollback::blacken;
use table::Table;

// Detects on a bitmap that passes the tests: where a stage refuses, the paint is taken off, and the table is the one at entry.
fn detect_kept(
    pic: &mut [u8],
    width: usize,
    height: usize,
    stack: &mut [u32],
    scratch: &mut [u8],
    table: Table,
) -> Detection
    requires { first (detect_tests pic.old width height (length stack.old) (length scratch.old)) sound ≡ sound }
    ensures { DetectsWhole pic.old width height table (outcome result.findings) pic.new result.table × LaidOut result.findings }
{
    let done = find(pic, width, height, stack, scratch);
    match done.findings {
        Err(why) => {
            blacken(pic);
            Detection {
                findings: Err(why),
                table: table,
            }
        }
        Ok(_) => done,
    }
}

// Finds the stones and the grids of a bitmap: 1, 2, 3, 4, then as its stages meet them. It starts from the empty table, whatever the table at entry holds.
pub fn detect(
    pic: &mut [u8],
    width: usize,
    height: usize,
    stack: &mut [u32],
    scratch: &mut [u8],
    table: Table,
) -> Detection
    ensures { DetectPost pic.old width height (length stack.old) (length scratch.old) table (outcome result.findings) pic.new result.table × LaidOut result.findings }
{
    match detectable(pic, width, height, stack.len(), scratch.len()) {
        Err(why) => Detection {
            findings: Err(why),
            table: table,
        },
        Ok(()) => detect_kept(pic, width, height, stack, scratch, table),
    }
}
