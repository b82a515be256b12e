// The claim of a piece (`repaint_and_apply` of prepare.rs), for any input.
#![tactic(auto)]

ghost use Rattle.std.specs.Prelude.{◌≡◌, length};
ghost use Rattle.refusals.specs.First.{first, sound};
ghost use Rattle.picture.specs.Verdict.{judged};
ghost use Rattle.claim.specs.Tests.{claimable, paint_tests, claim_tests};
ghost use Rattle.claim.specs.Outcome.{Outcome, claimed};

use fill::paint::{Counts, paint_and_count};
use picture::seeded;
use refusals::Refusal;

// Whether a claim may paint with this byte.
fn is_target(target: u8) -> bool
    ensures { result ≡ claimable target }
{
    if target < 2 {
        return false;
    }
    target <= 4
}

// Whether a seed that shows this byte can be painted with the target: 8, 6, 7.
fn paintable(byte: u8, target: u8) -> Result<(), Refusal>
    ensures { judged result ≡ first (paint_tests byte target) sound }
{
    let known = is_target(target);
    if !known {
        return Err(Refusal::Target);
    }
    if byte == 0 {
        return Err(Refusal::White);
    }
    if byte == target {
        return Err(Refusal::Same);
    }
    Ok(())
}

// All tests before a claim: 1, 2, 3, 5, 8, 6, 7.
pub fn judge(
    pic: &[u8],
    width: usize,
    height: usize,
    lent: usize,
    x: usize,
    y: usize,
    target: u8,
) -> Result<(), Refusal>
    ensures { judged result ≡ first (claim_tests pic.now width height lent x y target) sound }
{
    seeded(width, height, pic.len(), lent, x, y)?;
    let line = y * width;
    paintable(pic[line + x], target)
}

// Claims the piece of (x, y): paints it with the target, over a stack that the caller lends, and answers its counts.
pub fn claim(
    pic: &mut [u8],
    width: usize,
    height: usize,
    stack: &mut [u32],
    x: usize,
    y: usize,
    target: u8,
) -> Result<Counts, Refusal>
    ensures { Outcome pic.old width height (length stack.old) x y target pic.new (claimed result) }
{
    judge(pic, width, height, stack.len(), x, y, target)?;
    Ok(paint_and_count(pic, width, height, stack, x, y, target))
}
