#![tactic(auto)]

mod averages;
mod threshold;

ghost use Rattle.prepare.specs.Prepared.{Prepared};

use refusals::Refusal;

// A grey picture becomes black and white, in place: 1, 2.
pub fn prepare(pic: &mut [u8], width: usize, height: usize) -> Result<(), Refusal>
    ensures { Prepared width height pic.old result pic.new }
{
    picture::sides(width, height, pic.len())?;
    threshold::threshold(pic, width, height);
    Ok(())
}
