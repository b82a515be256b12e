// What is found in the bitmap that was read, and its text.
ghost use Rattle.std.specs.Prelude.{◌*◌, ◌≤◌, ◌≡◌, length, take};
ghost use Rattle.netpbm.specs.Form.{most_pixels};
ghost use Rattle.detect.specs.Telling.{outcome};
ghost use Rattle.listing.specs.Listing.{Few};
ghost use Rattle.locate.specs.Read.{Read};
ghost use Rattle.locate.specs.Prints.{Tells, Answers};

use crate::room;
use detect::{Findings, detect};
use listing::put_findings;
use netpbm::Sides;
use refusals::Refusal;
use report::put_refused;
use table::empty;

// An entry a pixel, for the fills.
fn stack_room() -> [u32; 16384]
    ensures { length result ≡ most_pixels }
{
    [0u32; 16384]
}

// Looks for symbols in a bitmap with these sides, whose pixels are the first of the room.
fn find(pixels: &mut [u8], width: usize, height: usize) -> Result<Findings, Refusal>
    requires { (length pixels.old ≡ most_pixels) × (width * height ≤ most_pixels) }
    ensures { Tells (record { width = width; height = height; pixels = take (width * height) pixels.old }) (outcome result) × Few result }
{
    let mut stack = stack_room();
    let mut scratch = room();
    let n = width * height;
    let done = detect(
        &mut pixels[..n],
        width,
        height,
        &mut stack,
        &mut scratch,
        empty(),
    );
    done.findings
}

// The text of what is found, or of refusal 17.
pub fn answer(input: Option<Sides>, pixels: &mut [u8], out: &mut [u8]) -> usize
    requires { Read pixels.old input × (length pixels.old ≡ most_pixels) × (7374 ≤ length out.old) }
    ensures { Answers pixels.old input (take result out.new) × (result ≤ length out.new) }
{
    match input {
        Some(sides) => put_findings(find(pixels, sides.width, sides.height), out),
        None => put_refused(u8::from(Refusal::File), out, 0),
    }
}
