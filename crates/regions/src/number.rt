ghost use Rattle.std.specs.Prelude.{◌≡◌, true, false, ◌+◌, ◌*◌, ◌<◌, ◌≤◌, length};
ghost use Rattle.pieces.specs.Paint.{Paints};
ghost use Rattle.fill.specs.Fill.{Sized, Fillable};
ghost use Rattle.table.specs.Sound.{Inside};
ghost use Rattle.regions.specs.Lookup.{Measures, FilledBack};
ghost use Rattle.regions.specs.Numbers.{Choosable, Chosen, Enterable, Entered};

use fill::paint::{fill_black, paint_and_count};
use table::{Entry, place_of};

// The number that a piece has or gets, its place in the age order, and how many entries there are then.
#[derive(Clone, Copy)]
pub struct Choice {
    pub number: u8,
    pub place: usize,
    pub count: usize,
}

// Whether a byte is a claimed piece's.
pub fn is_claimed(byte: u8) -> bool
    ensures { (result ≡ true → (2 ≤ byte) × (byte ≤ 4)) × (result ≡ false → byte < 5 → byte < 2) }
{
    if byte < 2 {
        return false;
    }
    byte < 5
}

// The number of a piece by the byte that it shows: its own; for a black one the next, or in a full table the oldest.
pub fn chosen(age: &[u8], n: usize, byte: u8) -> Choice
    requires { Choosable age.now n byte }
    ensures { Chosen age.now n byte result.number result.place result.count }
{
    if byte >= 5 {
        let own = byte - 5;
        let from = place_of(age, own);
        return Choice {
            number: own,
            place: from,
            count: n,
        };
    }
    if n < 251 {
        return Choice {
            number: n as u8,
            place: n,
            count: n + 1,
        };
    }
    Choice {
        number: age[250],
        place: 250,
        count: n,
    }
}

// Gives the piece of (x, y) the number k: paints it, and answers its entry.
fn paint_number(
    pic: &mut [u8],
    width: usize,
    height: usize,
    stack: &mut [u32],
    x: usize,
    y: usize,
    k: u8,
) -> Entry
    requires { Fillable pic.old width height x y (5 + k) (length stack.old) × (k < 251) }
    ensures { Measures pic.old width height x y result × Paints pic.old width height x y (5 + k) pic.new }
{
    let counts = paint_and_count(pic, width, height, stack, x, y, 5 + k);
    let column = x as u16;
    let line = y as u16;
    let pixels = counts.pixels as u32;
    Entry {
        x: column,
        y: line,
        px: pixels,
    }
}

// Fills the piece of an entry back to black from its seed, if it still shows the entry's number k.
fn fill_back(pic: &mut [u8], width: usize, height: usize, stack: &mut [u32], entry: Entry, k: u8)
    requires { Sized pic.old width height × Inside entry width height × (width * height ≤ length stack.old) × (k < 251) }
    ensures { FilledBack pic.old width height entry k pic.new }
{
    let x = entry.x as usize;
    let y = entry.y as usize;
    let base = y * width;
    if pic[base + x] != 5 + k {
        return;
    }
    fill_black(pic, width, height, stack, x, y);
}

// The entry for the number k of the piece of (x, y): a numbered piece's old one; else the piece is painted, in a full table after the old entry's piece is filled back.
pub fn enter(
    pic: &mut [u8],
    width: usize,
    height: usize,
    stack: &mut [u32],
    x: usize,
    y: usize,
    old: Entry,
    k: u8,
    byte: u8,
    n: usize,
) -> Entry
    requires { Enterable pic.old width height (length stack.old) x y old k byte n }
    ensures { Entered pic.old width height x y old k byte n result pic.new }
{
    if byte >= 5 {
        return old;
    }
    if n < 251 {
        return paint_number(pic, width, height, stack, x, y, k);
    }
    fill_back(pic, width, height, stack, old, k);
    paint_number(pic, width, height, stack, x, y, k)
}
