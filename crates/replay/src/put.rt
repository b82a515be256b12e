// Bytes into a lent slice, at a place that moves on; what does not fit is left out.
use fill::paint::Counts;
use picture::PixelColor;
use refusals::Refusal;
use regions::{ColoredRegion, Region};
use table::{Entry, Table};

pub fn byte(out: &mut [u8], at: usize, value: u8) -> usize {
    if at < out.len() {
        out[at] = value;
        return at + 1;
    }
    at
}

// A number's four lowest bytes, the lowest first.
pub fn word(out: &mut [u8], at: usize, value: usize) -> usize {
    let a = byte(out, at, (value % 256) as u8);
    let b = byte(out, a, (value / 256 % 256) as u8);
    let c = byte(out, b, (value / 65536 % 256) as u8);
    byte(out, c, (value / 16777216 % 256) as u8)
}

// A kind and three numbers: what each call answers.
fn answer(out: &mut [u8], at: usize, kind: u8, a: usize, b: usize, c: usize) -> usize {
    let first = byte(out, at, kind);
    let second = word(out, first, a);
    let third = word(out, second, b);
    word(out, third, c)
}

fn color(c: PixelColor) -> usize {
    match c {
        PixelColor::White => 0,
        PixelColor::Black => 1,
        PixelColor::CapStone => 2,
        PixelColor::Alignment => 3,
        PixelColor::Tmp1 => 4,
        PixelColor::Discarded(_) => 5,
    }
}

fn region(out: &mut [u8], at: usize, r: Region) -> usize {
    let e = r.entry;
    let seed = (e.y as usize) * 65536 + (e.x as usize);
    answer(out, at, 1, r.number as usize, seed, e.px as usize)
}

// What a lookup answered: 0 and a claimed piece's colour; 1 with an unclaimed one's number, seed and count; or 2 and a refusal.
pub fn looked(out: &mut [u8], at: usize, found: Result<ColoredRegion, Refusal>) -> usize {
    match found {
        Ok(ColoredRegion::Claimed(c)) => answer(out, at, 0, color(c), 0, 0),
        Ok(ColoredRegion::Unclaimed(r)) => region(out, at, r),
        Err(why) => answer(out, at, 2, u8::from(why) as usize, 0, 0),
    }
}

fn counts(out: &mut [u8], at: usize, c: Counts) -> usize {
    answer(out, at, 3, c.rows, c.pixels, c.pushes)
}

// What a claim answered: 3 with its counts, or 2 and a refusal.
pub fn claimed(out: &mut [u8], at: usize, found: Result<Counts, Refusal>) -> usize {
    match found {
        Ok(c) => counts(out, at, c),
        Err(why) => answer(out, at, 2, u8::from(why) as usize, 0, 0),
    }
}

fn entry(out: &mut [u8], at: usize, e: Entry) -> usize {
    let x = word(out, at, e.x as usize);
    let y = word(out, x, e.y as usize);
    word(out, y, e.px as usize)
}

// The table's count, and for each place its age and its entry.
pub fn table(out: &mut [u8], at: usize, t: Table) -> usize {
    let n = t.n;
    let mut next = byte(out, at, (n % 256) as u8);
    if n > 251 {
        return next;
    }
    for k in 0..n {
        let aged = byte(out, next, t.age[k]);
        next = entry(out, aged, t.entries[k]);
    }
    next
}

// The picture.
pub fn picture(out: &mut [u8], at: usize, pic: &[u8]) -> usize {
    let mut next = at;
    for &value in pic {
        next = byte(out, next, value);
    }
    next
}
