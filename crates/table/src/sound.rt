ghost use Rattle.std.specs.Prelude.{◌≡◌, ◌≤◌};
ghost use Rattle.table.specs.Sound.{inside, all_inside, sound_test};

use crate::age::once_each;
use crate::{Entry, Table};

// Whether an entry's seed is in the picture.
fn entry_inside(e: Entry, width: usize, height: usize) -> bool
    ensures { result ≡ inside e width height }
{
    let x = e.x as usize;
    if x >= width {
        return false;
    }
    let y = e.y as usize;
    y < height
}

// Whether the seeds of the first n entries are in the picture.
fn all_inside(t: Table, n: usize, width: usize, height: usize) -> bool
    requires { n ≤ 251 }
    ensures { result ≡ all_inside t.entries n width height }
{
    t.entries[..n]
        .iter()
        .all(|e| entry_inside(*e, width, height))
}

// Whether a table of a caller's can be worked with: the test of refusal 9.
pub fn is_sound(t: Table, width: usize, height: usize) -> bool
    ensures { result ≡ sound_test t width height }
{
    let n = t.n;
    if n > 251 {
        return false;
    }
    let age = t.age;
    if !once_each(&age, n) {
        return false;
    }
    all_inside(t, n, width, height)
}
