// Bytes put into a buffer, one after the other. Each function answers the place after what it put.
ghost use Rattle.std.specs.Prelude.{◌+◌, ◌≤◌, [], ◌∷◌, length};
ghost use Rattle.report.specs.Puts.{Puts};

// A byte.
pub fn byte(b: u8, out: &mut [u8], at: usize) -> usize
    requires { at + 1 ≤ length out.old }
    ensures { Puts 1 (b ∷ []) out.old at out.new result }
{
    out[at] = b;
    at + 1
}

// A word.
pub fn word(text: &[u8], out: &mut [u8], at: usize) -> usize
    requires { at + length text.now ≤ length out.old }
    ensures { Puts (length text.now) text.now out.old at out.new result }
{
    let end = at + text.len();
    out[at..end].copy_from_slice(text);
    end
}
