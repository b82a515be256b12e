// The paint taken off a bitmap again, for an operation that is refused late.
#![tactic(auto)]

ghost use Rattle.std.specs.Prelude.{◌≡◌, map};
ghost use Rattle.rollback.specs.Unpainted.{unpainted};

// A pixel's byte without its paint.
fn bare(byte: u8) -> u8
    ensures { result ≡ unpainted byte }
{
    if byte <= 1 {
        return byte;
    }
    1
}

// Makes every colour black again.
pub fn blacken(pic: &mut [u8])
    ensures { pic.new ≡ map unpainted pic.old }
{
    for b in pic.iter_mut() {
        *b = bare(*b);
    }
}
