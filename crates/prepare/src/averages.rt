ghost use Rattle.std.specs.Prelude.{◌≡◌, ◌+◌, ◌-◌, ◌*◌, ◌/◌, ◌^◌, ◌≤◌, ◌<◌};
ghost use Rattle.prepare.specs.Run.{Ready, Kept, ends_of};

// The averages at the end of a row: the one that ran from the left, and the one that ran from the right.
#[derive(Clone, Copy)]
pub struct Ends {
    pub left: u64,
    pub right: u64,
}

// 2^32 x (s - 1) / s, rounded up.
fn reciprocal(s: u64) -> u64
    requires { (1 ≤ s) × (s ≤ 100) }
    ensures { result ≡ (s - 1) * (2 ^ 32 + 1) / s }
{
    (s - 1) * 4294967297 / s
}

// An average, one pixel on: a product with the reciprocal stands for the division by s.
fn next(average: u64, k: u64, pixel: u8) -> u64
    requires { (average < 2 ^ 16) × (k < 2 ^ 32) }
    ensures { result ≡ average * k / 2 ^ 32 + pixel }
{
    (average * k >> 32) + pixel as u64
}

// Runs both averages along a row, one from each end, and keeps what they are at each column.
pub fn run(row: &[u8], s: u16, left: u64, right: u64, lefts: &mut [u16], rights: &mut [u16]) -> Ends
    requires { Ready s left right row.now lefts.old rights.old }
    ensures { (result ≡ ends_of s left right row.now) × Kept s left right row.now lefts.new rights.new }
{
    let k = reciprocal(s as u64);
    let mut a = left;
    let mut b = right;
    for x in 0..row.len() {
        let r = row.len() - 1 - x;
        a = next(a, k, row[x]);
        b = next(b, k, row[r]);
        lefts[x] = a as u16;
        rights[r] = b as u16;
    }
    Ends { left: a, right: b }
}
