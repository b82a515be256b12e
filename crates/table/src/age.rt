ghost use Rattle.std.specs.Prelude.{◌≡◌, ◌∷◌, ◌≤◌, ◌<◌, length, take};
ghost use Rattle.table.specs.Age.{Stands, FirstAt, left_out};
ghost use Rattle.table.specs.Sound.{once_each};

// The place at which k stands first.
pub fn place_of(age: &[u8], k: u8) -> usize
    requires { Stands k age.now }
    ensures { FirstAt k result age.now }
{
    age.iter().position(|x| *x == k).unwrap()
}

// Puts k in front, for what stands at place i: those before it go one place on.
pub fn put_first(age: &mut [u8], i: usize, k: u8)
    requires { i < length age.old }
    ensures { age.new ≡ k ∷ left_out i age.old }
{
    age.copy_within(0..i, 1);
    age[0] = k;
}

// Whether the first n of an age order list 0..n-1, once each.
pub fn once_each(age: &[u8], n: usize) -> bool
    requires { (n ≤ length age.now) × (n ≤ 256) }
    ensures { result ≡ once_each n (take n age.now) }
{
    let mut seen = [false; 256];
    for i in (0..n).rev() {
        let k = age[i] as usize;
        if n <= k {
            return false;
        }
        if seen[k] {
            return false;
        }
        seen[k] = true;
    }
    true
}
