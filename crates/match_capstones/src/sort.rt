// Sets in the order of their scores.
ghost use Rattle.std.specs.Prelude.{◌≤◌, ◌≡◌, length, take};
ghost use Rattle.match_capstones.specs.Arrays.{Holds};
ghost use Rattle.match_capstones.specs.Order.{ranks_before, ranked};

use crate::NeighborSets;

// Whether a score ranks before another.
fn ranks_before(a: f64, b: f64) -> bool
    ensures { result ≡ ranks_before a b }
{
    a < b || (!a.is_nan() && b.is_nan())
}

// The sets in order, each inserted among those before it: the first i are in order, and the set at place j moves up to its own place.
// Sorted by hand: the library's stable sort needs an allocator, and no heap is used; an unstable one may change the order of sets that rank alike.
pub fn sorted(sets: NeighborSets) -> NeighborSets
    requires { (length sets.all ≡ 992) × (sets.n ≤ 992) }
    ensures { Holds 992 result.all result.n (ranked (take sets.n sets.all)) }
{
    let mut all = sets.all;
    let n = sets.n;
    for i in 0..n {
        let mut j = i;
        // The scores decide how far a set moves up.
        while 0 < j && ranks_before(all[j].score, all[j - 1].score) {
            all.swap(j - 1, j);
            j -= 1;
        }
    }
    NeighborSets { all, n }
}
