// A ranking into a lent slice.
ghost use Rattle.std.specs.Prelude.{◌≡◌, [], ◌∷◌, ◌+◌, ◌≤◌, length, set};
ghost use Rattle.told_places.specs.Put.{put_at};
ghost use Rattle.exports_ranking.specs.Ranks.{all_pairs, status_of, count_put};

use match_capstones::Pair;
use refusals::Refusal;

// A pair's two indices, from a place on.
fn put_pair(pair: Pair, at: usize, out: &mut [usize])
    requires { at + 2 ≤ length out.old }
    ensures { out.new ≡ put_at out.old at (pair.h ∷ pair.v ∷ []) }
{
    out[at] = pair.h;
    out[at + 1] = pair.v;
}

// All 992 pairs of an array.
pub fn put_pairs(pairs: [Pair; 992], out: &mut [usize])
    requires { 1984 ≤ length out.old }
    ensures { out.new ≡ all_pairs pairs out.old }
{
    for k in 0..992 {
        let pair = pairs[k];
        put_pair(pair, k * 2, out);
    }
}

// How many pairs there are.
fn put_count(count: usize, out: &mut [usize]) -> u8
    requires { 1985 ≤ length out.old }
    ensures { (out.new ≡ set out.old 1984 count) × (result ≡ 0) }
{
    out[1984] = count;
    0
}

// The answer: how many pairs there are, or a refusal's number.
pub fn put_answer(answer: Result<usize, Refusal>, out: &mut [usize]) -> u8
    requires { 1985 ≤ length out.old }
    ensures { (out.new ≡ count_put answer out.old) × (result ≡ status_of answer) }
{
    match answer {
        Ok(count) => put_count(count, out),
        Err(why) => u8::from(why),
    }
}
