// Rankings: the number of stones, the index, how many stones are listed, and for each its centre and its perspective; then the number of the refusal, or
// 0, the number of pairs, and the pairs.
use crate::checks::{Check, expect, expect_refusal, has_ended, start};
use crate::stones::read_seen;
use crate::words::{Here, read_word};
use capstones::{CapStone, blanks};
use match_capstones::{Pair, find_and_rank_possible_neighbors};

// The stones that stand here; those that are not listed are blank.
fn read_stones(text: &[u8], at: usize, listed: u64) -> Here<[CapStone; 64]> {
    let mut stones = blanks();
    let mut next = at;
    for stone in stones.iter_mut().take(listed as usize) {
        let here = read_seen(text, next);
        *stone = here.value;
        next = here.next;
    }
    Here {
        value: stones,
        next: next,
    }
}

// The next words are to say so many pairs.
fn expect_pairs(text: &[u8], check: Check, pairs: [Pair; 992], n: usize) -> Check {
    let found = expect(text, check, 0);
    let mut now = expect(text, found, n as u64);
    for pair in pairs.iter().take(n) {
        let h = expect(text, now, pair.h as u64);
        now = expect(text, h, pair.v as u64);
    }
    now
}

// Whether a ranking answers as recorded.
pub fn same_rank(text: &[u8]) -> bool {
    let n = read_word(text, 0);
    let idx = read_word(text, n.next);
    let listed = read_word(text, idx.next);
    let seen = read_stones(text, listed.next, listed.value);
    let stones = seen.value;
    let ranked = find_and_rank_possible_neighbors(stones, n.value as usize, idx.value as usize);
    let pairs = ranked.pairs;
    let answer = ranked.answer;
    let at = start(seen.next);
    match answer {
        Ok(count) => has_ended(text, expect_pairs(text, at, pairs, count)),
        Err(why) => has_ended(text, expect_refusal(text, at, why)),
    }
}
