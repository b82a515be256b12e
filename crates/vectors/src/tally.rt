// How many cases of each kind were compared, and how many differ.
use std::{fmt, io};

// The kinds of case, in the order in which they are written.
#[derive(Clone, Copy, Debug, PartialEq, Eq)]
pub enum Kind {
    Prepare,
    PrepareNarrow,
    Accept,
    Claim,
    Run,
    FullRun,
    Rank,
    Fit,
    Cells,
    OneGrid,
    SeveralGrids,
    NoGrid,
    NineByNine,
    Refused,
    Unknown,
}

// The kind whose cases start with this letter.
impl From<u8> for Kind {
    fn from(letter: u8) -> Self {
        match letter {
            b'p' => Kind::Prepare,
            b'w' => Kind::PrepareNarrow,
            b'a' => Kind::Accept,
            b'c' => Kind::Claim,
            b'l' => Kind::Run,
            b's' => Kind::FullRun,
            b'r' => Kind::Rank,
            b'f' => Kind::Fit,
            b'b' => Kind::Cells,
            b'g' => Kind::OneGrid,
            b'm' => Kind::SeveralGrids,
            b'n' => Kind::NoGrid,
            b'e' => Kind::NineByNine,
            b'x' => Kind::Refused,
            _ => Kind::Unknown,
        }
    }
}

// What a kind is called.
impl fmt::Display for Kind {
    fn fmt<W: fmt::Write>(&self, f: &mut fmt::Formatter<W>) -> fmt::Result {
        f.write_str(match self {
            Kind::Prepare => "prepare",
            Kind::PrepareNarrow => "prepare, width 15 or less",
            Kind::Accept => "accept",
            Kind::Claim => "claim",
            Kind::Run => "run of lookups and claims",
            Kind::FullRun => "run of lookups, 503 x 1",
            Kind::Rank => "rank",
            Kind::Fit => "fit",
            Kind::Cells => "cells of a grid",
            Kind::OneGrid => "detect, one grid",
            Kind::SeveralGrids => "detect, several grids",
            Kind::NoGrid => "detect, no grid",
            Kind::NineByNine => "detect, 9 x 9",
            Kind::Refused => "detect, refused",
            Kind::Unknown => "of no kind",
        })
    }
}

// Every kind, in that order.
const KINDS: [Kind; 15] = [
    Kind::Prepare,
    Kind::PrepareNarrow,
    Kind::Accept,
    Kind::Claim,
    Kind::Run,
    Kind::FullRun,
    Kind::Rank,
    Kind::Fit,
    Kind::Cells,
    Kind::OneGrid,
    Kind::SeveralGrids,
    Kind::NoGrid,
    Kind::NineByNine,
    Kind::Refused,
    Kind::Unknown,
];

// A count for each kind.
#[derive(Clone, Copy)]
pub struct Tally {
    compared: [u64; 15],
    different: [u64; 15],
}

// Nothing is compared yet.
pub fn none() -> Tally {
    Tally {
        compared: [0u64; 15],
        different: [0u64; 15],
    }
}

// One more, where it does not run over.
fn one_more(n: u64) -> u64 {
    if n < 1000000000 {
        return n + 1;
    }
    n
}

// One case more of a kind.
pub fn counted(tally: Tally, kind: Kind, same: bool) -> Tally {
    let mut more = tally;
    let k = kind as usize;
    more.compared[k] = one_more(tally.compared[k]);
    if same {
        return more;
    }
    more.different[k] = one_more(tally.different[k]);
    more
}

// Writes a line for each kind that there are cases of.
pub fn show_all(rt: &impl Print, tally: Tally) -> io::Result<()> {
    for kind in KINDS {
        let compared = tally.compared[kind as usize];
        let different = tally.different[kind as usize];
        if 0 < compared {
            println!(rt; "{kind}: {compared} compared, {different} different")?;
        }
    }
    Ok(())
}
