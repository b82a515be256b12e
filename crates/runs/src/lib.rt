// The run test: whether five runs of a line, dark and light by turns, look like a cut through a finder mark (detect.rs, `test_for_capstone`).
#![tactic(auto)]

ghost use Rattle.std.specs.Prelude.{◌≡◌, ◌≤◌, ◌*◌};
ghost use Rattle.runs.specs.Mark.{Short, average, near, mark_like};

fn average_of(runs: [usize; 5]) -> usize
    requires { Short runs }
    ensures { (result ≡ average runs) × (result ≤ 800) }
{
    (runs[0] + runs[1] + runs[3] + runs[4]) / 4
}

// Whether a run is within err of what it should be.
fn is_near(run: usize, should: usize, err: usize) -> bool
    requires { (err ≤ should) × (should ≤ 2400) }
    ensures { result ≡ near run should err }
{
    should - err <= run && run <= should + err
}

// Whether the runs are near 1, 1, 3, 1, 1 times their average. The middle one is tested first: it is the one that fails most often.
pub fn is_mark_like(runs: [usize; 5]) -> bool
    requires { Short runs }
    ensures { result ≡ mark_like runs }
{
    let avg = average_of(runs);
    let err = avg * 3 / 4;
    is_near(runs[2], 3 * avg, err)
        && is_near(runs[0], avg, err)
        && is_near(runs[1], avg, err)
        && is_near(runs[3], avg, err)
        && is_near(runs[4], avg, err)
}
