// How much the parts of a grid that are looked at later can add to a score: 9 for a cell.
ghost use Rattle.std.specs.Prelude.{◌≡◌, ◌≤◌};
ghost use Rattle.fitness.specs.Fitness.{GridSize};
ghost use Rattle.beyond.specs.Most.{after_columns, after_lines, after_marks};

// The alignment patterns on the timing lines, for so many alignment positions, and the first mark.
pub fn after_columns(n: usize) -> usize
    requires { n ≤ 7 }
    ensures { (result ≡ after_columns n) × (result ≤ 3000) }
{
    if n < 2 {
        return 441;
    }
    (n - 2) * 450 + 441
}

// Those, and all other alignment patterns.
pub fn after_lines(n: usize) -> usize
    requires { n ≤ 7 }
    ensures { (result ≡ after_lines n) × (result ≤ 12000) }
{
    let last = after_columns(n);
    if n < 2 {
        return last;
    }
    let k = n - 1;
    k * (k * 225) + last
}

// Those, and the timing lines.
pub fn after_marks(size: usize, n: usize) -> usize
    requires fact_1 { GridSize size }
    requires fact_2 { n ≤ 7 }
    ensures { (result ≡ after_marks size n) × (result ≤ 15000) }
{
    (size - 14) * 18 + after_lines(n)
}
