// The entries that a row pushes for the lines above and below it.
ghost use Rattle.std.specs.Prelude.{◌≡◌, ℕ, false, true, ◌+◌, ◌*◌, ◌-◌, ◌<◌, ◌≤◌, length, slice_index};
ghost use Rattle.pieces.specs.Picture.{pixel};
ghost use Rattle.fill.specs.Order.{seeds, above, below};
ghost use Rattle.fill.specs.Stack.{widest, held};
ghost use Rattle.fill.specs.Stretch.{past_others, past_run};
ghost use Rattle.fill.specs.Fill.{Sized};

// Pushes an entry for the column x, where it shows `from`.
fn seed_pixel(
    pic: &[u8],
    w: usize,
    y: usize,
    base: usize,
    x: usize,
    from: u8,
    stack: &mut [u32],
    sp: usize,
) -> usize
    requires base_value { (base ≡ y * w) × (base + x < length pic.now) × (x < widest) × (y < widest) }
    requires sp_in_bounds { length (seeds (λ e. pixel e y) pic.now w from y x 1 false (held stack.old sp)) ≤ length stack.old }
    ensures { held stack.new result ≡ seeds (λ e. pixel e y) pic.now w from y x 1 false (held stack.old sp) }
{
    if pic[base + x] != from {
        return sp;
    }
    stack[sp] = (y * 1024 + x) as u32;
    sp + 1
}

// The first column from x on, before `end`, whose byte passes the test, on the line that starts at base; `end` where none does.
fn first_column<F: Fn(u8) -> bool>(pic: &[u8], base: usize, x: usize, end: usize, test: F) -> usize
    requires inside { (x ≤ end) × (base + end ≤ length pic.now) }
    requires callable { F.IsAlwaysCallable test }
    ensures within { (x ≤ result) × (result ≤ end) }
    ensures before { (k : ℕ) → x ≤ k → k < result → F.post test (slice_index pic.now (base + k)) false }
    ensures shown { result < end → F.post test (slice_index pic.now (base + result)) true }
{
    for k in x..end {
        if test(pic[base + k]) {
            return k;
        }
    }
    end
}

// The first that shows `from`.
fn past_others(pic: &[u8], base: usize, x: usize, end: usize, from: u8) -> usize
    requires { (x ≤ end) × (base + end ≤ length pic.now) }
    ensures { result ≡ past_others pic.now base from x (end - x) }
{
    first_column(pic, base, x, end, |b| b == from)
}

// The first that shows another byte.
pub fn past_run(pic: &[u8], base: usize, x: usize, end: usize, from: u8) -> usize
    requires { (x ≤ end) × (base + end ≤ length pic.now) }
    ensures { result ≡ past_run pic.now base from x (end - x) }
{
    first_column(pic, base, x, end, |b| b != from)
}

// Pushes an entry for each of n columns from left on at which bytes `from` begin, on the line y, which starts at base. Answers the stack's new size.
pub fn seed_line(
    pic: &[u8],
    w: usize,
    y: usize,
    base: usize,
    left: usize,
    n: usize,
    from: u8,
    stack: &mut [u32],
    sp: usize,
) -> usize
    requires base_value { (base ≡ y * w) × (base + left + n ≤ length pic.now) × (left + n ≤ widest) × (y < widest) }
    requires sp_in_bounds { length (seeds (λ e. pixel e y) pic.now w from y left n false (held stack.old sp)) ≤ length stack.old }
    ensures { held stack.new result ≡ seeds (λ e. pixel e y) pic.now w from y left n false (held stack.old sp) }
{
    if n == 1 {
        return seed_pixel(pic, w, y, base, left, from, stack, sp);
    }
    let end = left + n;
    let mut top = sp;
    let mut x = past_others(pic, base, left, end, from);
    // A loop with a column of its own: each turn finds where the next bytes begin, and no list of these columns is known before.
    while x < end {
        stack[top] = (y * 1024 + x) as u32;
        top += 1;
        let past = past_run(pic, base, x + 1, end, from);
        x = past_others(pic, base, past, end, from);
    }
    top
}

// The entries for the line above the row. Above and below apart: each tests for its own end of the picture, and `seed_line` is what they share.
pub fn seed_above(
    pic: &[u8],
    w: usize,
    h: usize,
    y: usize,
    left: usize,
    n: usize,
    from: u8,
    stack: &mut [u32],
    sp: usize,
) -> usize
    requires sized { Sized pic.now w h × (y < h) × (left + n ≤ w) }
    requires sp_in_bounds { length (above w from pixel pic.now left n y (held stack.old sp)) ≤ length stack.old }
    ensures { held stack.new result ≡ above w from pixel pic.now left n y (held stack.old sp) }
{
    if y == 0 {
        return sp;
    }
    let b = y - 1;
    let base = b * w;
    seed_line(pic, w, b, base, left, n, from, stack, sp)
}

// The entries for the line below it.
pub fn seed_below(
    pic: &[u8],
    w: usize,
    h: usize,
    y: usize,
    left: usize,
    n: usize,
    from: u8,
    stack: &mut [u32],
    sp: usize,
) -> usize
    requires sized { Sized pic.now w h × (y < h) × (left + n ≤ w) }
    requires sp_in_bounds { length (below w h from pixel pic.now left n y (held stack.old sp)) ≤ length stack.old }
    ensures { held stack.new result ≡ below w h from pixel pic.now left n y (held stack.old sp) }
{
    let b = y + 1;
    if b >= h {
        return sp;
    }
    let base = b * w;
    seed_line(pic, w, b, base, left, n, from, stack, sp)
}
