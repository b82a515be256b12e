// The grid size by the count of a timing scan.
ghost use Rattle.std.specs.Prelude.{◌≡◌, ◌≤◌};
ghost use Rattle.timing.specs.Counted.{most_changes, grid_size};

// The modules along a side of the grid whose timing scan counts k changes.
pub fn grid_size(k: usize) -> usize
    requires { k ≤ most_changes }
    ensures { result ≡ grid_size k }
{
    if k < 6 {
        return 17;
    }
    (k - 2) / 4 * 4 + 17
}
