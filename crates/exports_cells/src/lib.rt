// Reading a cell of a grid, for callers in C and in Rust. It asks nothing of its caller but that each pointer with its length is a slice.
#![tactic(auto)]

ghost use Rattle.std.specs.Prelude.{◌≡◌};
ghost use Rattle.cells.specs.Cell.{meaning};
ghost use Rattle.exports_cells.specs.Tells.{cell_number, cell_told};

use cells::{Cell, read_cell};
use refusals::Refusal;
use told_places::coefficients::perspective_at;

fn number_of_cell(cell: Result<Cell, Refusal>) -> u8
    ensures { result ≡ cell_number (meaning cell) }
{
    match cell {
        Ok(Cell::Dark) => 254,
        Ok(Cell::Light) => 255,
        Err(why) => u8::from(why),
    }
}

// The cell in column x of line y of a grid, whose perspective is lent as its eight coefficients: 254 where it is dark, 255 where it is light,
// else the refusal 1, 2, 16 or 13. 3 where there are fewer than eight coefficients.
#[unsafe(no_mangle)]
pub extern "C" fn elmetzhur_read_cell(
    pic: &[u8],
    width: usize,
    height: usize,
    size: u8,
    coefficients: &[f64],
    y: u8,
    x: u8,
) -> u8
    ensures { result ≡ cell_told pic.now width height size coefficients.now y x }
{
    if coefficients.len() < 8 {
        return 3;
    }
    let c = perspective_at(coefficients, 0);
    let cell = read_cell(pic, width, height, size, c, y, x);
    number_of_cell(cell)
}
