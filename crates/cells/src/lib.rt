// Reading one cell of a grid (identify/grid.rs, `BitGrid::bit`).
#![tactic(auto)]

ghost use Rattle.std.specs.Prelude.{◌≡◌, length};
ghost use Rattle.refusals.specs.First.{first};
ghost use Rattle.picture.specs.Sides.{Sized};
ghost use Rattle.geometry.specs.Map as map;
ghost use Rattle.cells.specs.Cell.{meaning, shown, cell_at, cell_of};

use geometry::Perspective;
use points::Point;
use refusals::Refusal;

// A cell: dark, where its middle is not white, or light.
#[derive(Clone, Copy)]
pub enum Cell {
    Dark,
    Light,
}

// The cell whose middle is at p.
fn cell_at(pic: &[u8], width: usize, height: usize, p: Point) -> Result<Cell, Refusal>
    requires { Sized width height (length pic.now) }
    ensures { meaning result ≡ cell_at pic.now width height p }
{
    if pixels::get_pixel_at_point(pic, width, height, p) == 0 {
        return Ok(Cell::Light);
    }
    Ok(Cell::Dark)
}

// The cell whose middle was mapped to a spot.
fn cell_of(pic: &[u8], width: usize, height: usize, spot: Option<Point>) -> Result<Cell, Refusal>
    requires { Sized width height (length pic.now) }
    ensures { meaning result ≡ shown pic.now width height (map.meaning spot) }
{
    cell_at(pic, width, height, spot.ok_or(Refusal::Unplaced)?)
}

// The cell in column x of line y, of a grid with so many cells along a side: 1, 2, 16, 13.
pub fn read_cell(
    pic: &[u8],
    width: usize,
    height: usize,
    size: u8,
    c: Perspective,
    y: u8,
    x: u8,
) -> Result<Cell, Refusal>
    ensures { meaning result ≡ cell_of pic.now width height size c y x }
{
    picture::sides(width, height, pic.len())?;
    if x >= size {
        return Err(Refusal::Index);
    }
    if y >= size {
        return Err(Refusal::Index);
    }
    let spot = c.map(x as f64 + 0.5, y as f64 + 0.5);
    cell_of(pic, width, height, spot)
}
