// The text of a job, read line by line.
ghost use Rattle.std.specs.Prelude.{◌≡◌, ◌≤◌, map, take, IfOk, IfErr};
ghost use Rattle.forms.specs.Forms.{piece_of, fields, off, line as form_line, read_form};
ghost use Rattle.job_text.specs.Lines.{limit};
ghost use Rattle.job_text.specs.Parts.{word};
ghost use Rattle.job_text.specs.Reading.{read_parts, grid_of, band_of, read_text, reading_of};
ghost use Rattle.job_text.specs.Inner.TextAnswers.{model_reading};

use crate::parts::{part_line, part_of, pattern_of, point};
use crate::{Job, LIMIT, OffForm};
use forms::Line;
use geometry::BoundingBox;
use grid::Grid;
use input::{Band, Input};
use model::{ImplicitModel, ModelComponent, Part};

// The grid of a text's first three lines.
fn grid_of(bounds: [u64; 6], cell: [u64; 1], blocks: [u64; 2]) -> Grid
    requires inner { word blocks 0 ≤ limit }
    requires leaf { word blocks 1 ≤ limit }
    ensures { result ≡ grid_of bounds cell blocks }
{
    let [x, y, z, u, v, w] = bounds;
    let [size] = cell;
    let [inner, leaf] = blocks;
    Grid {
        bounds: BoundingBox {
            min: point(x, y, z),
            max: point(u, v, w),
        },
        cell: float::from_bits(size),
        inner: inner as u32,
        leaf: leaf as u32,
    }
}

// The band of a text's fourth line.
fn band_of(band: [u64; 2]) -> Band
    ensures { result ≡ band_of band }
{
    let [min, max] = band;
    Band {
        min: float::from_bits(min),
        max: float::from_bits(max),
    }
}

// The part lines to the end of a text, with the grid and the band read before them. Kept: the
// arrays and their count are the model's own, in fixed memory; a `for` over the 64 places would end
// in two ways.
fn read_model(text: &[u8], grid: Grid, band: Band) -> Result<Job, OffForm>
    ensures { result ≡ model_reading grid band (read_parts 64 5 text.now) }
{
    let none = ModelComponent {
        part: Part::Constant(0.0),
    };
    let mut parts = [none; 64];
    let mut patterns = [0; 64];
    let mut count = 0;
    let mut rest = text;
    while !rest.is_empty() {
        if count >= 64 {
            return Err(OffForm { line: 69 });
        }
        let line = part_line(rest).ok_or(OffForm { line: 5 + count })?;
        let i = count as usize;
        parts[i] = ModelComponent {
            part: part_of(line.kind, line.numbers),
        };
        patterns[i] = pattern_of(line.kind, line.numbers);
        count += 1;
        rest = line.rest;
    }
    let model = ImplicitModel { parts, count };
    let input = Input { grid, band, model };
    Ok(Job { input, patterns })
}

// The line of a form at the front of a text, or its number where it is off the form.
fn read_line<'a, const N: usize>(
    text: &'a [u8],
    form: &[u8],
    line: u32,
) -> Result<Line<'a, N>, OffForm>
    requires { fields (map piece_of form.now) ≤ N }
    ensures ok { let count = fields (map piece_of form.now) in
        IfOk result (λ l. form_line (take count l.numbers) l.rest.now
        ≡ read_form limit (map piece_of form.now) text.now) }
    ensures off { IfErr result (λ e. (e ≡ record { line = line })
        × (off ≡ read_form limit (map piece_of form.now) text.now)) }
{
    match forms::read_form(text, form, LIMIT) {
        Some(read) => Ok(read),
        None => Err(OffForm { line }),
    }
}

// What a text is read as, or the first line that is off its form.
pub fn read_job(text: &[u8]) -> Result<Job, OffForm>
    ensures { result ≡ reading_of (read_text text.now) }
{
    let bounds = read_line(text, b"(bounds (min H H H) (max H H H))\n", 1)?;
    let cell = read_line(bounds.rest, b"(cell H)\n", 2)?;
    let sizes = read_line(cell.rest, b"(blocks D D)\n", 3)?;
    let limits = read_line(sizes.rest, b"(band H H)\n", 4)?;
    let grid = grid_of(bounds.numbers, cell.numbers, sizes.numbers);
    read_model(limits.rest, grid, band_of(limits.numbers))
}
