// A record in four arrays: 18 words, the model's codes and inputs, nine settings, the model's numbers.
// Reading takes any arrays. Those with a flag that no record has read as a job that step refuses by 8.
// Kept: the parameters, arrays with a count beside them too, are what C lends.
ghost use Rattle.std.specs.Prelude.{◌≡◌, Some};
ghost use Rattle.field_host.specs.NoJob.{no_job};
ghost use Rattle.field_host.specs.Carried.{carried_of, decoded, encoded, fits};
ghost use Rattle.field_host.specs.Carried.{lengths_given, counts_given, cursor_given, job_given};
ghost use Rattle.field_host.specs.Carried.{cursor_of, cursor_words, words_of, settings_of};

use crate::given::input_given;
use geometry::{BoundingBox, Vec3};
use grid::{Grid, GridCounts};
use input::{Band, Input, Lengths};
use model::{ImplicitModel, ModelComponent, Part};
use schedule::{Counts, Cursor, Job};

// Whether the words are those of some record: a flag of 0 or 1, block sizes and a count of 32 bits, one
// of three cursors.
#[tactic(auto, unfolding(crate::specs::Carried::fits))]
pub fn words_fit(words: &[u64; 18]) -> bool
    ensures { result ≡ fits words.now }
{
    words[0] < 2
        && words[1] < 4294967296
        && words[2] < 4294967296
        && words[3] < 4294967296
        && words[14] < 3
}

// The slice lengths in the words.
fn lengths_given(words: &[u64; 18]) -> Lengths
    ensures { result ≡ lengths_given words.now }
{
    Lengths {
        kinds: words[4] as usize,
        numbers: words[5] as usize,
        places: words[6] as usize,
        store: words[7] as usize,
        corners: words[8] as usize,
    }
}

// The counts in the words.
pub fn counts_given(words: &[u64; 18]) -> Counts
    ensures { result ≡ counts_given words.now }
{
    Counts {
        grid: GridCounts {
            nodes: words[9],
            active: words[10],
        },
        leaves: words[11],
        sampled: words[12],
        evaluations: words[13],
    }
}

// The cursor of a tag and three places.
fn cursor_of(tag: u64, node: u64, place: u64, point: u64) -> Cursor
    ensures { result ≡ cursor_of tag node place point }
{
    match tag {
        0 => Cursor::End,
        1 => Cursor::Corner(node as usize, place as usize),
        _ => Cursor::Point(node as usize, place as usize, point as usize),
    }
}

// The cursor in the words.
pub fn cursor_given(words: &[u64; 18]) -> Cursor
    ensures { result ≡ cursor_given words.now }
{
    cursor_of(words[14], words[15], words[16], words[17])
}

// What words that no record has read as: a job of an input that cause 1 refuses. Every number is 0.
fn no_job() -> Job
    ensures { result ≡ no_job }
{
    let zero = Vec3::new(0.0, 0.0, 0.0);
    let grid = Grid {
        bounds: BoundingBox::new(zero, zero),
        cell: 0.0,
        inner: 0,
        leaf: 0,
    };
    let none = ModelComponent {
        part: Part::Constant(0.0),
    };
    let model = ImplicitModel {
        parts: [none; 64],
        count: 0,
    };
    Job {
        input: Input {
            grid,
            band: Band { min: 0.0, max: 0.0 },
            model,
        },
        lengths: Lengths {
            kinds: 0,
            numbers: 0,
            places: 0,
            store: 0,
            corners: 0,
        },
        counts: Counts {
            grid: GridCounts {
                nodes: 0,
                active: 0,
            },
            leaves: 0,
            sampled: 0,
            evaluations: 0,
        },
        cursor: Cursor::End,
    }
}

// The job of an input and the words' other numbers.
fn job_given(input: Input, words: &[u64; 18]) -> Job
    ensures { result ≡ job_given input words.now }
{
    Job {
        input,
        lengths: lengths_given(words),
        counts: counts_given(words),
        cursor: cursor_given(words),
    }
}

// Reads a record. Without a job the first word is 0, whatever the arrays hold.
#[tactic(auto, unfolding(crate::specs::Carried::decoded))]
pub fn decode(
    words: &[u64; 18],
    parts: &[u32; 192],
    settings: &[f64; 9],
    reals: &[f64; 256],
) -> Option<Job>
    ensures { result ≡ decoded (carried_of words.now parts.now settings.now reals.now) }
{
    if words[0] == 0 {
        return None;
    }
    if !words_fit(words) {
        return Some(no_job());
    }
    let input = input_given(
        settings,
        words[1] as u32,
        words[2] as u32,
        parts,
        reals,
        words[3] as u32,
    );
    Some(job_given(input, words))
}

// A cursor's tag and its three places, 0 where it has none.
pub fn cursor_words(cursor: Cursor) -> [u64; 4]
    ensures { result ≡ cursor_words cursor }
{
    match cursor {
        Cursor::End => [0, 0, 0, 0],
        Cursor::Corner(v, i) => [1, v as u64, i as u64, 0],
        Cursor::Point(v, c, p) => [2, v as u64, c as u64, p as u64],
    }
}

// Writes a job's words.
fn put_words(job: &Job, words: &mut [u64; 18])
    ensures { words.new ≡ words_of job.now }
{
    let grid = job.input.grid;
    let l = job.lengths;
    let c = job.counts;
    let at = cursor_words(job.cursor);
    *words = [
        1,
        u64::from(grid.inner),
        u64::from(grid.leaf),
        u64::from(job.input.model.count),
        l.kinds as u64,
        l.numbers as u64,
        l.places as u64,
        l.store as u64,
        l.corners as u64,
        c.grid.nodes,
        c.grid.active,
        c.leaves,
        c.sampled,
        c.evaluations,
        at[0],
        at[1],
        at[2],
        at[3],
    ];
}

// Writes an input's settings.
fn put_settings(input: &Input, settings: &mut [f64; 9])
    ensures { settings.new ≡ settings_of input.now }
{
    let grid = input.grid;
    let bounds = grid.bounds;
    let p = bounds.min;
    let q = bounds.max;
    let band = input.band;
    *settings = [p.x, p.y, p.z, q.x, q.y, q.z, grid.cell, band.min, band.max];
}

// Writes a job.
fn put_job(
    job: &Job,
    words: &mut [u64; 18],
    parts: &mut [u32; 192],
    settings: &mut [f64; 9],
    reals: &mut [f64; 256],
)
    ensures { carried_of words.new parts.new settings.new reals.new ≡ encoded (Some job.now) }
{
    put_words(job, words);
    put_settings(&job.input, settings);
    model::lay_out(&job.input.model, parts, reals);
}

// Writes a record. Without a job every number is 0.
#[tactic(auto, unfolding(crate::specs::Carried::encoded))]
pub fn encode(
    job: &Option<Job>,
    words: &mut [u64; 18],
    parts: &mut [u32; 192],
    settings: &mut [f64; 9],
    reals: &mut [f64; 256],
)
    ensures { carried_of words.new parts.new settings.new reals.new ≡ encoded job.now }
{
    match job {
        Some(job) => put_job(job, words, parts, settings, reals),
        None => {
            *words = [0; 18];
            *parts = [0; 192];
            *settings = [0.0; 9];
            *reals = [0.0; 256];
        }
    }
}
