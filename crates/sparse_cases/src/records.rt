// Records and inputs, from and to numbers. A record is its flag and its job: the input, the lengths, the
// counts and the cursor (a kind and three numbers). An input is GRID MIN MAX COUNT, 12 numbers, and five numbers
// for each of 64 parts.
ghost use Rattle.std.specs.Prelude.{◌≡◌, ◌++◌, drop, length, slice_index, take};
ghost use Rattle.arrayvec.specs.ArrayVec.{array_vec_len};
ghost use Rattle.cases.specs.Answer.{flag_of};
ghost use Rattle.sparse_cases.specs.Calls.{call_numbers, count_numbers, cursor_numbers, length_numbers};

use cases::{Answer, Numbers, Written};
use causes::Cause;
use grid::{Grid, GridCounts};
use input::{Band, Input, Lengths};
use model::{ImplicitModel, ModelComponent, Part};
use schedule::{Counts, Cursor, Job};

// How many numbers a record is.
pub const RECORD_NUMBERS: usize = 347;

// GRID MIN MAX COUNT: the input with these parts.
pub fn input_of(numbers: &mut Numbers, parts: [ModelComponent; 64]) -> Input {
    Input {
        grid: numbers.grid(),
        band: Band {
            min: numbers.float(),
            max: numbers.float(),
        },
        model: ImplicitModel {
            parts,
            count: numbers.short(),
        },
    }
}

fn counts_of(numbers: &mut Numbers) -> Counts {
    Counts {
        grid: GridCounts {
            nodes: numbers.number(),
            active: numbers.number(),
        },
        leaves: numbers.number(),
        sampled: numbers.number(),
        evaluations: numbers.number(),
    }
}

// A cursor: 0 is the end, 1 a corner, any other kind a point.
fn cursor_of(numbers: &mut Numbers) -> Cursor {
    let kind = numbers.number();
    let a = numbers.place();
    let b = numbers.place();
    let c = numbers.place();
    match kind {
        0 => Cursor::End,
        1 => Cursor::Corner(a, b),
        _ => Cursor::Point(a, b, c),
    }
}

// The job of a record, from the numbers after its flag.
pub fn job_of(mut numbers: Numbers) -> Job {
    let grid = numbers.grid();
    let min = numbers.float();
    let max = numbers.float();
    let count = numbers.short();
    let mut parts = [ModelComponent {
        part: Part::Constant(0.0),
    }; 64];
    numbers.parts(&mut parts);
    Job {
        input: Input {
            grid,
            band: Band { min, max },
            model: ImplicitModel { parts, count },
        },
        lengths: numbers.lengths(),
        counts: counts_of(&mut numbers),
        cursor: cursor_of(&mut numbers),
    }
}

fn length_numbers(lengths: Lengths) -> [u64; 5]
    ensures { result ≡ length_numbers lengths }
{
    [
        lengths.kinds as u64,
        lengths.numbers as u64,
        lengths.places as u64,
        lengths.store as u64,
        lengths.corners as u64,
    ]
}

fn count_numbers(counts: Counts) -> [u64; 5]
    ensures { result ≡ count_numbers counts }
{
    [
        counts.grid.nodes,
        counts.grid.active,
        counts.leaves,
        counts.sampled,
        counts.evaluations,
    ]
}

// A cursor: 0 is the end, 1 a corner, 2 a point; and its place.
fn cursor_numbers(cursor: Cursor) -> [u64; 4]
    ensures { result ≡ cursor_numbers cursor }
{
    match cursor {
        Cursor::End => [0, 0, 0, 0],
        Cursor::Corner(a, b) => [1, a as u64, b as u64, 0],
        Cursor::Point(a, b, c) => [2, a as u64, b as u64, c as u64],
    }
}

// The numbers of an input before its parts: its grid, its band, its count of parts.
fn head_numbers(grid: Grid, band: Band, count: u32) -> Written<12>
    ensures { array_vec_len result.numbers ≡ 12 }
{
    Written::new()
        .grid(grid)
        .float(band.min)
        .float(band.max)
        .number(u64::from(count))
}

// The numbers of a record after its input: its lengths, its counts, its cursor.
fn tail_numbers(job: &Job) -> Written<14>
    ensures { result.numbers.items ≡ length_numbers job.now.lengths ++ count_numbers job.now.counts ++ cursor_numbers job.now.cursor }
{
    Written::new()
        .copied(&length_numbers(job.lengths))
        .copied(&count_numbers(job.counts))
        .copied(&cursor_numbers(job.cursor))
}

// Writes a record with this flag over the numbers of another. A record without a job has fields too,
// which may be forged.
pub fn put_record(opened: bool, job: &Job, record: &mut [u64; RECORD_NUMBERS])
    ensures flag { slice_index «record».new 0 ≡ flag_of opened }
    ensures rest { drop 333 «record».new ≡ length_numbers job.now.lengths ++ count_numbers job.now.counts ++ cursor_numbers job.now.cursor }
{
    let input = &job.input;
    record[1..13].copy_from_slice(&head_numbers(input.grid, input.band, input.model.count).numbers);
    put_parts(&job.input.model.parts, &mut record[13..333]);
    record[333..].copy_from_slice(&tail_numbers(job).numbers);
    record[0] = u64::from(opened);
}

// Writes parts, five numbers each, as far as there is room.
fn put_parts(parts: &[ModelComponent], room: &mut [u64])
    ensures { length room.new ≡ length room.old }
{
    for (component, five) in parts.iter().zip(room.chunks_exact_mut(5)) {
        five.copy_from_slice(&cases::part_numbers(component.part));
    }
}

// The head of an input, read and written anew.
fn settle_head(head: &mut [u64])
    requires { length head.old ≡ 12 }
    ensures { length head.new ≡ 12 }
{
    let mut numbers = Numbers::new(head);
    let grid = numbers.grid();
    let min = numbers.float();
    let max = numbers.float();
    let count = numbers.short();
    head.copy_from_slice(&head_numbers(grid, Band { min, max }, count).numbers);
}

// Parts, read and written anew.
fn settle_parts(parts: &mut [u64])
    ensures { length parts.new ≡ length parts.old }
{
    for five in parts.chunks_exact_mut(5) {
        let part = Numbers::new(five).part();
        five.copy_from_slice(&cases::part_numbers(part));
    }
}

// Reads a record's numbers and writes them anew, without a job: what `put_record` writes of `job_of`, in
// place. A line may have forged numbers that no record has.
pub fn settle_record(record: &mut [u64; RECORD_NUMBERS])
    ensures flag { slice_index «record».new 0 ≡ 0 }
    ensures counts { take 10 (drop 333 «record».new) ≡ take 10 (drop 333 «record».old) }
{
    settle_head(&mut record[1..13]);
    settle_parts(&mut record[13..333]);
    let cursor = cursor_of(&mut Numbers::new(&record[343..]));
    record[343..].copy_from_slice(&cursor_numbers(cursor));
    record[0] = 0;
}

// The numbers of a record with this flag.
pub fn record_numbers(opened: bool, job: &Job) -> [u64; RECORD_NUMBERS] {
    let mut record = [0; RECORD_NUMBERS];
    put_record(opened, job, &mut record);
    record
}

// What a call answers: the refusal's number, the flag, the counts, whether the cursor is at the end, and
// the cursor.
pub fn call_answer<T: Copy>(done: Result<T, Cause>, opened: bool, job: &Job) -> Answer
    ensures { result.numbers.items ≡ call_numbers done opened job.now.counts job.now.cursor }
{
    let mut answer = Answer::outcome(done).flag(opened);
    answer.put_all(&count_numbers(job.counts));
    answer.put(u64::from(matches!(job.cursor, Cursor::End)));
    answer.put_all(&cursor_numbers(job.cursor));
    answer
}
