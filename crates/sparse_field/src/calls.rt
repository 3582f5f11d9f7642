// The three calls on a sparse field's job: open, step and drop. Each works on a record and on five
// slices, and leaves the next record in its place.
ghost use Rattle.std.specs.Prelude.{◌≡◌, false, Ok, Some};
ghost use Rattle.schedule.specs.Calls.{opens, steps, drops};
ghost use Rattle.schedule.specs.Opened.{lengths_of};
ghost use Rattle.schedule.specs.Possible.{impossible};
ghost use Rattle.schedule.specs.Engine.{opened_engine, stepped_engine};
ghost use Rattle.schedule.specs.Lent.{held, SameSlices};
ghost use Rattle.sparse_field.specs.Calls.{called};
ghost use Rattle.sparse_field.specs.Inner.Parts.{start_memory};
ghost use Rattle.plans.specs.Sparse.{sparse};

use crate::{jobs, judgement};
use causes::Cause;
use engine::Standing;
use grid::SizedGrid;
use input::{Input, Lengths};
use schedule::{Cursor, Job, Slices};

// What an accepted open writes before the first event: all five slices are zeroed whole, and the kinds
// are set.
fn prepare(input: Input, slices: &mut Slices)
    requires { sparse.answer (lengths_of (held slices.old)) input ≡ Ok tt }
    ensures slices { SameSlices slices.old slices.new }
    ensures memory { held slices.new ≡ start_memory input (lengths_of (held slices.old)) }
{
    slices.zero();
    kinds::set_kinds(SizedGrid { grid: input.grid }, slices.kinds);
}

// An accepted open: the memory is prepared, and the job runs on to its first evaluation or its end.
fn opened(input: Input, lengths: Lengths, slices: &mut Slices) -> Job
    requires { (lengths ≡ lengths_of (held slices.old)) × (sparse.answer (lengths_of (held slices.old)) input ≡ Ok tt) }
    ensures slices { SameSlices slices.old slices.new }
    ensures next { Some result ≡ (opened_engine sparse input (lengths_of (held slices.old))).job }
    ensures memory { held slices.new ≡ (opened_engine sparse input (lengths_of (held slices.old))).memory }
{
    prepare(input, slices);
    let start = Standing {
        cursor: Cursor::Corner(0, 0),
        leaves: 0,
        left: 0,
    };
    let turn = engine::run_job(&input, start, slices);
    let grid = SizedGrid { grid: input.grid };
    jobs::job_at(input, lengths, grid.counts(), turn, 0)
}

// Opens a job of an input, in place of the one that it finds, whatever record that is. A refusal leaves
// the record and touches nothing.
#[tactic(auto, unfolding(schedule::specs::Engine::engine_call, schedule::specs::Engine::engine_open))]
pub fn open(record: &mut Option<Job>, input: Input, slices: &mut Slices) -> Result<(), Cause>
    ensures slices { SameSlices slices.old slices.new }
    ensures answer { result ≡ (called (opens input) «record».old (held slices.old)).answer }
    ensures next { «record».new ≡ (called (opens input) «record».old (held slices.old)).next.job }
    ensures memory { held slices.new ≡ (called (opens input) «record».old (held slices.old)).next.memory }
{
    let lengths = slices.view().lengths();
    input::open_refusal(&input, lengths)?;
    *record = Some(opened(input, lengths, slices));
    Ok(())
}

// An accepted step: the job goes on from its cursor while the budget lasts.
fn stepped(job: Job, budget: u64, slices: &mut Slices) -> Job
    requires { impossible sparse job (held slices.old) ≡ false }
    ensures slices { SameSlices slices.old slices.new }
    ensures next { Some result ≡ (stepped_engine sparse budget job (held slices.old)).job }
    ensures memory { held slices.new ≡ (stepped_engine sparse budget job (held slices.old)).memory }
{
    let counts = job.counts;
    let at = Standing {
        cursor: job.cursor,
        leaves: counts.leaves,
        left: budget,
    };
    let turn = engine::run_job(&job.input, at, slices);
    let evaluations = counts.evaluations + (budget - turn.left);
    jobs::job_at(job.input, job.lengths, counts.grid, turn, evaluations)
}

// Makes as many evaluations as the budget allows and the job has left, and the work that goes with
// them (rules S11 and S14). Refused by 7 without a job, and by 8 with an impossible record.
#[tactic(auto, unfolding(schedule::specs::Engine::engine_call, schedule::specs::Engine::engine_step))]
pub fn step(record: &mut Option<Job>, budget: u64, slices: &mut Slices) -> Result<(), Cause>
    ensures slices { SameSlices slices.old slices.new }
    ensures answer { result ≡ (called (steps budget) «record».old (held slices.old)).answer }
    ensures next { «record».new ≡ (called (steps budget) «record».old (held slices.old)).next.job }
    ensures memory { held slices.new ≡ (called (steps budget) «record».old (held slices.old)).next.memory }
{
    let Some(job) = *record else {
        return Err(Cause::NoJob);
    };
    if judgement::is_impossible(&job, &slices.view()) {
        return Err(Cause::ImpossibleRecord);
    }
    *record = Some(stepped(job, budget, slices));
    Ok(())
}

// Ends the job, if there is one, and zeroes all five slices. It is never refused.
#[tactic(auto, unfolding(schedule::specs::Engine::engine_call))]
pub fn drop(record: &mut Option<Job>, slices: &mut Slices)
    ensures slices { SameSlices slices.old slices.new }
    ensures answer { Ok tt ≡ (called drops «record».old (held slices.old)).answer }
    ensures next { «record».new ≡ (called drops «record».old (held slices.old)).next.job }
    ensures memory { held slices.new ≡ (called drops «record».old (held slices.old)).next.memory }
{
    slices.zero();
    *record = None;
}
