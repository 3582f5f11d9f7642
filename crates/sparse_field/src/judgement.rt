// Which records of a job are impossible.
ghost use Rattle.std.specs.Prelude.{◌≡◌};
ghost use Rattle.schedule.specs.Possible.{impossible};
ghost use Rattle.schedule.specs.Lent.{viewed};
ghost use Rattle.plans.specs.Sparse.{sparse};

use grid::SizedGrid;
use judging::RightKinds;
use schedule::{Job, View};

// Whether a job's record is impossible with these slices: open would refuse its input, its lengths or
// its kinds are not those of the slices, or its grid has no such progress.
pub fn is_impossible(job: &Job, slices: &View) -> bool
    ensures { result ≡ impossible sparse job.now (viewed slices.now) }
{
    let lengths = slices.lengths();
    if input::open_refusal(&job.input, lengths).is_err() {
        return true;
    }
    if job.lengths != lengths {
        return true;
    }
    let grid = SizedGrid {
        grid: job.input.grid,
    };
    if !kinds::kinds_right(grid, slices.kinds) {
        return true;
    }
    let right = RightKinds {
        grid,
        kinds: slices.kinds,
    };
    right.wrong_progress(job.counts, job.cursor)
}
