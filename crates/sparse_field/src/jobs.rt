// The job that an accepted call hands on.
ghost use Rattle.std.specs.Prelude.{◌≡◌, ◌≤◌};
ghost use Rattle.grid.specs.Blocks.{cube};
ghost use Rattle.sparse_field.specs.Inner.Parts.{job_at};

use engine::Progress;
use grid::GridCounts;
use input::{Input, Lengths};
use schedule::{Counts, Cursor, Job};

// An input's job, as far as its work has come. Work that has come through is at the end.
pub fn job_at(
    input: Input,
    lengths: Lengths,
    counted: GridCounts,
    turn: Progress,
    evaluations: u64,
) -> Job
    requires { (turn.leaves ≤ 16777216) × (input.grid.leaf ≤ 64) }
    ensures { result ≡ job_at input lengths counted turn.leaves (cube input.grid.leaf) evaluations turn.stop }
{
    let leaves = turn.leaves;
    let sampled = leaves * (grid::cube_of(input.grid.leaf as usize) as u64);
    Job {
        input,
        lengths,
        counts: Counts {
            grid: counted,
            leaves,
            sampled,
            evaluations,
        },
        cursor: turn.stop.unwrap_or(Cursor::End),
    }
}
