// A job's work on its own model.
ghost use Rattle.std.specs.Prelude.{◌≡◌, false, [], ◌≤◌};
ghost use Rattle.model.specs.Model.{refused_by_four};
ghost use Rattle.schedule.specs.Resume.{events_from};
ghost use Rattle.schedule.specs.Totals.{active_all};
ghost use Rattle.schedule.specs.Lent.{held, SameSlices};
ghost use Rattle.plans.specs.Plan.{plan_of};
ghost use Rattle.engine.specs.Inner.Sizes.{Sized};
ghost use Rattle.engine.specs.Inner.Progress.{Lent, Advanced, reading_in};
ghost use Rattle.engine.specs.Inner.Startable.{Startable};

use crate::{Progress, Standing, Task, nodes};
use input::Input;
use schedule::Slices;

// What is left of an input's job from where it stands, while the budget lasts.
pub fn run_job(input: &Input, at: Standing, slices: &mut Slices) -> Progress
    requires sized { Sized input.now.grid × (refused_by_four input.now.model ≡ false) }
    requires lent { Lent (plan_of input.now) (held slices.old)
        × Startable (plan_of input.now) at.cursor at.leaves × (at.leaves ≤ active_all (plan_of input.now)) }
    ensures slices { SameSlices slices.old slices.new }
    ensures advanced { Advanced (plan_of input.now) at.left at.leaves (held slices.old) (held slices.new)
        (events_from (plan_of input.now) at.cursor (reading_in (held slices.old))) [] result
        (active_all (plan_of input.now)) }
{
    let mut scratch = [0.0; 4096];
    let task = Task {
        grid: input.grid,
        band: input.band,
        model: &input.model,
    };
    nodes::run_from(&task, at, &mut scratch, slices)
}
