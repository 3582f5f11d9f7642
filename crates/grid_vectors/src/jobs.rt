// The causes by which open refuses a job, and what is known of an accepted one.
ghost use Rattle.cases.specs.Answer.{Given};

use cases::{Answer, Numbers};
use grid::SizedGrid;
use input::{Band, Input};
use model::{ImplicitModel, ModelComponent, Part};

// The part of this kind, with these inputs; 5 and above are constants.
fn part_of(kind: u64, a: u32, b: u32) -> Part {
    match kind {
        0 => Part::Min(a, b),
        1 => Part::Max(a, b),
        2 => Part::Add(a, b),
        3 => Part::Sub(a, b),
        4 => Part::Neg(a),
        _ => Part::Constant(1.0),
    }
}

// A model: COUNT PLACE KIND A B. So many parts, all constants but for one.
fn model_of(numbers: &mut Numbers) -> ImplicitModel {
    let count = numbers.short();
    let place = numbers.place();
    let kind = numbers.number();
    let a = numbers.short();
    let b = numbers.short();
    let none = ModelComponent {
        part: Part::Constant(0.0),
    };
    let mut parts = [none; 64];
    if place < 64 {
        parts[place].part = part_of(kind, a, b);
    }
    ImplicitModel { parts, count }
}

// `open GRID MIN MAX COUNT PLACE KIND A B KINDS NUMBERS PLACES STORE CORNERS`: the cause by which open
// refuses the job, or of an accepted one the nodes and the active children.
pub fn open(mut numbers: Numbers) -> Answer
    ensures { Given result }
{
    let input = Input {
        grid: numbers.grid(),
        band: Band {
            min: numbers.float(),
            max: numbers.float(),
        },
        model: model_of(&mut numbers),
    };
    match input::open_refusal(&input, numbers.lengths()) {
        Err(cause) => Answer::refused(cause),
        Ok(()) => {
            let grid = SizedGrid { grid: input.grid };
            Answer::accepted()
                .place(grid.nodes())
                .number(grid.active_children())
        }
    }
}
