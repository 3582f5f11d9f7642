// Open, step and drop of a sparse field's job, on a record in four arrays and five lent slices. Each
// answers 0 where it was accepted, and the number of the cause that refused it. A refused call changes
// no array and no slice.
// Kept: the parameters, arrays with a count beside them too, are what C lends.
ghost use Rattle.std.specs.Prelude.{◌≡◌};
ghost use Rattle.schedule.specs.Calls.{opens, steps, drops};
ghost use Rattle.schedule.specs.Lent.{memory_of};
ghost use Rattle.field_host.specs.Given.{input_lent};
ghost use Rattle.field_host.specs.Carried.{carried_of};
ghost use Rattle.field_host.specs.Answers.{outcome_number};
ghost use Rattle.field_host.specs.Hosted.{carried_after, hosted};

use crate::given::input_given;
use crate::{answers, record};
use causes::Cause;
use schedule::{Job, Slices};

// Writes the record that an accepted call leaves, and answers the call's number.
#[tactic(auto, unfolding(crate::specs::Hosted::left_by))]
fn hand_back(
    answer: Result<(), Cause>,
    next: &Option<Job>,
    words: &mut [u64; 18],
    parts: &mut [u32; 192],
    settings: &mut [f64; 9],
    reals: &mut [f64; 256],
) -> u32
    ensures answer { result ≡ outcome_number answer }
    ensures carried { carried_of words.new parts.new settings.new reals.new
        ≡ carried_after answer next.now (carried_of words.old parts.old settings.old reals.old) }
{
    if answer.is_ok() {
        record::encode(next, words, parts, settings, reals);
    }
    answers::number(answer)
}

// Opens a job, in place of the one that the record has. The settings are the bounds' least end and
// their most, the cell's size, and the band.
#[tactic(auto, unfolding(crate::specs::Hosted::hosted))]
pub fn jisampode_open(
    settings: &[f64; 9],
    inner: u32,
    leaf: u32,
    parts: &[u32; 192],
    reals: &[f64; 256],
    count: u32,
    record_words: &mut [u64; 18],
    record_parts: &mut [u32; 192],
    record_settings: &mut [f64; 9],
    record_reals: &mut [f64; 256],
    kinds: &mut [u8],
    numbers: &mut [f64],
    places: &mut [u32],
    store: &mut [f64],
    corners: &mut [f64],
) -> u32
    ensures answer { result
        ≡ (hosted (opens (input_lent settings inner leaf parts reals count))
        (carried_of record_words.old record_parts.old record_settings.old record_reals.old)
        (memory_of kinds.old numbers.old places.old store.old corners.old)).number }
    ensures carried { carried_of record_words.new record_parts.new record_settings.new record_reals.new
        ≡ (hosted (opens (input_lent settings inner leaf parts reals count))
        (carried_of record_words.old record_parts.old record_settings.old record_reals.old)
        (memory_of kinds.old numbers.old places.old store.old corners.old)).carried }
    ensures memory { memory_of kinds.new numbers.new places.new store.new corners.new
        ≡ (hosted (opens (input_lent settings inner leaf parts reals count))
        (carried_of record_words.old record_parts.old record_settings.old record_reals.old)
        (memory_of kinds.old numbers.old places.old store.old corners.old)).memory }
{
    let input = input_given(settings, inner, leaf, parts, reals, count);
    let mut slices = Slices {
        kinds,
        numbers,
        places,
        store,
        corners,
    };
    let mut next = None;
    let answer = sparse_field::open(&mut next, input, &mut slices);
    hand_back(
        answer,
        &next,
        record_words,
        record_parts,
        record_settings,
        record_reals,
    )
}

// Makes as many evaluations as the budget allows and the job has left.
#[tactic(auto, unfolding(crate::specs::Hosted::hosted))]
pub fn jisampode_step(
    budget: u64,
    record_words: &mut [u64; 18],
    record_parts: &mut [u32; 192],
    record_settings: &mut [f64; 9],
    record_reals: &mut [f64; 256],
    kinds: &mut [u8],
    numbers: &mut [f64],
    places: &mut [u32],
    store: &mut [f64],
    corners: &mut [f64],
) -> u32
    ensures answer { result
        ≡ (hosted (steps budget)
        (carried_of record_words.old record_parts.old record_settings.old record_reals.old)
        (memory_of kinds.old numbers.old places.old store.old corners.old)).number }
    ensures carried { carried_of record_words.new record_parts.new record_settings.new record_reals.new
        ≡ (hosted (steps budget)
        (carried_of record_words.old record_parts.old record_settings.old record_reals.old)
        (memory_of kinds.old numbers.old places.old store.old corners.old)).carried }
    ensures memory { memory_of kinds.new numbers.new places.new store.new corners.new
        ≡ (hosted (steps budget)
        (carried_of record_words.old record_parts.old record_settings.old record_reals.old)
        (memory_of kinds.old numbers.old places.old store.old corners.old)).memory }
{
    let mut slices = Slices {
        kinds,
        numbers,
        places,
        store,
        corners,
    };
    let mut next = record::decode(record_words, record_parts, record_settings, record_reals);
    let answer = sparse_field::step(&mut next, budget, &mut slices);
    hand_back(
        answer,
        &next,
        record_words,
        record_parts,
        record_settings,
        record_reals,
    )
}

// Ends the job, if there is one, and zeroes all five slices.
#[tactic(auto, unfolding(crate::specs::Hosted::hosted))]
pub fn jisampode_drop(
    record_words: &mut [u64; 18],
    record_parts: &mut [u32; 192],
    record_settings: &mut [f64; 9],
    record_reals: &mut [f64; 256],
    kinds: &mut [u8],
    numbers: &mut [f64],
    places: &mut [u32],
    store: &mut [f64],
    corners: &mut [f64],
) -> u32
    ensures answer { result
        ≡ (hosted drops
        (carried_of record_words.old record_parts.old record_settings.old record_reals.old)
        (memory_of kinds.old numbers.old places.old store.old corners.old)).number }
    ensures carried { carried_of record_words.new record_parts.new record_settings.new record_reals.new
        ≡ (hosted drops
        (carried_of record_words.old record_parts.old record_settings.old record_reals.old)
        (memory_of kinds.old numbers.old places.old store.old corners.old)).carried }
    ensures memory { memory_of kinds.new numbers.new places.new store.new corners.new
        ≡ (hosted drops
        (carried_of record_words.old record_parts.old record_settings.old record_reals.old)
        (memory_of kinds.old numbers.old places.old store.old corners.old)).memory }
{
    let mut slices = Slices {
        kinds,
        numbers,
        places,
        store,
        corners,
    };
    let mut next = None;
    sparse_field::drop(&mut next, &mut slices);
    hand_back(
        Ok(()),
        &next,
        record_words,
        record_parts,
        record_settings,
        record_reals,
    )
}
