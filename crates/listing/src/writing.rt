// The listing of a record's job, over lent bytes.
ghost use Rattle.std.specs.Prelude.{◌≡◌, false, [], ◌∷◌, ◌<◌, ◌≤◌, length};
ghost use Rattle.schedule.specs.Possible.{impossible};
ghost use Rattle.schedule.specs.Lent.{viewed};
ghost use Rattle.plans.specs.Sparse.{sparse};
ghost use Rattle.forms.specs.Forms.{spell};
ghost use Rattle.listing.specs.Lines.{refused_form, off_form};
ghost use Rattle.listing.specs.Written.{placed, all_placed, put_answer, put_bytes};
ghost use Rattle.listing.specs.Written.{possible_written, written};

use crate::Unlisted;
use crate::sheet::Sheet;
use crate::text::{self, Line};
use causes::Cause;
use grid::{Kind, SizedGrid};
use schedule::{Cursor, Job, View};

// Whether a child of this kind is no leaf, or has its stretch inside a store of this size.
#[tactic(auto, unfolding(crate::specs::Written::placed))]
fn is_placed(points: usize, size: usize, kind: u8, place: u32) -> bool
    requires { points ≤ 262144 }
    ensures { result ≡ placed points size kind place }
{
    Kind::from(kind) != Kind::Leaf || (place as usize + 1) * points <= size
}

// Whether the first children are no leaves, or have their stretches inside a store of this size.
fn all_placed(total: usize, points: usize, slices: &View) -> bool
    requires size { points ≤ 262144 }
    requires kinds { total ≤ length slices.now.kinds.now }
    requires places { total ≤ length slices.now.places.now }
    ensures { result ≡ all_placed points (length slices.now.store.now) slices.now.kinds.now slices.now.places.now total 0 }
{
    let size = slices.store.len();
    for j in 0..total {
        if !is_placed(points, size, slices.kinds[j], slices.places[j]) {
            return false;
        }
    }
    true
}

// Writes the listing of a job whose record is not impossible.
fn write_possible(job: &Job, nan: u64, slices: &View, out: &mut [u8]) -> Result<usize, Unlisted>
    requires { impossible sparse job.now (viewed slices.now) ≡ false }
    ensures answer { result ≡ (possible_written job.now nan (viewed slices.now) out.old).answer }
    ensures out { out.new ≡ (possible_written job.now nan (viewed slices.now) out.old).bytes }
{
    let Cursor::End = job.cursor else {
        return Err(Unlisted::NotPrintable);
    };
    let grid = SizedGrid {
        grid: job.input.grid,
    };
    let total = grid.children();
    let points = grid.leaf_points();
    if !all_placed(total, points, slices) {
        return Err(Unlisted::NotPrintable);
    }
    let sheet = Sheet {
        counts: job.counts,
        total,
        children: grid.node_children(),
        points,
        nan,
        slices: *slices,
    };
    text::write(&sheet, out)
}

// Writes the listing of a record's job, in which a NaN leaf value has the given bits. Refused by 7
// without a job, by 8 with an impossible record, and by 6 where the bytes lent are too few. A refusal
// writes nothing; what lies past a listing is set to 0.
#[tactic(auto, unfolding(crate::specs::Written::written))]
pub fn write_listing(
    job: &Option<Job>,
    nan: u64,
    slices: &View,
    out: &mut [u8],
) -> Result<usize, Unlisted>
    ensures answer { result ≡ (written job.now nan (viewed slices.now) out.old).answer }
    ensures out { out.new ≡ (written job.now nan (viewed slices.now) out.old).bytes }
{
    let Some(job) = job else {
        return Err(Unlisted::Refused(Cause::NoJob));
    };
    if sparse_field::is_impossible(job, slices) {
        return Err(Unlisted::Refused(Cause::ImpossibleRecord));
    }
    write_possible(job, nan, slices, out)
}

// Writes the line of a refusal by the number of its cause.
pub fn write_refusal(number: u32, out: &mut [u8]) -> Result<usize, Unlisted>
    ensures answer { result ≡ put_answer (spell refused_form (number ∷ [])) out.old }
    ensures out { out.new ≡ put_bytes (spell refused_form (number ∷ [])) out.old }
{
    let line = Line {
        form: b"(refused D)\n",
        numbers: &[u64::from(number)],
    };
    text::write(&line, out)
}

// Writes the line of a text that is off its form at a line.
// Kept: beside `write_refusal`, another form; one function of the form would be `text::write` again.
pub fn write_off(line: u32, out: &mut [u8]) -> Result<usize, Unlisted>
    ensures answer { result ≡ put_answer (spell off_form (line ∷ [])) out.old }
    ensures out { out.new ≡ put_bytes (spell off_form (line ∷ [])) out.old }
{
    let line = Line {
        form: b"(refused 12 D)\n",
        numbers: &[u64::from(line)],
    };
    text::write(&line, out)
}
