// What `fieldlist` prints for a text.
ghost use Rattle.std.specs.Prelude.{◌≡◌, ◌≤◌, length};
ghost use Rattle.listing.specs.Listed.{job_listed, listed};
ghost use Rattle.listing.specs.Written.{put_answer, put_bytes};

use crate::{Unlisted, writing};
use job_text::Job;
use schedule::Slices;

// More evaluations than any job has.
const ALL: u64 = 18446744073709551615;

// The listing of a job, on memory of its own (rule T9).
fn list_read(job: Job, out: &mut [u8]) -> Result<usize, Unlisted>
    ensures answer { result ≡ put_answer (job_listed job) out.old }
    ensures out { out.new ≡ put_bytes (job_listed job) out.old }
{
    let mut kinds = [0u8; 512];
    let mut numbers = [0.0; 512];
    let mut places = [0u32; 512];
    let mut store = [0.0; 4096];
    let mut corners = [0.0; 125];
    let mut slices = Slices {
        kinds: &mut kinds,
        numbers: &mut numbers,
        places: &mut places,
        store: &mut store,
        corners: &mut corners,
    };
    let mut record = None;
    let opened = sparse_field::open(&mut record, job.input, &mut slices);
    if let Err(cause) = opened {
        return writing::write_refusal(cause.number(), out);
    }
    let _ = sparse_field::step(&mut record, ALL, &mut slices);
    writing::write_listing(&record, job_text::nan_pattern(job), &slices.view(), out)
}

// Puts what `fieldlist` prints for a text at the front of the lent bytes, and 0 after it. The answer is
// how many bytes that is; where they do not fit it is refused by cause 6.
#[tactic(auto, using(crate::proofs::ListedLaws::off_here, crate::proofs::ListedLaws::on_here))]
pub fn list_job(text: &[u8], out: &mut [u8]) -> Result<usize, Unlisted>
    ensures answer { result ≡ put_answer (listed text.now) out.old }
    ensures out { out.new ≡ put_bytes (listed text.now) out.old }
{
    match job_text::read_job(text) {
        Ok(job) => list_read(job, out),
        Err(off) => writing::write_off(off.line, out),
    }
}

// The same into bytes that hold every listing: it cannot be refused.
pub fn list_whole(text: &[u8], out: &mut [u8]) -> usize
    requires { 88176 ≤ length out.old }
    ensures answer { (result ≡ length (listed text.now)) × (result ≤ 88176) }
    ensures out { out.new ≡ put_bytes (listed text.now) out.old }
{
    list_job(text, out).unwrap()
}
