// The listing of a job's text.
ghost use Rattle.std.specs.Prelude.{◌≡◌};
ghost use Rattle.listing.specs.Listed.{listed};
ghost use Rattle.listing.specs.Written.{put_answer, put_bytes};
ghost use Rattle.field_host.specs.Answers.{listing_number, listing_length};

use listing::Unlisted;

// Writes the length of a listing, where there is one, and answers its number.
#[tactic(auto, unfolding(crate::specs::Answers::listing_number, crate::specs::Answers::listing_length))]
fn put_length(answer: Result<usize, Unlisted>, written: &mut [usize; 1]) -> u32
    ensures answer { result ≡ listing_number answer }
    ensures written { written.new ≡ listing_length written.old answer }
{
    match answer {
        Ok(end) => {
            *written = [end];
            0
        }
        Err(unlisted) => unlisted.into(),
    }
}

// Reads a job's text, runs the job and writes what `fieldlist` prints for it at the front of the lent
// bytes, with 0 after it. `written` has its length. Refused by 6 where the bytes are too few.
pub fn jisampode_list_job(text: &[u8], out: &mut [u8], written: &mut [usize; 1]) -> u32
    ensures answer { result ≡ listing_number (put_answer (listed text.now) out.old) }
    ensures out { out.new ≡ put_bytes (listed text.now) out.old }
    ensures written { written.new ≡ listing_length written.old (put_answer (listed text.now) out.old) }
{
    put_length(listing::list_job(text, out), written)
}
