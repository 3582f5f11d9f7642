// A text read from a stream into lent room.
#![tactic(auto)]

ghost use Rattle.std.specs.Prelude.{ℕ, ◌<◌, ◌≤◌, length, take, IfOk, OnErr};
ghost use Rattle.std.specs.Io.{ReadsAtMost};
ghost use Rattle.std.specs.Io.KnownBytes.{Consumes, IsAtEnd};

use std::io;
use std::io::Read;

// Reads until the room is full, the input ends or a read fails, and returns how many bytes it put at
// the front of the room. A read that fails ends it, and what was read before stands at the front.
// Kept: the loop goes over reads and counts their bytes; the library's whole reads want a heap, or say
// less of a failure.
pub fn read_text<R: Read>(from: &mut R, room: &mut [u8]) -> io::Result<usize>
    ensures in_bounds { ReadsAtMost result room.new }
    ensures bytes { IfOk result (λ n. Consumes (R.remaining from.old) (R.remaining from.new) (take n room.new)) }
    ensures end { IfOk result (λ n. n < length room.new → IsAtEnd (R.remaining from.new)) }
    ensures none_lost { OnErr result ((n : ℕ) × (n ≤ length room.new)
        × Consumes (R.remaining from.old) (R.remaining from.new) (take n room.new)) }
{
    let mut count = 0;
    while count < room.len() {
        let more = from.read(&mut room[count..])?;
        if more == 0 {
            return Ok(count);
        }
        count += more;
    }
    Ok(count)
}
