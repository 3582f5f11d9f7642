// The list of the corners that a node's active children need.
ghost use Rattle.std.specs.Prelude.{◌≤◌, IfSome};
ghost use Rattle.cases.specs.Answer.{Given};

use cases::{Answer, Numbers};
use grid_cases::{has_bit, set_bit};

// What the lent list holds before the call.
const BEFORE: u32 = 0x00a5_a5a5;

// The most kinds and the longest list of a case.
const MOST_KINDS: usize = 513;

const LONGEST: usize = 800;

// The kinds of a case: for each bit the case's kind, or 0.
fn kinds_of(bits: &[u64], kind: u8) -> [u8; MOST_KINDS] {
    let mut kinds = [0u8; MOST_KINDS];
    for (c, k) in kinds.iter_mut().enumerate() {
        if has_bit(bits, c) {
            *k = kind;
        }
    }
    kinds
}

// A bit for each corner below 1024.
fn bits_of(corners: &[u32]) -> [u64; 16] {
    let mut bits = [0u64; 16];
    for corner in corners {
        if *corner < 1024 {
            set_bit(&mut bits, *corner as usize);
        }
    }
    bits
}

// The sum of corners.
fn sum_of(corners: &[u32]) -> u64 {
    corners
        .iter()
        .fold(0u64, |sum, corner| sum.wrapping_add(u64::from(*corner)))
}

// The numbers that the bits of a node's corners take.
fn words_of(n: u32) -> usize
    ensures { result ≤ 12 }
{
    match n {
        2 => 1,
        4 => 2,
        _ => 12,
    }
}

// Calls on so many kinds and a list so long, and answers.
fn call(n: u32, kinds: &[u8], end: usize) -> Answer
    requires { end ≤ 800 }
    ensures { Given result }
{
    // Kept: the call is lent a part of the list, and what lies past it is answered too.
    let mut list = [BEFORE; LONGEST];
    match grid::corner_list(n, kinds, &mut list[..end]) {
        Err(cause) => {
            let same = list.iter().all(|corner| *corner == BEFORE);
            Answer::refused(cause).flag(same)
        }
        Ok(count) => {
            let corners = list.get(..count).unwrap_or(&[]);
            let zero = list.iter().take(end).skip(count).all(|corner| *corner == 0);
            let same = list.iter().skip(end).all(|corner| *corner == BEFORE);
            Answer::accepted()
                .place(count)
                .number(sum_of(corners))
                .flag(zero)
                .flag(same)
                .copied(&bits_of(corners)[..words_of(n)])
        }
    }
}

// `list N KINDS LIST KIND BITS`, or `longlist` where the bits are eight numbers: the corner list of a
// node with N children along an axis, from so many kinds, into a list so long. Answers how many are
// listed, their sum, whether the rest is 0, whether what lies past the list is as it was, and the bits;
// or where refused, whether the whole list is as it was.
pub fn list(mut numbers: Numbers) -> Option<Answer>
    ensures { IfSome result Given }
{
    let n = numbers.short();
    let most = numbers.place();
    let end = numbers.place();
    let kind = u8::try_from(numbers.number()).ok()?;
    if most > MOST_KINDS || end > LONGEST {
        return None;
    }
    let kinds = kinds_of(numbers.left, kind);
    Some(call(n, &kinds[..most], end))
}
