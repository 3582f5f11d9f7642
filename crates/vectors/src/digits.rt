// What a byte counts as a digit.
ghost use Rattle.std.specs.Prelude.{◌≡◌};
ghost use Rattle.vectors.specs.Text.{digit_of};

// What a number counts as the byte of a hexadecimal digit. No upper-case letter is one, and no number
// above 255.
// Kept: `forms` has the same of a byte and does not export it, and std's digits take upper-case letters.
pub fn hex_digit(b: u64) -> Option<u8>
    ensures { result ≡ digit_of b }
{
    match u8::try_from(b).ok()? {
        digit @ b'0'..=b'9' => Some(digit - b'0'),
        letter @ b'a'..=b'f' => Some(letter - b'a' + 10),
        _ => None,
    }
}
