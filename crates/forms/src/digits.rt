// A digit and its byte.
ghost use Rattle.std.specs.Prelude.{◌≡◌, ◌<◌};
ghost use Rattle.forms.specs.Digits.{digit_byte, digit_value, decimal_value, decimal_count};

// What a byte counts as a digit, if it is one.
#[tactic(auto, unfolding(crate::specs::Digits::digit_value))]
pub fn digit_of(b: u8) -> Option<u8>
    ensures { result ≡ digit_value b }
{
    match b {
        b'0'..=b'9' => Some(b - b'0'),
        b'a'..=b'f' => Some(b - b'a' + 10),
        _ => None,
    }
}

// What a byte counts as a decimal digit, if it is one.
#[tactic(auto, unfolding(crate::specs::Digits::digit_of, crate::specs::Digits::decimal_value))]
pub fn decimal_digit(b: u8) -> Option<u8>
    ensures { result ≡ decimal_value b }
{
    digit_of(b).filter(|d| *d < 10)
}

// The byte of a digit.
pub fn digit_byte(d: u64) -> u8
    requires { d < 16 }
    ensures { result ≡ digit_byte d }
{
    if d < 10 { 48 + d as u8 } else { 87 + d as u8 }
}

// How many decimal digits a number has.
pub fn decimal_count(x: u64) -> usize
    ensures { result ≡ decimal_count 19 x }
{
    match x.checked_ilog10() {
        Some(power) => power as usize + 1,
        None => 1,
    }
}
