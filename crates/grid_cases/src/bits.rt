// Sets of places as bits, 64 to a number, the first place in the lowest bit.
ghost use Rattle.std.specs.Prelude.{◌≡◌, ◌*◌, ◌/◌, ◌%◌, ◌^◌, ◌<◌, ◌↔◌};
ghost use Rattle.std.specs.Prelude.{IsTrue, IsBitSet, bit_or, length, slice_index, slice_set};

// Sets the bit of a place.
pub fn set_bit(bits: &mut [u64], place: usize)
    requires { place < 64 * length bits.old }
    ensures { bits.new ≡ slice_set bits.old (place / 64)
        (bit_or (slice_index bits.old (place / 64)) (2 ^ (place % 64))) }
{
    bits[place / 64] |= 1 << (place % 64);
}

// Whether the bit of a place is set. Past the last number none is.
pub fn has_bit(bits: &[u64], place: usize) -> bool
    ensures { IsTrue result ↔ IsBitSet (slice_index bits.now (place / 64)) (place % 64) }
{
    match bits.get(place / 64) {
        Some(b) => *b & (1 << (place % 64)) != 0,
        None => false,
    }
}
