// The digest of a text: FNV-1a of 64 bits, byte by byte.
ghost use Rattle.std.specs.Prelude.{◌≡◌};
ghost use Rattle.vectors.specs.Digest.{no_bytes, with_byte, with_bytes};

const PRIME: u64 = 0x0000_0100_0000_01b3;

// The digest of no bytes.
pub fn digest_start() -> u64
    ensures { result ≡ no_bytes }
{
    0xcbf2_9ce4_8422_2325
}

// The digest of a text whose digest so far is known, and of one byte more.
fn digest_byte(digest: u64, b: u8) -> u64
    ensures { result ≡ with_byte digest b }
{
    (digest ^ u64::from(b)).wrapping_mul(PRIME)
}

// The digest of a text whose digest so far is known, and of more bytes.
pub fn digest_with(digest: u64, bytes: &[u8]) -> u64
    ensures { result ≡ with_bytes digest bytes.now }
{
    bytes.iter().fold(digest, |sum, b| digest_byte(sum, *b))
}
