// Elements of slices, made from numbers and given as such.
ghost use Rattle.std.specs.Prelude.{◌≡◌, ℕ, ◌%◌, from_bits, min};
ghost use Rattle.std.specs.Float.{binary64};

// An element of one of the slices.
pub trait Element: Copy + Default {
    ghost element: { ℕ → Self };

    // The element that a number stands for.
    fn of(n: u64) -> Self
        ensures { result ≡ element n };

    // The number that the element stands for.
    fn number(self) -> u64;

    // An element that no call leaves, from a number that follows from a seed.
    fn poison(n: u64) -> Self;
}

impl Element for u8 {
    ghost element = { λ n. n % 256 };

    fn of(n: u64) -> u8 {
        (n % 256) as u8
    }

    fn number(self) -> u64 {
        u64::from(self)
    }

    fn poison(n: u64) -> u8 {
        (n % 255 + 1) as u8
    }
}

impl Element for u32 {
    ghost element = { λ n. min n 4294967295 };

    // A larger number counts as the largest.
    fn of(n: u64) -> u32 {
        u32::try_from(n).unwrap_or(u32::MAX)
    }

    fn number(self) -> u64 {
        u64::from(self)
    }

    fn poison(n: u64) -> u32 {
        (n % 4294967295 + 1) as u32
    }
}

impl Element for f64 {
    ghost element = { λ n. from_bits binary64 n };

    fn of(n: u64) -> f64 {
        float::from_bits(n)
    }

    fn number(self) -> u64 {
        float::to_bits(self)
    }

    // It is not 0, and at some places a NaN.
    fn poison(n: u64) -> f64 {
        if n % 8 == 0 {
            0.0 / 0.0
        } else {
            float::from_bits(n | 1)
        }
    }
}
