// The sizes that a block may have, and their cubes.
ghost use Rattle.std.specs.Prelude.{◌≡◌, ◌≤◌};
ghost use Rattle.grid.specs.Blocks.{is_block, cube};

// Whether a block may have this size: cause 2.
#[tactic(auto, unfolding(crate::specs::Blocks::is_block))]
pub fn is_block(n: u32) -> bool
    ensures { result ≡ is_block n }
{
    matches!(n, 2 | 4 | 8 | 16 | 32 | 64)
}

// The cube of a block's size, or of one more.
pub fn cube_of(n: usize) -> usize
    requires { n ≤ 65 }
    ensures { result ≡ cube n }
{
    n * n * n
}
