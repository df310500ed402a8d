// What the elements of a loop have in common.

ghost use Rattle.std.specs.Prelude.{◌≡◌, ◌<◌, ◌≤◌, ℕ, length};
ghost use Rattle.kernel_code.specs.Codes.{HaveRoom};
ghost use Rattle.deep_halo.specs.Sound.{Sound, IsLoop, program_in};

use crate::chain_memory::blocks::Blocks;
use bound_program::Arg;
use kernel_code::Code;

/// The most arguments of a loop.
pub const MAX_ARGS: usize = 16;

/// How many cells the arguments of a kernel have at most: 16 arguments of 64 cells.
pub const MOST_SAVED: usize = 1024;

/// A loop: its number, the set that it goes over, its arguments, and the code of its kernel, looked up once for all
/// elements.
#[derive(Drop)]
pub struct Loop<'a> {
    pub site: u32,
    pub set: u32,
    pub args: &'a [Arg],
    pub code: &'a Code<'a>,
}

/// The loop numbered `site`.
pub fn loop_of<'a>(blocks: &'a Blocks<'a>, site: u32) -> Loop<'a>
    requires sound { Sound blocks.now }
    requires site { site < length (program_in blocks.now).sites }
    ensures is { IsLoop (program_in blocks.now) result }
    ensures site { result.site ≡ site }
    ensures room { (n : ℕ) → HaveRoom blocks.now.codes.now n → result.code.now.slots ≤ n }
{
    let found = &blocks.bound.sites[site as usize];
    Loop {
        site,
        set: found.set,
        args: &found.args,
        code: &blocks.codes[found.kernel as usize],
    }
}
