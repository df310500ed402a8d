// The two texts, and why there are none.
use std::alloc::AllocError;
use thiserror::Error;

/// The texts of the sample.
#[derive(Debug, Drop)]
pub struct Sample {
    /// The source of the program.
    pub source: Vec<u8>,
    /// The mesh text of the grid, which has the entries that the source declares as `extern`.
    pub mesh: Vec<u8>,
}

/// Why there is no sample.
#[derive(Clone, Copy, Debug, PartialEq, Eq, Error)]
pub enum SampleRefusal {
    /// The size is outside 1 to [`crate::MAX_SIDE`].
    #[error("the size is outside 1 to 200")]
    SizeRange,
    /// Want of memory.
    #[error("out of memory")]
    OutOfMemory,
}

impl From<AllocError> for SampleRefusal {
    ghost use Rattle.std.specs.Prelude.{◌≡◌};
    ghost use Rattle.mesh_gen.specs.declared.refusal.SampleRefusal.TheVariants.{OutOfMemory};

    ghost from_gives = { λ _ e. e ≡ OutOfMemory };

    fn from(_: AllocError) -> SampleRefusal {
        SampleRefusal::OutOfMemory
    }
}
