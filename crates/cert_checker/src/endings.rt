//! Why a check was given up.

ghost use Rattle.std.specs.Prelude.{◌≡◌};
ghost use Rattle.cert_checker.specs.declared.endings.NoEnding.TheVariants.{OutOfMemory, ReadFault};

use hub_io::Failed;
use std::alloc::AllocError;

/// Why a check was given up.
#[derive(Clone, Copy, Debug, PartialEq, Eq)]
pub enum NoEnding {
    /// A call on the shelf failed.
    ReadFault,
    /// Memory ran out.
    OutOfMemory,
}

impl From<AllocError> for NoEnding {
    ghost from_gives = { λ _ r. r ≡ OutOfMemory };

    fn from(_error: AllocError) -> NoEnding {
        NoEnding::OutOfMemory
    }
}

impl From<Failed> for NoEnding {
    ghost from_gives = { λ _ r. r ≡ ReadFault };

    fn from(_failed: Failed) -> NoEnding {
        NoEnding::ReadFault
    }
}
