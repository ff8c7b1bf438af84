// Memory that runs out is a problem as well, so that `?` hands it on.
ghost use Rattle.std.specs.Prelude.{◌≡◌};
ghost use Rattle.text.specs.declared.problem.Problem.TheVariants.{NoMemory};

use super::problem::Problem;
use std::alloc::{AllocError, AllocFailed};

impl From<AllocError> for Problem {
    ghost from_gives = { λ _ problem. problem ≡ NoMemory };

    fn from(_: AllocError) -> Problem {
        Problem::NoMemory
    }
}

impl<T: Drop> From<AllocFailed<T>> for Problem {
    ghost from_gives = { λ _ problem. problem ≡ NoMemory };

    fn from(failed: AllocFailed<T>) -> Problem {
        Problem::from(AllocError::from(failed))
    }
}
