//! How deep values may be nested.
ghost use Rattle.std.specs.Prelude.{◌≡◌, MatchResult};
ghost use Rattle.py_data.specs.declared.record.Got.TheVariants.{Raise};
ghost use Rattle.py_data.specs.declared.stop.Stop.TheVariants.{OutOfMemory};
ghost use Rattle.py_data.specs.Fault.{depth_fault};

use py_data::exception::{RUNTIME_ERROR, raise};
use py_data::{Got, Stop};
use std::alloc::Global;

/// How many levels of lists, tuples and dictionaries may stand in one another.
pub const LEVELS: usize = 100;

/// The answer where no level is left for the parts of a container.
pub fn too_deep<T>(alloc: Global) -> Result<Got<T>, Stop>
    ensures { MatchResult result (λ g. g ≡ Raise depth_fault) (λ e. e ≡ OutOfMemory) }
{
    raise(alloc, RUNTIME_ERROR, b"maximum recursion depth exceeded")
}
