//! What was made, if it was.
ghost use Rattle.std.specs.Prelude.{◌≡◌, ◌+◌, OnOk, vec_len};

use std::alloc::AllocError;

/// Adds what was made, if it was. The error is running out of memory.
pub(crate) fn add<T: Drop>(all: &mut Vec<T>, made: Result<T, AllocError>) -> Result<(), AllocError>
    ensures { OnOk result (vec_len all.new ≡ vec_len all.old + 1) }
{
    all.push(made?)?;
    Ok(())
}
