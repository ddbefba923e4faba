//! Registers of which the last writer wins, with removals that reach the peers too.
ghost use Rattle.std.specs.Prelude.{◌≡◌, IfOk, true};

use crate::value::Value;
use std::alloc::AllocError;

/// What was written last under a key: at this time, by this writer, this value, or `None` where the key was removed. Of two registers the
/// one with the greater time is the later; at one time that of the greater writer, and of one writer the greater value, where a removal
/// is the least. So copies never disagree on which is the later.
#[derive(Clone, Debug, PartialEq, Eq, PartialOrd, Ord, Drop)]
pub struct Register {
    /// Milliseconds since 1970, or one more than the time of the register before.
    pub time: u64,
    /// The name of the copy that wrote it.
    pub writer: String,
    /// The value, or `None` where the key was removed.
    pub value: Option<Value>,
}

impl Register {
    /// A register that is equal, in memory of its own.
    ///
    /// # Errors
    ///
    /// Out of memory.
    pub fn copy(&self) -> Result<Register, AllocError>
        ensures { IfOk result (λ copy. ⟦<Register as PartialEq>⟧.eq copy self.now ≡ true) }
    {
        self.clone()
    }
}
