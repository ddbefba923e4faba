//! The statuses that calls of more than one library answer, as C sees them.

/// The call did what it is for.
pub const DONE: u32 = 0;
/// Out of memory.
pub const MEMORY: u32 = 1;
/// The bytes that were given are none that the call takes.
pub const MALFORMED: u32 = 2;
/// The room for the answer is too short.
pub const SHORT: u32 = 3;
/// An argument isn't one that the call takes.
pub const ARGUMENT: u32 = 4;
/// What is asked for is not there.
pub const ABSENT: u32 = 5;
