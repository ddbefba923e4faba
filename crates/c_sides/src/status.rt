//! The status that only calls of this library answer, as C sees it.

/// The reply needs rows.
pub const NEEDS_ROWS: u32 = 8;
