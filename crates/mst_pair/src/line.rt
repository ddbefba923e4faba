//! What is kept of a line.
ghost use Rattle.std.specs.Prelude.{◌≡◌, ℕ, List, [], ◌∷◌, ◌++◌, take};

use arrayvec::ArrayVec;
use std::marker::Model;

/// One byte more than the longest line that is no mistake, so that what is kept of a longer line shows that it is
/// too long.
pub const KEPT: usize = 283;

/// The first bytes of a line.
#[derive(Drop)]
pub struct Line {
    bytes: ArrayVec<u8, KEPT>,
}

impl Model for Line {
    ghost Value = { List ℕ };

    ghost view = { λ l. l.bytes.items };
}

impl Line {
    pub fn new() -> Self
        ensures { result ≡ [] }
    {
        Line {
            bytes: ArrayVec::new(),
        }
    }

    /// Adds a byte, where there is room.
    pub fn push(&mut self, byte: u8)
        ensures { self.new ≡ take KEPT (self.old ++ byte ∷ []) }
    {
        let _ = self.bytes.try_push(byte);
    }

    pub fn clear(&mut self)
        ensures { self.new ≡ [] }
    {
        self.bytes.clear();
    }

    pub fn as_slice(&self) -> &[u8]
        ensures { result.now ≡ self.now }
    {
        self.bytes.as_slice()
    }
}
