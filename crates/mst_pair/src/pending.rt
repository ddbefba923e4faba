//! Text that is put together before it is written.
ghost use Rattle.std.specs.Prelude.{◌≡◌, ℕ, List, []};
ghost use Rattle.mst_pair.specs.Devices.{WritesBytes, Passes, MarksFailure};

use crate::sink::{Sink, write_all};
use crate::source::Failed;
use arrayvec::ArrayString;
use std::marker::Model;

/// How many bytes are put together at most.
const ROOM: usize = 4096;

/// Text on its way to a sink, so that a reply of many lines takes few writes.
#[derive(Drop)]
pub struct Pending {
    text: ArrayString<ROOM>,
}

impl Model for Pending {
    ghost Value = { List ℕ };

    ghost view = { λ p. p.text.bytes };
}

impl Pending {
    pub fn new() -> Self
        ensures { result ≡ [] }
    {
        Pending {
            text: ArrayString::new(),
        }
    }

    /// Adds text after the one that is pending. Where there is no room, all of it is written first.
    pub fn write<W: Sink>(&mut self, text: &str, writer: &mut W) -> Result<(), Failed>
        ensures bytes { Passes result (W.taken writer.old) (W.taken writer.new) self.old text.now self.new }
        ensures failed { MarksFailure result (W.has_failed writer.old) (W.has_failed writer.new) }
    {
        match self.text.try_push_str(text) {
            Ok(()) => Ok(()),
            Err(_) => {
                self.flush(writer)?;
                write_all(writer, text.as_bytes())
            }
        }
    }

    /// Writes the text that is pending.
    pub fn flush<W: Sink>(&mut self, writer: &mut W) -> Result<(), Failed>
        ensures bytes { WritesBytes result (W.taken writer.old) (W.taken writer.new) self.old }
        ensures empty { self.new ≡ [] }
        ensures failed { MarksFailure result (W.has_failed writer.old) (W.has_failed writer.new) }
    {
        let result = write_all(writer, self.text.as_str().as_bytes());
        self.text.clear();
        result
    }
}
