//! An engine and the line that it is being given.
ghost use Rattle.std.specs.Prelude.{◌≡◌, [], OnOk, true};
ghost use Rattle.mst_pair.specs.Devices.{MarksFailure};
ghost use Rattle.mst_pair.specs.Session.{Reached, Feeds, EndsSession};

use crate::engine::Engine;
use crate::line::Line;
use crate::sink::Sink;
use crate::source::Failed;
use std::alloc::Global;

/// The engine, and what has come so far of a line.
#[derive(Drop)]
pub struct Session {
    engine: Engine,
    line: Line,
}

impl Session {
    pub fn new(alloc: Global) -> Self
        ensures { Reached [] [] result.engine result.line }
    {
        Session {
            engine: Engine::new(alloc),
            line: Line::new(),
        }
    }

    /// Takes more of the input, and answers each line that is whole with it.
    pub fn feed<W: Sink>(&mut self, bytes: &[u8], writer: &mut W) -> Result<(), Failed>
        ensures bytes { Feeds self.old bytes.now result (W.taken writer.old) (W.taken writer.new) self.new }
        ensures failed { MarksFailure result (W.has_failed writer.old) (W.has_failed writer.new) }
    {
        'taking: for byte in bytes {
            if *byte == b'\n' {
                self.engine.answer(self.line.as_slice(), writer)?;
                self.line.clear();
            } else {
                self.line.push(*byte);
            }
        }
        Ok(())
    }

    /// Answers the last line, if it has a byte, and flushes the writer.
    pub fn finish<W: Sink>(&mut self, writer: &mut W) -> Result<(), Failed>
        ensures bytes { EndsSession self.old result (W.taken writer.old) (W.taken writer.new) }
        ensures flushed { OnOk result (W.is_flushed writer.new ≡ true) }
        ensures failed { MarksFailure result (W.has_failed writer.old) (W.has_failed writer.new) }
    {
        if !self.line.as_slice().is_empty() {
            self.engine.answer(self.line.as_slice(), writer)?;
        }
        writer.flush()
    }
}
