//! A run, from a source to a sink.
ghost use Rattle.std.specs.Prelude.{◌≡◌, ◌↔◌, false, true, OnOk, IsErrOf};
ghost use Rattle.mst_pair.specs.Run.{RunEnds, fault_text};

use crate::session::Session;
use crate::sink::Sink;
use crate::source::Source;
use std::alloc::Global;
use std::error::Error;
use std::fmt;

/// Why a run ended before its input did. It is an `Error`, so that `?` converts it to the error of a program.
#[derive(Clone, Copy, Debug, PartialEq, Eq)]
pub enum RunFault {
    /// The source answered an error.
    Read,
    /// The sink answered an error.
    Write,
}

impl RunFault {
    /// What the program says of the fault: `mst_pair: read failed` or `mst_pair: write failed`.
    pub fn text(&self) -> &'static str
        ensures { result.now ≡ fault_text self.now }
    {
        match self {
            RunFault::Read => "mst_pair: read failed",
            RunFault::Write => "mst_pair: write failed",
        }
    }
}

/// The text of the fault.
impl fmt::Display for RunFault {
    ghost use Rattle.std.specs.Prelude.{Some};

    ghost output = { λ fault. Some (fault_text fault) };

    fn fmt<W: fmt::Write>(&self, f: &mut fmt::Formatter<W>) -> fmt::Result {
        f.write_str(self.text())
    }
}

impl Error for RunFault {}

/// How many bytes are read at once at most.
const CHUNK: usize = 8192;

/// Answers each line that the source gives, from two empty replicas in page format 1, and flushes the sink at the end.
///
/// The reply to a line is written before the next line is carried out. Where a line needs memory that is refused, its reply is
/// `no memory` and the run goes on; `put`, `del`, `pages`, `diff`, `pull` and `turns` may need some, and the other lines never do.
/// Beside the rows and the pages of their trees a run holds 12 KiB: 8192 bytes that were read and 4096 that are to be written. A line
/// takes the time of the calls of replicas that answer it, and time in proportion to its own length and its reply's.
///
/// A run over text in memory, whose replies stand in `output` then:
///
/// ```rust crates/mst_pair_tests/src/runs.rt
/// let mut output = Vec::new(rt.alloc());
/// let mut reader = FromRead::new(input.as_bytes());
/// let mut writer = ToWrite::new(&mut output);
/// assert_eq!(rt; run(rt.alloc(), &mut reader, &mut writer), Ok(()));
/// ```
///
/// # Errors
///
/// `RunFault::Read` where the source answered an error: what was written is the replies to the whole lines read.
/// `RunFault::Write` where the sink did: what was written is whole replies to some first lines of what was read, and a
/// beginning of the next reply. Lines already carried out stay carried out.
pub fn run<S: Source, W: Sink>(
    alloc: Global,
    reader: &mut S,
    writer: &mut W,
) -> Result<(), RunFault>
    requires reader_works { S.has_failed reader.old ≡ false }
    requires writer_works { W.has_failed writer.old ≡ false }
    ensures bytes { RunEnds result (S.left reader.old) (S.left reader.new) (W.taken writer.old) (W.taken writer.new) }
    ensures read_fault { IsErrOf result RunFault.Read ↔ (S.has_failed reader.new ≡ true) }
    ensures write_fault { IsErrOf result RunFault.Write ↔ (W.has_failed writer.new ≡ true) }
    ensures flushed { OnOk result (W.is_flushed writer.new ≡ true) }
{
    let mut session = Session::new(alloc);
    let mut chunk = [0; CHUNK];
    'serving: loop {
        let count = reader.read(&mut chunk).map_err(|_| RunFault::Read)?;
        if count == 0 {
            return session.finish(writer).map_err(|_| RunFault::Write);
        }
        session
            .feed(&chunk[..count], writer)
            .map_err(|_| RunFault::Write)?;
    }
}
