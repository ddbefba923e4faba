//! What the trees of the sample answer, which is the same on every machine.

ghost use Rattle.std.specs.Prelude.{◌≢◌, None};

use crate::fault::Fault;
use crate::sample::{Sample, Tree, ranges, root};
use merkle_diff::diff;
use std::alloc::Global;

/// The numbers of keys that are answered for.
const COUNTS: [usize; 3] = [100, 1_000, 10_000];

/// How many ranges `local` may ask of `peer`.
fn differences(alloc: Global, local: &Tree, peer: &Tree) -> Result<usize, Fault>
    requires local_hashed { local.now.root_hash ≢ None }
    requires peer_hashed { peer.now.root_hash ≢ None }
{
    let found = diff(alloc, ranges(local)?, ranges(peer)?)?;
    Ok(found.len())
}

/// The line of `count` keys: their number, the root hashes of the local and the peer's tree, how many page ranges each has, and how many
/// ranges the local tree asks of the peer's and of the third.
fn line(alloc: Global, count: usize) -> Result<String, Fault> {
    let sample = Sample::new(alloc, count)?;
    let local_ranges = ranges(&sample.local)?.len();
    let peer_ranges = ranges(&sample.peer)?.len();
    let of_peer = differences(alloc, &sample.local, &sample.peer)?;
    let of_third = differences(alloc, &sample.local, &sample.third)?;
    let local = root(&sample.local);
    let peer = root(&sample.peer);
    Ok(format!(in alloc;
        "{count} {local} {peer} {local_ranges} {peer_ranges} {of_peer} {of_third}"
    )?)
}

/// A line for each number of keys.
pub fn lines(alloc: Global) -> Result<Vec<String>, Fault> {
    let mut lines = Vec::new(alloc);
    for count in COUNTS {
        lines.push(line(alloc, count)?)?;
    }
    Ok(lines)
}
