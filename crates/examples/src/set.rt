//! A set of names that only grows: a replica with `()` for values.
ghost use Rattle.std.specs.Prelude.{◌≡◌, [], ◌∷◌, OnOk, OnErr, IfErr};
ghost use Rattle.merkle_tree_theory.specs.State.{SameSettings};
ghost use Rattle.merkle_replica.specs.ByTurns.{StopInTurns};
ghost use Rattle.examples.specs.Set.{IsUnion, SyncsToTheUnion};

use crate::store::Store;
use crate::sync::sync;
use merkle_digest::SipHasher;
use merkle_replica::{RowHasher, TurnsError};
use std::alloc::{AllocError, Global};

/// A set of names.
pub type Names = Store<()>;

/// Adds a name, where it isn't there yet.
///
/// # Errors
///
/// Out of memory: the set is as it was.
pub fn add(names: &mut Names, name: String) -> Result<(), AllocError>
    ensures added { OnOk result (IsUnion names.old.rows ((name, tt) ∷ []) names.new.rows) }
    ensures unchanged { OnErr result (names.new ≡ names.old) }
    ensures settings { SameSettings names.old.tree names.new.tree }
{
    names.put(name, ())
}

/// Leaves both sets with the union of their names, while digests are faithful in what is met before each of the four pulls.
///
/// # Errors
///
/// Out of memory: no name is lost.
pub fn unite(alloc: Global, a: &mut Names, b: &mut Names) -> Result<(), TurnsError<String>>
    ensures union { OnOk result (SyncsToTheUnion ⟦<SipHasher as RowHasher<16, String, ()>>⟧.laws a.old b.old a.new b.new) }
    ensures stopped { IfErr result (StopInTurns ⟦<SipHasher as RowHasher<16, String, ()>>⟧.laws a.old b.old a.new b.new) }
    ensures a_settings { SameSettings a.old.tree a.new.tree }
    ensures b_settings { SameSettings b.old.tree b.new.tree }
{
    sync(alloc, a, b)
}
