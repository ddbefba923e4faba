//! Two replicas that meet: each catches up with the other.
ghost use Rattle.std.specs.Prelude.{◌≡◌, [], ◌∷◌, OnOk, OnErr, IfErr, max, nat_eq};
ghost use Rattle.key_order.specs.Join.{IsJoin};
ghost use Rattle.key_order.specs.Text.{text_order};
ghost use Rattle.merkle_tree_theory.specs.Settings.{default_settings};
ghost use Rattle.merkle_tree_theory.specs.State.{HasSettings};
ghost use Rattle.merkle_tree_theory.specs.declared.page_format.PageFormat.TheVariants.{V1};
ghost use Rattle.merkle_replica.specs.CatchUp.{StopCatchingUp};
ghost use Rattle.merkle_replica.specs.Contents.{side, with_rows};
ghost use Rattle.merkle_replica.specs.Faithfully.{ConvergeAfterPuts, ConvergeWhileFaithful};

use merkle_digest::SipHasher;
use merkle_replica::{CatchUpsError, Replica, RowHasher, catch_up_both};
use merkle_search_tree::builder::Builder;
use std::alloc::{AllocError, Global};

/// Numbers by name, of which the greater stays.
pub type Numbers = Replica<String, u64, SipHasher, 16>;

/// Numbers, none yet, under the default settings.
pub fn no_numbers(alloc: Global) -> Numbers
    ensures empty { result.rows ≡ [] }
    ensures defaults { HasSettings (default_settings V1) result.tree }
{
    Replica::new(alloc, Builder::default())
}

/// Puts a number under a name: of it and the one that is there the greater stays.
///
/// # Errors
///
/// Out of memory: the numbers are as they were.
pub fn raise(numbers: &mut Numbers, name: String, number: u64) -> Result<(), AllocError>
    ensures joined { OnOk result (IsJoin text_order nat_eq max numbers.old.rows ((name, number) ∷ []) numbers.new.rows) }
    ensures side { OnOk result (side numbers.new ≡ with_rows (side numbers.old) numbers.new.rows) }
    ensures unchanged { OnErr result (numbers.new ≡ numbers.old) }
{
    numbers.put(name, number)
}

/// Leaves both with the join of both, while digests are faithful in what is met before each of the two catch-ups.
///
/// # Errors
///
/// Out of memory: what was joined until then stays.
pub fn meet(a: &mut Numbers, b: &mut Numbers) -> Result<(), CatchUpsError>
    ensures join { OnOk result (ConvergeWhileFaithful ⟦<SipHasher as RowHasher<16, String, u64>>⟧.laws a.old b.old a.new b.new) }
    ensures refused { IfErr result (StopCatchingUp ⟦<SipHasher as RowHasher<16, String, u64>>⟧.laws a.old b.old a.new b.new) }
{
    catch_up_both(a, b)?;
    Ok(())
}

/// Puts a number into each of two, and lets them meet.
///
/// # Errors
///
/// Out of memory: what was put and joined until then stays.
pub fn raise_both(
    a: &mut Numbers,
    a_name: String,
    a_number: u64,
    b: &mut Numbers,
    b_name: String,
    b_number: u64,
) -> anyhow::Result<()>
    // There were two replicas between, each with its number put, and both then hold the join of these.
    ensures join { OnOk result (ConvergeAfterPuts ⟦<SipHasher as RowHasher<16, String, u64>>⟧.laws
        a.old (a_name, a_number) b.old (b_name, b_number) a.new b.new) }
{
    raise(a, a_name, a_number)?;
    raise(b, b_name, b_number)?;
    catch_up_both(a, b)?;
    Ok(())
}
