//! Registers of which the last writer wins.
ghost use Rattle.std.specs.Prelude.{◌≡◌, OnOk, OnErr};
ghost use Rattle.std.specs.Cmp.Rules.{comparing};
ghost use Rattle.std.proofs.Common.{rules};
ghost use Rattle.merkle_digest.specs.Sip24.{Holds};
ghost use Rattle.merkle_tree_theory.specs.State.{SameSettings};
ghost use Rattle.merkle_replica.specs.Faithfully.{ConvergeWhileFaithful};
ghost use Rattle.merkle_replica.specs.Puts.{HasPut};
ghost use Rattle.examples.specs.Register.{IsWritten};

use crate::store::Store;
use merkle_digest::{HashBytes, Sip24, SipHasher};
use merkle_replica::{CatchUpsError, Greatest, Join, RowHasher, catch_up_both};
use std::alloc::{AllocError, Global};

/// What was written last: at this time, by this writer, this value. Of two registers the one with the greater time is the later; at
/// one time that of the greater writer, and of one writer the greater value, so that replicas never disagree.
#[derive(Clone, Copy, Debug, PartialEq, Eq, PartialOrd, Ord)]
pub struct Register {
    pub time: u64,
    pub writer: u64,
    pub value: u64,
}

/// The three numbers, eight bytes each.
impl HashBytes for Register {
    ghost use Rattle.examples.specs.Register.{bytes_of_register};
    ghost use Rattle.examples.specs.RegisterLaws.{same_register_bytes};

    ghost fed_bytes = { bytes_of_register };

    ghost fed_bytes_respect_eq = { same_register_bytes };

    fn feed(&self, sip: &mut Sip24) {
        self.time.feed(sip);
        self.writer.feed(sip);
        self.value.feed(sip);
    }
}

/// The later of two registers. It takes no memory.
impl Join for Register {
    ghost use Rattle.std.specs.Ordering.{ord_max};
    ghost use Rattle.key_order.proofs.Greater.{greater_joining};

    ghost join_of = { ord_max ⟦<Register as Ord>⟧.cmp };

    ghost joining = { greater_joining ⟦<Register as Ord>⟧.cmp (Prim.search (comparing, rules)) ⟦<Register as PartialEq>⟧.eq (Prim.search (comparing, rules)) };

    fn join(&self, _alloc: Global, other: &Self) -> Result<Self, AllocError> {
        Ok((*self).max(*other))
    }
}

/// Registers by name.
pub type Registers = Store<Register>;

/// Writes a register: it then holds the later of what it held and what is written.
///
/// # Errors
///
/// Out of memory: all registers are as they were.
pub fn write(registers: &mut Registers, name: String, register: Register) -> Result<(), AllocError>
    ensures latest { OnOk result (IsWritten ⟦<Register as Ord>⟧.cmp registers.old.rows name register registers.new.rows) }
    ensures unchanged { OnErr result (registers.new ≡ registers.old) }
    ensures settings { SameSettings registers.old.tree registers.new.tree }
{
    registers.put(name, register)
}

/// Registers without a type of their own: a time, and a value.
pub type Stamped = Store<Greatest<(u64, u64)>>;

/// Writes a value at a time: the pair that is greater stays.
///
/// # Errors
///
/// Out of memory: all registers are as they were.
pub fn stamp(registers: &mut Stamped, name: String, time: u64, value: u64) -> Result<(), AllocError>
    ensures joined { OnOk result (HasPut ⟦<SipHasher as RowHasher<16, String, Greatest<(u64, u64)>>>⟧.laws registers.old
        (name, record { 0 = (time, value) }) registers.new) }
    ensures unchanged { OnErr result (registers.new ≡ registers.old) }
    ensures settings { SameSettings registers.old.tree registers.new.tree }
{
    registers.put(name, Greatest((time, value)))
}

/// A time, a writer and a value: of what two writers wrote at one time, that of the greater writer stays.
pub type Signed = Greatest<(u64, (u64, u64))>;

/// Writes a value at a time, by a writer: the greatest stays, by time, then by writer, then by value.
///
/// # Errors
///
/// Out of memory: all registers are as they were.
pub fn sign(
    registers: &mut Store<Signed>,
    name: String,
    time: u64,
    writer: u64,
    value: u64,
) -> Result<(), AllocError>
    ensures joined { OnOk result (HasPut ⟦<SipHasher as RowHasher<16, String, Signed>>⟧.laws registers.old
        (name, record { 0 = (time, (writer, value)) }) registers.new) }
    ensures unchanged { OnErr result (registers.new ≡ registers.old) }
{
    registers.put(name, Greatest((time, (writer, value))))
}

/// Leaves both with what was written last, while digests are faithful in what is met before each of the two catch-ups.
///
/// # Errors
///
/// Out of memory: what was joined until then stays.
pub fn settle(a: &mut Store<Signed>, b: &mut Store<Signed>) -> Result<(), CatchUpsError>
    ensures join { OnOk result (ConvergeWhileFaithful ⟦<SipHasher as RowHasher<16, String, Signed>>⟧.laws
        a.old b.old a.new b.new) }
{
    catch_up_both(a, b)?;
    Ok(())
}
