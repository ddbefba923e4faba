//! A key of one's own, and balances by it of which the one that was written last stays.
ghost use Rattle.std.specs.Prelude.{◌≡◌, OnOk, OnErr};
ghost use Rattle.merkle_replica.specs.Puts.{HasPut};
ghost use Rattle.merkle_digest.specs.Sip24.{Holds};

use merkle_digest::{HashBytes, KeyBytes, KeyBytesExact, SameClone, Sip24, SipHasher};
use merkle_replica::{Greatest, Join, Replica, RowHasher};
use std::alloc::AllocError;

/// The number of an account: accounts are in the order of its bytes, the first one first.
#[derive(Clone, Copy, Debug, PartialEq, Eq, PartialOrd, Ord)]
pub struct Account {
    pub number: [u8; 8],
}

/// The eight bytes, of which the digests of pages are made.
impl KeyBytes for Account {
    ghost use Rattle.std.proofs.Common.{rules};

    ghost bytes_of = { λ account. account.number };

    ghost bytes_respect_eq = { λ a b equal. Prim.search rules };

    fn key_bytes(&self) -> &[u8] {
        self.number.key_bytes()
    }
}

/// Accounts with equal bytes are equal.
impl KeyBytesExact for Account {
    ghost use Rattle.std.specs.Cmp.Lexicographic.{bytes_decides};

    ghost bytes_tell_keys = { λ a b same. (bytes_decides a.number b.number).1 same };
}

/// A clone of an account is that account.
impl SameClone for Account {
    ghost use Rattle.std.specs.Cmp.Rules.{comparing};
    ghost use Rattle.std.proofs.Common.{rules};
    ghost use Rattle.key_order.proofs.Clones.{exact_clone};

    ghost clone_is_same = { exact_clone ⟦<Account as Ord>⟧.cmp (Prim.search (comparing, rules)) };
}

/// The eight bytes, of whose hash the level is read.
impl HashBytes for Account {
    ghost use Rattle.std.proofs.Common.{rules};

    ghost fed_bytes = { λ account. account.number };

    ghost fed_bytes_respect_eq = { λ a b equal. Prim.search rules };

    fn feed(&self, sip: &mut Sip24) {
        self.number.feed(sip);
    }
}

/// Balances by account, each with the time when it was written.
pub type Balances = Replica<Account, Greatest<(u64, u64)>, SipHasher, 16>;

/// Writes the balance of an account at a time: what was written at a later time stays.
///
/// # Errors
///
/// Out of memory: the balances are as they were.
pub fn book(
    balances: &mut Balances,
    account: Account,
    time: u64,
    balance: u64,
) -> Result<(), AllocError>
    ensures joined { OnOk result (HasPut ⟦<SipHasher as RowHasher<16, Account, Greatest<(u64, u64)>>>⟧.laws balances.old
        (account, record { 0 = (time, balance) }) balances.new) }
    ensures unchanged { OnErr result (balances.new ≡ balances.old) }
{
    balances.put(account, Greatest((time, balance)))
}
