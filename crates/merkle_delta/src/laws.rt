//! Laws over the definitions alone: that what is told is what is heard, and how long it can be. The functions have no effect and take no memory.
ghost use Rattle.std.specs.Prelude.{ℕ, ◌+◌, ◌≤◌, List, length};
ghost use Rattle.std.specs.List.{concat};
ghost use Rattle.merkle_delta.specs.Deltas.{IsDeltaOver};
ghost use Rattle.merkle_delta.specs.Hearing.{ToldIsHeard};

/// What is told is what is heard, whatever carries the messages: where the message is that of [`Deltas::ask`](crate::Deltas::ask), the peer reads the
/// question that was asked; and where it tells its plain reply as [`tell`](crate::tell) does, [`Deltas::hear`](crate::Deltas::hear) hears that reply or
/// none, if the reply tells no other bytes with its digest, which [`Deltas::tells_only`](crate::Deltas::tells_only) decides.
pub fn what_is_told_is_heard()
    ensures { ToldIsHeard }
{}

/// What a delta tells has at most as many bytes as the chunks and the delta have together, whoever made it.
pub fn a_delta_is_bounded()
    ensures { (chunks : List (List ℕ)) (delta bytes : List ℕ) → IsDeltaOver chunks delta bytes → length bytes ≤ length (concat chunks) + length delta }
{}
