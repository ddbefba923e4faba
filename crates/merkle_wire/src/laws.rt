//! Laws over the definitions: a session of messages is a catch-up, whatever carries the messages; a session with an honest peer ends; what it costs;
//! and when digests in it are faithful. The functions have no effect and take no memory.
ghost use Rattle.std.specs.Prelude.{ℕ, ◌+◌, ◌*◌, ◌≤◌, ◌↔◌, Bool, List, length, IsTrue};
ghost use Rattle.key_order.specs.Map.{IsMap};
ghost use Rattle.merkle_replica.specs.Contents.{Side};
ghost use Rattle.merkle_tree_theory.specs.Gap.{Gap};
ghost use Rattle.merkle_wire.specs.SessionLaws.{AnswersAreTaken, BroughtRowsCatchUp, InSessions, LackedKeysAreTold, LackedPagesAreTold};
ghost use Rattle.merkle_wire.specs.SessionLaws.{NoCollisionIsFaithful, SessionsBring};
ghost use Rattle.merkle_wire.specs.Taking.{HasPageAt};
ghost use Rattle.merkle_wire.specs.ToldAlike.{ItemsAreToldAlike};

use merkle_bytes::{Decode, Encode};
use merkle_digest::{Key, KeyBytesExact};
use merkle_replica::laws::no_collision_is_enough;
use merkle_replica::{Join, RowHasher};
use merkle_search_tree::laws::{a_map_has_one_tree, equal_pages_have_equal_maps};

/// A session of messages is a catch-up, whatever carries the messages. The first message asks for the root, each message is answered as by
/// [`answer`](crate::answer), and each reply is taken as by [`CatchingUp::take`](crate::CatchingUp::take), until rows come. The rows ascend. Each is
/// a row of the peer that this side lacks or has with another digest, and while digests are faithful these are all such rows. To join them is then a
/// catch-up, and leaves the join of both sides' rows. That the peer's map is small says
/// [`a_replica_in_memory_is_small`](merkle_replica::laws::a_replica_in_memory_is_small).
pub fn a_session_is_a_catch_up<
    K: Key + Decode,
    V: Join + Decode,
    H: RowHasher<N, K, V>,
    const N: usize,
>()
    ensures brings { SessionsBring H.laws N K.encoding V.encoding }
    ensures catch_up { BroughtRowsCatchUp H.laws }
{
    a_map_has_one_tree::<K, H, N>();
}

/// A session with an honest peer ends, whatever carries the messages. The first message asks for the root, each message so far was answered as by
/// [`answer`](crate::answer), and each reply was taken as by [`CatchingUp::take`](crate::CatchingUp::take). The next reply is then taken unless
/// memory runs out or a limit is reached (`taken`), and at most three replies for each row of the peer, and two more, are followed by a question
/// (`ends`). The peer's rows stay the same meanwhile. `taken` asks for fewer than 2^64 rows, whose keys and values can be read back. So 256 rounds of
/// outlines are enough for honest peers, and no row comes twice.
pub fn an_honest_session_ends<
    K: Key + Decode,
    V: Join + Decode,
    H: RowHasher<N, K, V>,
    const N: usize,
>()
    ensures taken { AnswersAreTaken H.laws N K.encoding V.encoding K.is_value V.is_value }
    ensures ends { InSessions H.laws N K.encoding V.encoding (λ local peer begun last more so_far. length more ≤ 3 * length peer.rows + 2) }
{
    a_map_has_one_tree::<K, H, N>();
}

/// A session with an honest peer costs what this side lacks, whatever carries the messages. Replies have at most as many outlines as the peer has
/// pages that this side lacks at their places, and at most as many lists of nodes alone (`pages`). This side has a page if its own page over the same
/// gap has the same digest, which a test decides (`known`); pages below such a page don't count. Values come for at most as many keys as this side
/// lacks or has with another digest (`keys`). The law doesn't count two things: a page without pages below it comes with all of its nodes, as rows or
/// digests; and this side may ask for all rows in a gap.
pub fn a_session_costs_what_is_lacked<
    K: Key + Decode,
    V: Join + Decode,
    H: RowHasher<N, K, V>,
    const N: usize,
>()
    ensures pages { LackedPagesAreTold H.laws N K.encoding V.encoding }
    ensures keys { LackedKeysAreTold H.laws N K.encoding V.encoding }
    ensures known { (s : Side K V H) → IsMap K.cmp s.rows → (is_there : Gap K → List ℕ → Bool)
        × ((g : Gap K) (d : List ℕ) → IsTrue (is_there g d) ↔ HasPageAt H.laws s g d) }
{
    a_map_has_one_tree::<K, H, N>();
    equal_pages_have_equal_maps::<K>();
}

/// In page format 2, for keys that differ in their bytes, digests in a session are faithful if no streams of pages, no values and no nodes of pages
/// collide. Both sides need the same settings, and digest the peer's values alike.
pub fn no_collision_makes_a_session_faithful<
    K: Ord + KeyBytesExact,
    V: Join,
    H: RowHasher<N, K, V>,
    const N: usize,
>()
    ensures { NoCollisionIsFaithful H.laws N }
{
    no_collision_is_enough::<K, V, H, N>();
}

/// What is told of a page rests on the bytes of its keys and values alone. So a side whose rows are read back, as values that are equal to those that it
/// has and not the same ones, tells what it would tell by these.
pub fn equal_bytes_are_told_alike<K: Ord + Decode, V: Encode>()
    ensures { ItemsAreToldAlike K.cmp K.encoding V.encoding }
{}
