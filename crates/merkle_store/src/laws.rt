//! Laws over the definitions alone. Each function has no effect and takes no memory.
ghost use Rattle.merkle_store.specs.Kept.{AddedAreJoined, InStepTellFound};
ghost use Rattle.merkle_store.specs.News.{NewsBringAll, NewsInAreLater};
ghost use Rattle.merkle_store.specs.Sessions.{ServedBring};

use merkle_delta::laws::what_is_told_is_heard;
use merkle_digest::SipHasher;
use merkle_wire::laws::a_session_is_a_catch_up;
use store_file::Register;

/// What [`find`](store_file::latest::find) returns for a key is what the rows in memory have for it, up to equality.
pub fn what_is_found_is_kept()
    ensures { InStepTellFound }
{}

/// A catch-up brings what is missing where a peer replied to each of its messages, as [`fetch`](crate::fetching::fetch) and
/// [`serve`](crate::serving::serve) say of the two sides, and no delta among the replies tells other bytes with the digest of the plain reply that it
/// was made of: the entries are the peer's, later or of keys that the side doesn't have, and while digests are faithful all that are missing there.
pub fn a_served_catch_up_brings_what_is_lacked()
    ensures { ServedBring }
{
    what_is_told_is_heard();
    a_session_is_a_catch_up::<String, Register, SipHasher, 16>();
}

/// Where [`add_all`](store_file::table::add_all) has added entries, the rows of the file are the join of those before with these entries.
pub fn what_is_added_is_joined()
    ensures { AddedAreJoined }
{}

/// A file may be written between the time when its rows were read and the time when the [`news`](crate::fetching::Fetched) of a peer are added: then
/// too it has the join of its rows with all that came.
pub fn news_bring_all_that_came()
    ensures { NewsBringAll }
{}

/// What [`news_in`](crate::news::news_in) finds later than a log is what is later than the rows of that log in memory.
pub fn news_in_a_log_are_later_than_its_rows()
    ensures { NewsInAreLater }
{}
