//! Which entries are later than what their keys have.
ghost use Rattle.std.specs.Prelude.{◌≡◌, ◌++◌, [], ◌∷◌, if◌then◌else◌, OnOk};
ghost use Rattle.key_order.specs.Text.{text_order};
ghost use Rattle.key_order.specs.Map.{get};
ghost use Rattle.store_file.specs.Logs.{Finds, IsClean, IsOpen, OnlyReads};
ghost use Rattle.store_file.specs.Registers.{is_later};
ghost use Rattle.merkle_store.specs.News.{AreNewsIn, IsNewsAt, later_entries};

use crate::rows::EntryReplica;
use sqlite_trees::store::Store;
use std::alloc::Global;
use store_file::latest::find;
use store_file::log::Log;
use store_file::rows::register_in;
use store_file::table::Entries;
use store_file::{Register, StoreFault};

/// Whether an entry is later than what its key has.
fn is_news(replica: &EntryReplica, entry: &(String, Register)) -> bool
    ensures { result ≡ is_later (get text_order replica.now.rows entry.now.0) entry.now.1 }
{
    match register_in(replica.rows(), &entry.0) {
        Some(own) => *own < entry.1,
        None => true,
    }
}

/// The entries that are later than what their keys have.
pub fn news_of(replica: &EntryReplica, entries: Entries) -> Entries
    ensures { result.items ≡ later_entries replica.now.rows entries.items }
{
    let mut news = entries;
    news.retain(
        |entry: &(String, Register)| -> bool
            ensures { result ≡ is_later (get text_order replica.entry.now.rows entry.now.0) entry.now.1 }
        { is_news(replica, entry) },
    );
    news
}

/// Whether an entry is later than what a log has for its key.
fn is_news_in<S: Store>(
    alloc: Global,
    log: &mut Log<S>,
    entry: &(String, Register),
) -> Result<bool, StoreFault>
    ensures later { Finds S.Store log.old log.new result (λ trees later. IsNewsAt trees entry.now later) }
    ensures reads { OnlyReads S.Store log.old log.new result }
    ensures was_open { IsClean S.Store log.new → IsOpen S.Store log.new → IsOpen S.Store log.old }
{
    match find(alloc, log, entry.0.as_str())? {
        Some(own) => Ok(own < entry.1),
        None => Ok(true),
    }
}

/// Adds an entry to the news where it is later.
fn add_if(news: &mut Entries, later: bool, entry: (String, Register)) -> Result<(), StoreFault>
    ensures added { OnOk result (news.new.items ≡ (if later then news.old.items ++ entry ∷ [] else news.old.items)) }
{
    if !later {
        return Ok(());
    }
    match news.push(entry) {
        Ok(()) => Ok(()),
        Err(_) => Err(StoreFault::Memory),
    }
}

/// The entries that are later than what a log has for their keys. It takes a look into the log for each entry.
///
/// ```rust crates/mst/src/sessions.rt
/// let news = news_in(rt.alloc(), log, came)?;
/// add_beside(rt.alloc(), log, hash_key, &news, keys)?;
/// ```
///
/// # Errors
///
/// [`StoreFault::Database`], [`StoreFault::Malformed`] and [`StoreFault::Memory`]. Nothing is written.
pub fn news_in<S: Store>(
    alloc: Global,
    log: &mut Log<S>,
    entries: Entries,
) -> Result<Entries, StoreFault>
    ensures news { Finds S.Store log.old log.new result (λ trees news. AreNewsIn trees entries.items news.items) }
    ensures reads { OnlyReads S.Store log.old log.new result }
    ensures was_open { IsClean S.Store log.new → IsOpen S.Store log.new → IsOpen S.Store log.old }
{
    let mut news = Vec::new(alloc);
    'entries: for entry in entries {
        let later = is_news_in(alloc, log, &entry)?;
        add_if(&mut news, later, entry)?;
    }
    Ok(news)
}
