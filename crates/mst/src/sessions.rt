//! Sessions with a peer. The file is opened for each message that is made or answered, and closed before the peer is waited for: other commands have it
//! meanwhile, and what they write is told to the peer from then on. What came is added in one transaction, over what the file then has.
ghost use Rattle.mst.specs.Shared.{AddsNews};
ghost use Rattle.store_file.specs.Logs.{Writes};
ghost use Rattle.store_rows.specs.InStep.{StandsInStep};

use crate::fault::Failure;
use crate::peers;
use crate::shared::{SharedSide, SharedTrees};
use merkle_store::counting::Counting;
use merkle_store::fetch_fault::FetchFault;
use merkle_store::fetching::Fetched;
use merkle_store::news::news_in;
use merkle_wire::AskingReplica;
use mst_commands::clock::now;
use mst_commands::writing::add_beside;
use mst_files::closing::FileTrees;
use mst_words::Limits;
use sqlite_trees::store::Store;
use std::io::{Read, Take};
use store_file::format::HASH_KEY_LEN;
use store_file::log::Log;
use store_file::table::Entries;

/// A store's file as a side of a session.
type FileSide<'a> = SharedSide<'a, FileTrees>;

/// Adds those of the entries that are later than what the store has for its keys, of which there are about so many, and returns them.
fn add_news<S: Store>(
    rt: &HostRuntime,
    log: &mut Log<S>,
    hash_key: &[u8; HASH_KEY_LEN],
    came: Entries,
    keys: usize,
) -> Result<Entries, Failure>
    ensures added { Writes S.Store log.old log.new result (AddsNews came.items) }
    ensures stands { StandsInStep S.Store hash_key.now log.old → StandsInStep S.Store hash_key.now log.new }
{
    let news = news_in(rt.alloc(), log, came)?;
    add_beside(rt.alloc(), log, hash_key, &news, keys)?;
    Ok(news)
}

/// Closes the file of a log after what was done on it.
fn close_behind<S: SharedTrees, T: Drop>(
    log: Log<S>,
    done: Result<T, Failure>,
) -> Result<T, Failure> {
    let closed = log.into_trees().close();
    let done = done?;
    closed?;
    Ok(done)
}

/// Adds what came and is later to the file of a side, and returns that. Where nothing came the file is only closed.
fn add_to<S: SharedTrees>(
    rt: &HostRuntime,
    side: &mut SharedSide<'_, S>,
    came: Entries,
) -> Result<Entries, Failure> {
    if came.is_empty() {
        side.close()?;
        return Ok(came);
    }
    let keys = side.row_count()? as usize;
    let mut log = side.log()?;
    let added = add_news(rt, &mut log, side.hash_key(), came, keys);
    close_behind(log, added)
}

/// Adds what was fetched for a store to its file, and says what that was; with `--both` nothing of a round in which nothing came, as between copies that
/// agree.
fn join<S: SharedTrees>(
    rt: &HostRuntime,
    side: &mut SharedSide<'_, S>,
    both: bool,
    fetched: Fetched,
) -> Result<(), Failure> {
    let Fetched { came, traffic } = fetched;
    let count = came.len();
    let news = add_to(rt, side, came)?;
    if !both || count > 0 || traffic.messages > 1 {
        // (what came is in the file, though nobody may read how much it was)
        let _ = peers::tell(rt, count, news.len(), &traffic);
    }
    Ok(())
}

/// Whether the peer was heard to the end, though nothing of it was taken: it can be answered then.
fn is_heard(failure: &Failure) -> bool {
    matches!(
        failure,
        Failure::Ahead(_) | Failure::TooLong(_) | Failure::Fetch(FetchFault::TooMany)
    )
}

/// Gives the peer the turn to ask, and answers it until it gives the turn back.
fn answer_in_turn<S: SharedTrees, R: Read>(
    rt: &HostRuntime,
    side: SharedSide<'_, S>,
    from: &mut Take<R>,
) -> Result<(), Failure> {
    peers::pass_turn(rt)?;
    if !peers::answer(rt, &mut Counting::new(rt.alloc(), side), from)?.is_turn {
        return Err(Failure::OneWay);
    }
    Ok(())
}

/// Adds what was fetched, and answers the peer then, also where nothing was taken or the file can't be written.
fn join_and_answer<S: SharedTrees, R: Read>(
    rt: &HostRuntime,
    side: SharedSide<'_, S>,
    fetched: Result<Fetched, Failure>,
    from: &mut Take<R>,
) -> Result<(), Failure> {
    let mut side = side;
    let joined = match fetched {
        Ok(fetched) => join(rt, &mut side, true, fetched),
        Err(failure) if is_heard(&failure) => Err(failure),
        Err(failure) => return Err(failure),
    };
    let answered = answer_in_turn(rt, side, from);
    joined?;
    answered
}

/// Fetches what the peer has, and with `--both` answers it then.
pub fn pull(
    rt: &HostRuntime,
    path: &str,
    seconds: u64,
    limits: &Limits,
    both: bool,
) -> Result<(), Failure> {
    let mut side = FileSide::of(rt, path, seconds)?;
    let mut from = rt.stdin().take(peers::bytes_read(limits));
    let fetched = peers::ask(rt, &mut side, limits, &mut from);
    if both {
        return join_and_answer(rt, side, fetched, &mut from);
    }
    join(rt, &mut side, both, fetched?)
}

/// Fetches what the peer has, which gave the turn, and adds it.
fn ask_in_turn<S: SharedTrees, R: Read>(
    rt: &HostRuntime,
    side: SharedSide<'_, S>,
    limits: &Limits,
    from: &mut Take<R>,
) -> Result<(), Failure> {
    let mut side = side;
    let fetched = peers::ask(rt, &mut side, limits, from);
    // (what was fetched is added though the peer may have gone)
    let _ = peers::pass_turn(rt);
    join(rt, &mut side, true, fetched?)
}

/// Answers the peer by a side, since this time of the clock, and with `both` fetches then what the peer has, if it gives the turn.
fn serve_by<S: SharedTrees, R: Read>(
    rt: &HostRuntime,
    side: SharedSide<'_, S>,
    limits: &Limits,
    both: bool,
    begun: u64,
    from: &mut Take<R>,
) -> Result<(), Failure> {
    let mut side = Counting::new(rt.alloc(), side);
    let served = peers::answer(rt, &mut side, from)?;
    let (side, entries) = side.into_parts();
    // (the peer was served, though nobody may read what that took)
    let _ = peers::tell_served(rt, &served.traffic, entries, begun);
    if served.is_turn && both {
        return ask_in_turn(rt, side, limits, from);
    }
    Ok(())
}

/// Answers the peer, and with `--both` fetches then what it has, if it gives the turn.
pub fn serve(
    rt: &HostRuntime,
    path: &str,
    seconds: u64,
    limits: &Limits,
    both: bool,
) -> Result<(), Failure> {
    let begun = now(rt)?;
    let side = FileSide::of(rt, path, seconds)?;
    let mut from = rt.stdin().take(peers::bytes_read(limits));
    serve_by(rt, side, limits, both, begun, &mut from)
}

/// Those of the entries that are later than what the file of a side has for their keys.
fn news_of<S: SharedTrees>(
    rt: &HostRuntime,
    side: &mut SharedSide<'_, S>,
    came: Entries,
) -> Result<Entries, Failure> {
    let mut log = side.log()?;
    let news = match news_in(rt.alloc(), &mut log, came) {
        Ok(news) => Ok(news),
        Err(fault) => Err(Failure::from(fault)),
    };
    close_behind(log, news)
}

/// Looks at what a pull would bring, and tells it.
pub fn look(
    rt: &HostRuntime,
    path: &str,
    seconds: u64,
    limits: &Limits,
    json: bool,
) -> Result<(), Failure> {
    let mut side = FileSide::of(rt, path, seconds)?;
    let mut from = rt.stdin().take(peers::bytes_read(limits));
    let fetched = peers::ask(rt, &mut side, limits, &mut from)?;
    let news = news_of(rt, &mut side, fetched.came)?;
    peers::tell_news(rt, &news, json)
}
