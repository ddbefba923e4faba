//! Commands on one file, a line each.
use crate::fault::Failure;
use crate::tasks::{name_store, print_end, run_told};
use mst_commands::Input;
use mst_commands::change::Change;
use mst_commands::clock::now;
use mst_files::closing::{Closing, close_behind};
use mst_files::opening::open_file;
use mst_words::help::HELP;
use mst_words::verb::{form_of, verb_of};
use mst_words::{
    Asked, Command, NoWords, StoreCommand, TableCommand, Task, Verb, help_of, task_of, words_of,
};
use sqlite_trees::store::Store;
use std::fmt::Display;
use std::io::{self, ErrorKind};
use store_file::StoreFault;
use store_file::format::{Note, recognise};
use store_file::log::Log;

/// What is said of a `commit` or an `abort` that no `begin` stands before.
const NO_CHANGE: &str = "no change has begun";

/// What is said of a command that a line can't have.
const NO_COMMAND: &str = "the shell has no such command";

/// A line of the shell.
#[derive(Clone, Copy)]
struct At {
    number: u64,
    /// Whether standard output is told how the line ended.
    is_answered: bool,
}

impl At {
    /// Says on standard error, and in the answer, why the line failed.
    fn refuse<M: Display>(self, rt: &HostRuntime, why: &M) -> Result<bool, Failure> {
        eprintln!(rt; "mst: line {}: {why}", self.number)?;
        if self.is_answered {
            println!(rt; "failed: {why}")?;
        }
        Ok(false)
    }

    /// Answers that the line succeeded.
    fn accept(self, rt: &HostRuntime) -> Result<(), Failure> {
        if self.is_answered {
            println!(rt; "ok")?;
        }
        Ok(())
    }
}

/// The command of a line, or why it has no place in the shell.
fn in_shell<'a>(task: &Task<'a>) -> Result<StoreCommand<'a>, &'static str> {
    if task.wait.is_some() {
        return Err("the shell has the file already, so --wait has no effect");
    }
    let Command::Store(command) = task.command else {
        return Err(NO_COMMAND);
    };
    match command {
        StoreCommand::Table(TableCommand::Put { is_input: true, .. }) => {
            Err("put can't read standard input in the shell")
        }
        StoreCommand::Table(TableCommand::Import { .. } | TableCommand::Check { .. }) => {
            Err(NO_COMMAND)
        }
        _ => Ok(command),
    }
}

/// Adds what a command between `begin` and `commit` writes to what waits, and returns whether it succeeded.
fn run_waiting<S: Store>(
    rt: &HostRuntime,
    log: &mut Log<S>,
    change: &mut Change,
    at: At,
    command: StoreCommand<'_>,
) -> Result<bool, Failure> {
    let added = match command {
        StoreCommand::Table(
            TableCommand::Put {
                key,
                value,
                wanted: None,
                ..
            },
        ) => change.put(rt.alloc(), key, value),
        StoreCommand::Table(TableCommand::Del { key }) => change.del(rt.alloc(), log, key),
        _ => {
            return at.refuse(
                rt,
                &"between begin and commit stand only put and del, without conditions",
            );
        }
    };
    match added {
        Ok(()) => Ok(true),
        Err(fault) => at.refuse(rt, &fault),
    }
}

/// Runs the command of this name with what its words give, and returns whether it succeeded.
fn run_verb<S: Store>(
    rt: &HostRuntime,
    log: &mut Log<S>,
    note: &mut Note,
    change: &mut Option<Change>,
    at: At,
    verb: Verb,
    words: &[String],
) -> Result<bool, Failure> {
    let task = match task_of(verb, Some(""), words) {
        Ok(task) => task,
        Err(wrong) => return at.refuse(rt, &wrong),
    };
    let command = match in_shell(&task) {
        Ok(command) => command,
        Err(why) => return at.refuse(rt, &why),
    };
    if let Some(change) = change {
        return run_waiting(rt, log, change, at, command);
    }
    match run_told(rt, log, note, command, Input::Nothing) {
        Ok(()) => {
            print_end(rt, command, None)?;
            Ok(true)
        }
        Err(failure) => at.refuse(rt, &failure),
    }
}

/// Prints the help that the words after `help` ask for, and returns whether there is such.
fn run_help(rt: &HostRuntime, at: At, words: &[String]) -> Result<bool, Failure> {
    match help_of(words) {
        Ok(Asked::HelpOf(verb)) => print!(rt; "{}", form_of(verb).help)?,
        Ok(_) => print!(rt; "{HELP}")?,
        Err(wrong) => return at.refuse(rt, &wrong),
    }
    Ok(true)
}

/// Begins a change, of which nothing is written before `commit`.
fn begin(rt: &HostRuntime, change: &mut Option<Change>, at: At) -> Result<bool, Failure> {
    if change.is_some() {
        return at.refuse(rt, &"a change has begun already");
    }
    *change = Some(Change::new(rt.alloc()));
    Ok(true)
}

/// Drops a change.
fn abort(rt: &HostRuntime, change: &mut Option<Change>, at: At) -> Result<bool, Failure> {
    match change.take() {
        Some(_) => Ok(true),
        None => at.refuse(rt, &NO_CHANGE),
    }
}

/// Writes a change, and returns whether that succeeded.
fn commit<S: Store>(
    rt: &HostRuntime,
    log: &mut Log<S>,
    note: &mut Note,
    change: &mut Option<Change>,
    at: At,
) -> Result<bool, Failure> {
    let Some(change) = change.take() else {
        return at.refuse(rt, &NO_CHANGE);
    };
    if let Err(failure) = name_store(rt, log, note) {
        return at.refuse(rt, &failure);
    }
    match change.land(
        rt.alloc(),
        log,
        &note.hash_key,
        note.writer.as_str(),
        now(rt)?,
    ) {
        Ok(true) => Ok(true),
        Ok(false) => at.refuse(rt, &"a line of the change failed: nothing of it is written"),
        Err(fault) => at.refuse(rt, &fault),
    }
}

/// Runs a line that is one word about changes, if it is one, and returns whether it succeeded.
fn run_of_change<S: Store>(
    rt: &HostRuntime,
    log: &mut Log<S>,
    note: &mut Note,
    change: &mut Option<Change>,
    at: At,
    name: &str,
) -> Result<Option<bool>, Failure> {
    match name {
        "begin" => Ok(Some(begin(rt, change, at)?)),
        "abort" => Ok(Some(abort(rt, change, at)?)),
        "commit" => Ok(Some(commit(rt, log, note, change, at)?)),
        _ => Ok(None),
    }
}

/// Runs a line, and returns whether it succeeded.
fn run_line<S: Store>(
    rt: &HostRuntime,
    log: &mut Log<S>,
    note: &mut Note,
    change: &mut Option<Change>,
    at: At,
    line: &str,
) -> Result<bool, Failure> {
    let words = match words_of(rt.alloc(), line) {
        Ok(words) => words,
        Err(NoWords::Memory) => return Err(Failure::from(StoreFault::Memory)),
        Err(NoWords::Wrong) => {
            return at.refuse(
                rt,
                &"a quote isn't closed, or an unknown escape follows a backslash",
            );
        }
    };
    let Some((name, rest)) = words.split_first() else {
        return Ok(true);
    };
    if name.as_str() == "help" {
        return run_help(rt, at, rest);
    }
    if rest.is_empty() {
        if let Some(done) = run_of_change(rt, log, note, change, at, name.as_str())? {
            return Ok(done);
        }
    }
    match verb_of(name.as_str()) {
        Some(verb) => run_verb(rt, log, note, change, at, verb, rest),
        None => at.refuse(rt, &NO_COMMAND),
    }
}

/// Runs a line that was read, and returns whether it succeeded.
fn run_read<S: Store>(
    rt: &HostRuntime,
    log: &mut Log<S>,
    note: &mut Note,
    change: &mut Option<Change>,
    at: At,
    read: io::Result<String>,
) -> Result<bool, Failure> {
    match read {
        Ok(line) => run_line(rt, log, note, change, at, line.as_str()),
        Err(error) if error.kind() == ErrorKind::InvalidData => {
            at.refuse(rt, &"the line isn't valid UTF-8")
        }
        Err(error) => Err(Failure::from(error)),
    }
}

/// Notes in a change that has begun that a line failed.
fn note_failure(change: &mut Option<Change>) {
    if let Some(change) = change {
        change.fail();
    }
}

/// Runs the lines of standard input, and answers each of them where that is asked for.
///
/// # Errors
///
/// [`Failure::Lines`] where commands failed: each said why on standard error, with the number of its line, and the others were carried out.
fn run_lines<S: Store>(
    rt: &HostRuntime,
    log: &mut Log<S>,
    note: &mut Note,
    is_answered: bool,
) -> Result<(), Failure> {
    let mut failed = 0u64;
    let mut number = 0u64;
    let mut change = None;
    for line in rt.lines(rt.alloc()) {
        number = number.saturating_add(1);
        let at = At {
            number,
            is_answered,
        };
        if run_read(rt, log, note, &mut change, at, line)? {
            at.accept(rt)?;
        } else {
            failed = failed.saturating_add(1);
            note_failure(&mut change);
        }
    }
    if change.is_some() {
        eprintln!(rt; "mst: the input ended before commit: nothing of the change is written")?;
        failed = failed.saturating_add(1);
    }
    if failed > 0 {
        return Err(Failure::Lines(failed));
    }
    Ok(())
}

/// The same by a log that is lent.
fn run_lent<S: Store>(
    rt: &HostRuntime,
    log: &mut Log<S>,
    is_answered: bool,
) -> Result<(), Failure> {
    let mut note = recognise(rt.alloc(), log)?;
    run_lines(rt, log, &mut note, is_answered)
}

/// The same of a log that is open, and closes its file.
fn run_on<S: Store + Drop>(rt: &HostRuntime, log: Log<S>, is_answered: bool) -> Result<(), Failure>
where
    Log<S>: Closing,
{
    let mut log = log;
    let done = run_lent(rt, &mut log, is_answered);
    close_behind(log, done)
}

/// Runs the lines of standard input on a file, and answers each of them where that is asked for.
pub fn run(rt: &HostRuntime, path: &str, seconds: u64, is_answered: bool) -> Result<(), Failure> {
    run_on(rt, open_file(rt, path, seconds)?, is_answered)
}
