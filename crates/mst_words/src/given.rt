//! What the words of a command give, and the command that takes it.
ghost use Rattle.std.specs.Prelude.{◌≡◌};
ghost use Rattle.mst_words.specs.Said.{said_of};
ghost use Rattle.mst_words.specs.Tasks.{AreLimits, IsCommand, IsSelection, IsTableCommand, IsTask};
ghost use Rattle.mst_words.specs.declared.command.Command.TheVariants.{Store};
ghost use Rattle.mst_words.specs.declared.command.StoreCommand.TheVariants.{Table};
ghost use Rattle.mst_words.specs.declared.verb.Verb.TheVariants.{List, Put};

use crate::command::{Command, Limits, Selection, StoreCommand, TableCommand, Task, Wanted};
use crate::verb::Verb;

/// What the words of a command give, whichever command it is.
#[derive(Clone, Copy)]
pub(crate) struct Given<'a> {
    pub key: &'a str,
    pub value: &'a str,
    /// Whether the value is to be read from standard input.
    pub is_input: bool,
    pub writer: Option<&'a str>,
    pub target: &'a str,
    pub hash_key: Option<[u8; 16]>,
    pub from: Option<&'a str>,
    pub to: Option<&'a str>,
    pub prefix: Option<&'a str>,
    pub limit: Option<u64>,
    pub json: bool,
    pub log: bool,
    pub forget: Option<u64>,
    pub ahead: bool,
    pub wait: Option<u64>,
    pub wanted: Option<Wanted<'a>>,
    pub answers: bool,
    pub max_bytes: Option<u64>,
    pub max_entries: Option<u64>,
    pub both: bool,
}

/// What is taken of a peer.
fn limits_of(given: &Given<'_>) -> Limits
    ensures { AreLimits result (said_of given.now) }
{
    Limits {
        ahead: given.ahead,
        max_bytes: given.max_bytes,
        max_entries: given.max_entries,
    }
}

/// A put.
fn put_of<'a>(given: &Given<'a>) -> TableCommand<'a>
    ensures { IsTableCommand result Put (said_of given.now) }
{
    TableCommand::Put {
        key: given.key,
        value: given.value,
        is_input: given.is_input,
        wanted: given.wanted,
    }
}

/// A list.
fn list_of<'a>(given: &Given<'a>) -> TableCommand<'a>
    ensures { IsTableCommand result List (said_of given.now) }
{
    TableCommand::List {
        selection: Selection {
            from: given.from,
            to: given.to,
            prefix: given.prefix,
            limit: given.limit,
        },
        json: given.json,
    }
}

/// A command on the table of a store.
fn on_table(command: TableCommand<'_>) -> Command<'_>
    ensures { result ≡ Store (Table command.entry) }
{
    Command::Store(StoreCommand::Table(command))
}

/// The command of this name.
fn command_of<'a>(verb: Verb, given: &Given<'a>) -> Command<'a>
    ensures { IsCommand result verb (said_of given.now) }
{
    let (key, json, is_log, ahead) = (given.key, given.json, given.log, given.ahead);
    let (limits, both) = (limits_of(given), given.both);
    match verb {
        Verb::Init => Command::Init {
            writer: given.writer,
            hash_key: given.hash_key,
        },
        Verb::Put => on_table(put_of(given)),
        Verb::Get => on_table(TableCommand::Get { key }),
        Verb::Del => on_table(TableCommand::Del { key }),
        Verb::List => on_table(list_of(given)),
        Verb::Count => on_table(TableCommand::Count),
        Verb::History => on_table(TableCommand::History { key, json }),
        Verb::Status => on_table(TableCommand::Status { json }),
        Verb::Check => on_table(TableCommand::Check { json }),
        Verb::Import => on_table(TableCommand::Import { is_log, ahead }),
        Verb::Export => on_table(TableCommand::Export { is_log }),
        Verb::Compact => on_table(TableCommand::Compact {
            forget: given.forget,
        }),
        Verb::Root => Command::Store(StoreCommand::Root),
        Verb::HashKey => Command::Store(StoreCommand::HashKey),
        Verb::Shell => Command::Shell {
            answers: given.answers,
        },
        Verb::Serve => Command::Serve { limits, both },
        Verb::Pull => Command::Pull { limits, both },
        Verb::Diff => Command::Diff { limits, json },
        Verb::Backup => Command::Backup {
            target: given.target,
        },
        Verb::Rebuild => Command::Rebuild,
    }
}

/// The command of this name on a file, with what it takes.
pub(crate) fn on_file<'a>(verb: Verb, file: &'a str, given: &Given<'a>) -> Task<'a>
    ensures { IsTask result verb file.now (said_of given.now) }
{
    Task {
        file,
        wait: given.wait,
        command: command_of(verb, given),
    }
}
