//! The commands, each with what it takes, and what else a command line asks for.
use crate::verb::Verb;

/// What a key has to say for a write to be made.
#[derive(Clone, Copy, Debug, PartialEq, Eq)]
pub enum Wanted<'a> {
    /// Nothing: the key isn't there.
    Absence,
    /// This text.
    Text(&'a str),
}

/// Which keys a list shows.
#[derive(Clone, Copy, Debug, PartialEq, Eq)]
pub struct Selection<'a> {
    pub from: Option<&'a str>,
    pub to: Option<&'a str>,
    pub prefix: Option<&'a str>,
    /// How many keys are shown at most, if that is said.
    pub limit: Option<u64>,
}

/// What is taken of a peer.
#[derive(Clone, Copy, Debug, PartialEq, Eq)]
pub struct Limits {
    /// Whether entries may be more than a day ahead of the clock.
    pub ahead: bool,
    /// How many bytes the peer may send, if that is said.
    pub max_bytes: Option<u64>,
    /// How many entries the peer may send, if that is said.
    pub max_entries: Option<u64>,
}

/// A command on the table of a store.
#[derive(Clone, Copy, Debug, PartialEq, Eq)]
pub enum TableCommand<'a> {
    Put {
        key: &'a str,
        value: &'a str,
        /// Whether the value is to be read from standard input.
        is_input: bool,
        /// What the key has to say, if the write depends on it.
        wanted: Option<Wanted<'a>>,
    },
    Get {
        key: &'a str,
    },
    Del {
        key: &'a str,
    },
    List {
        selection: Selection<'a>,
        json: bool,
    },
    Count,
    History {
        key: &'a str,
        json: bool,
    },
    Status {
        json: bool,
    },
    Check {
        json: bool,
    },
    Import {
        is_log: bool,
        /// Whether entries of a log may be more than a day ahead of the clock.
        ahead: bool,
    },
    Export {
        is_log: bool,
    },
    Compact {
        /// Removals that are older, in milliseconds, are dropped.
        forget: Option<u64>,
    },
}

/// A command on an open store.
#[derive(Clone, Copy, Debug, PartialEq, Eq)]
pub enum StoreCommand<'a> {
    Table(TableCommand<'a>),
    Root,
    HashKey,
}

/// A command.
#[derive(Clone, Copy, Debug, PartialEq, Eq)]
pub enum Command<'a> {
    Init {
        writer: Option<&'a str>,
        hash_key: Option<[u8; 16]>,
    },
    Store(StoreCommand<'a>),
    Shell {
        /// Whether each line is answered.
        answers: bool,
    },
    Serve {
        limits: Limits,
        /// Whether both sides of the session get what the other has.
        both: bool,
    },
    Pull {
        limits: Limits,
        both: bool,
    },
    Diff {
        limits: Limits,
        json: bool,
    },
    Backup {
        /// The file that it makes.
        target: &'a str,
    },
    Rebuild,
}

/// A command on a file.
#[derive(Clone, Copy, Debug, PartialEq, Eq)]
pub struct Task<'a> {
    pub file: &'a str,
    /// How many seconds it waits for a file that another process has, if that is said.
    pub wait: Option<u64>,
    pub command: Command<'a>,
}

/// What a command line asks for.
#[derive(Clone, Copy, Debug, PartialEq, Eq)]
pub enum Asked<'a> {
    /// The help of the program.
    Help,
    /// The help of a command.
    HelpOf(Verb),
    Version,
    /// A command on a file.
    Run(Task<'a>),
}
