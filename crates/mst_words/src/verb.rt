//! The commands, and what each takes.
ghost use Rattle.std.specs.Prelude.{◌≡◌};
ghost use Rattle.mst_words.specs.Forms.{places_of as places_behind, least_of, takes};
ghost use Rattle.mst_words.specs.Names.{IsVerbOf, IsSettingOf, takes_value};
ghost use Rattle.mst_words.specs.declared.verb.Setting.TheVariants.{Json};

use crate::help::text_of;

/// A command.
#[derive(Clone, Copy, Debug, PartialEq, Eq)]
pub enum Verb {
    Init,
    Put,
    Get,
    Del,
    List,
    Count,
    Root,
    HashKey,
    Status,
    Import,
    Export,
    Compact,
    Shell,
    Serve,
    Pull,
    Diff,
    Backup,
    History,
    Check,
    Rebuild,
}

/// What a word is at its place.
#[derive(Clone, Copy, Debug, PartialEq, Eq)]
pub enum Place {
    Key,
    Value,
    Writer,
    Target,
}

/// What is given after `--` and a name.
#[derive(Clone, Copy, Debug, PartialEq, Eq)]
pub enum Setting {
    From,
    To,
    Prefix,
    Limit,
    Json,
    Log,
    Forget,
    Ahead,
    Wait,
    HashKey,
    Absent,
    Old,
    Answers,
    MaxBytes,
    MaxEntries,
    Both,
}

/// How the words of a command are given.
#[derive(Clone, Copy)]
pub struct Form {
    /// What stands at each place after the file.
    pub places: &'static [Place],
    /// How many of the places have to be there.
    pub least: usize,
    /// Its usage, and what it does.
    pub help: &'static str,
}

/// The command of this name. It compares the name with those of the twenty commands, and takes no memory.
pub fn verb_of(name: &str) -> Option<Verb>
    ensures { IsVerbOf name.now result }
{
    match name {
        "init" => Some(Verb::Init),
        "put" => Some(Verb::Put),
        "get" => Some(Verb::Get),
        "del" => Some(Verb::Del),
        "list" => Some(Verb::List),
        "count" => Some(Verb::Count),
        "root" => Some(Verb::Root),
        "hash-key" => Some(Verb::HashKey),
        "status" => Some(Verb::Status),
        "import" => Some(Verb::Import),
        "export" => Some(Verb::Export),
        "compact" => Some(Verb::Compact),
        "shell" => Some(Verb::Shell),
        "serve" => Some(Verb::Serve),
        "pull" => Some(Verb::Pull),
        "diff" => Some(Verb::Diff),
        "backup" => Some(Verb::Backup),
        "history" => Some(Verb::History),
        "check" => Some(Verb::Check),
        "rebuild" => Some(Verb::Rebuild),
        _ => None,
    }
}

/// The setting of this name.
pub fn setting_of(name: &str) -> Option<Setting>
    ensures { IsSettingOf name.now result }
{
    match name {
        "--from" => Some(Setting::From),
        "--to" => Some(Setting::To),
        "--prefix" => Some(Setting::Prefix),
        "--limit" => Some(Setting::Limit),
        "--json" => Some(Setting::Json),
        "--log" => Some(Setting::Log),
        "--forget-removals-older-than" => Some(Setting::Forget),
        "--allow-ahead" => Some(Setting::Ahead),
        "--wait" => Some(Setting::Wait),
        "--hash-key" => Some(Setting::HashKey),
        "--if-absent" => Some(Setting::Absent),
        "--if-value" => Some(Setting::Old),
        "--answers" => Some(Setting::Answers),
        "--max-bytes" => Some(Setting::MaxBytes),
        "--max-entries" => Some(Setting::MaxEntries),
        "--both" => Some(Setting::Both),
        _ => None,
    }
}

/// Whether a setting has a value after it.
pub fn has_value(setting: Setting) -> bool
    ensures { result ≡ takes_value setting }
{
    match setting {
        Setting::Json
        | Setting::Log
        | Setting::Ahead
        | Setting::Absent
        | Setting::Answers
        | Setting::Both => false,
        _ => true,
    }
}

/// What stands at each place after the file.
fn places_of(verb: Verb) -> &'static [Place]
    ensures { result.now ≡ places_behind verb }
{
    match verb {
        Verb::Init => &[Place::Writer],
        Verb::Put => &[Place::Key, Place::Value],
        Verb::Get | Verb::Del | Verb::History => &[Place::Key],
        Verb::Backup => &[Place::Target],
        _ => &[],
    }
}

/// Whether what a command shows can be had as JSON.
fn is_shown_as_json(verb: Verb) -> bool
    ensures { result ≡ takes verb Json }
{
    matches!(
        verb,
        Verb::List | Verb::History | Verb::Status | Verb::Check | Verb::Diff
    )
}

/// Whether a command takes a setting.
pub fn takes_setting(verb: Verb, setting: Setting) -> bool
    ensures { result ≡ takes verb setting }
{
    match setting {
        Setting::Wait => !matches!(verb, Verb::Init),
        Setting::HashKey => matches!(verb, Verb::Init),
        Setting::From | Setting::To | Setting::Prefix | Setting::Limit => {
            matches!(verb, Verb::List)
        }
        Setting::Json => is_shown_as_json(verb),
        Setting::Log => matches!(verb, Verb::Import | Verb::Export),
        Setting::Ahead => matches!(verb, Verb::Import | Verb::Serve | Verb::Pull | Verb::Diff),
        Setting::Forget => matches!(verb, Verb::Compact),
        Setting::Absent | Setting::Old => matches!(verb, Verb::Put),
        Setting::Answers => matches!(verb, Verb::Shell),
        Setting::MaxBytes | Setting::MaxEntries => {
            matches!(verb, Verb::Serve | Verb::Pull | Verb::Diff)
        }
        Setting::Both => matches!(verb, Verb::Serve | Verb::Pull),
    }
}

/// How the words of a command are given.
pub fn form_of(verb: Verb) -> Form
    ensures places { result.places.now ≡ places_behind verb }
    ensures least { result.least ≡ least_of verb }
{
    Form {
        places: places_of(verb),
        least: match verb {
            Verb::Init => 0,
            _ => places_of(verb).len(),
        },
        help: text_of(verb),
    }
}

/// The name and the version of the program.
pub const VERSION: &str = "mst 0.2.0\n";
