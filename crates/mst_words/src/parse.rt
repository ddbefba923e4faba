//! A command line as what it asks for.
ghost use Rattle.std.specs.Prelude.{◌≡◌, map, codes, slice_get, string_bytes, false};
ghost use Rattle.std.specs.Option.{option_copied, option_map_or};
ghost use Rattle.mst_words.specs.Commands.{Asks, AsksHelp, AsksHelpOf, AsksNamed, Comes, GivesTask, IsBeforeValue, IsDecimal, ReadsWord, Sets, TakesNext, TakesOption};
ghost use Rattle.mst_words.specs.Commands.{finished, is_alone as said_alone, is_help as names_help, is_option as begins_option, placed as says_at, stands};
ghost use Rattle.mst_words.specs.Forms.{least_of, place_name, places_of};
ghost use Rattle.mst_words.specs.Names.{takes_value};
ghost use Rattle.mst_words.specs.Said.{NoNumber, begun, reading_of, said_of, told, with_file, with_mistake};

use crate::command::{Asked, Task, Wanted};
use crate::given::{Given, on_file};
use crate::hash_key::hash_key_of;
use crate::span::milliseconds_of;
use crate::verb::{
    Form, Place, Setting, Verb, form_of, has_value, setting_of, takes_setting, verb_of,
};
use crate::wrong::Wrong;

/// The words so far.
#[derive(Drop)]
struct Taken<'a> {
    given: Given<'a>,
    /// The file, once it is there.
    file: Option<&'a str>,
    /// How many words stood at places after the file.
    places: usize,
    /// The setting whose value is to come.
    pending: Option<Setting>,
    /// Whether `--` has come.
    is_behind: bool,
}

/// No words, of a file that is known or to come.
fn nothing<'a>(file: Option<&'a str>) -> Taken<'a>
    ensures { reading_of result ≡ begun (option_copied file.entry) }
{
    Taken {
        given: Given {
            key: "",
            value: "",
            is_input: false,
            writer: None,
            target: "",
            hash_key: None,
            from: None,
            to: None,
            prefix: None,
            limit: None,
            json: false,
            log: false,
            forget: None,
            ahead: false,
            wait: None,
            wanted: None,
            answers: false,
            max_bytes: None,
            max_entries: None,
            both: false,
        },
        file,
        places: 0,
        pending: None,
        is_behind: false,
    }
}

/// What is given, with a word at its place.
fn placed<'a>(given: Given<'a>, place: Place, word: &'a str, is_behind: bool) -> Given<'a>
    ensures { said_of result ≡ says_at place word.now is_behind (said_of given.entry) }
{
    let mut given = given;
    match place {
        Place::Key => given.key = word,
        Place::Value => {
            given.value = word;
            given.is_input = word == "-" && !is_behind;
        }
        Place::Writer => given.writer = Some(word),
        Place::Target => given.target = word,
    }
    given
}

/// Takes a word at its place.
fn at_place<'a>(
    taken: Taken<'a>,
    verb: Verb,
    places: &'static [Place],
    word: &'a str,
) -> Result<Taken<'a>, Wrong<'a>>
    requires { places.now ≡ places_of verb }
    ensures { told reading_of result ≡ stands verb (option_copied taken.entry.file) word.now (reading_of taken.entry) }
{
    let mut taken = taken;
    if taken.file.is_none() {
        taken.file = Some(word);
        return Ok(taken);
    }
    let Some(place) = places.get(taken.places) else {
        return Err(Wrong::LeftOver(word));
    };
    taken.given = placed(taken.given, *place, word, taken.is_behind);
    taken.places = taken.places.saturating_add(1);
    Ok(taken)
}

/// The number that a word is.
fn number_of(word: &str) -> Result<u64, Wrong<'_>>
    ensures { ReadsWord IsDecimal word.now (λ number. number) (NoNumber word.now) (with_mistake result) }
{
    match word.parse() {
        Ok(number) => Ok(number),
        Err(_) => Err(Wrong::NoNumber(word)),
    }
}

/// Takes the value of a setting.
fn with_value<'a>(given: Given<'a>, setting: Setting, word: &'a str) -> Result<Given<'a>, Wrong<'a>>
    ensures { Sets setting word.now (said_of given.entry) (told said_of result) }
{
    let mut given = given;
    match setting {
        Setting::From => given.from = Some(word),
        Setting::To => given.to = Some(word),
        Setting::Prefix => given.prefix = Some(word),
        Setting::Limit => given.limit = Some(number_of(word)?),
        Setting::Wait => given.wait = Some(number_of(word)?),
        Setting::Forget => match milliseconds_of(word) {
            Some(span) => given.forget = Some(span),
            None => return Err(Wrong::NoSpan(word)),
        },
        Setting::HashKey => match hash_key_of(word) {
            Some(hash_key) => given.hash_key = Some(hash_key),
            None => return Err(Wrong::NoHashKey(word)),
        },
        Setting::Json => given.json = true,
        Setting::Log => given.log = true,
        Setting::Ahead => given.ahead = true,
        Setting::Absent => given.wanted = Some(Wanted::Absence),
        Setting::Old => given.wanted = Some(Wanted::Text(word)),
        Setting::Answers => given.answers = true,
        Setting::Both => given.both = true,
        Setting::MaxBytes => given.max_bytes = Some(number_of(word)?),
        Setting::MaxEntries => given.max_entries = Some(number_of(word)?),
    }
    Ok(given)
}

/// Takes a setting of this name, which has a value or none, with the value that stood after its `=`, if one did.
fn at_setting<'a>(
    taken: Taken<'a>,
    setting: Setting,
    name: &'a str,
    value: Option<&'a str>,
) -> Result<Taken<'a>, Wrong<'a>>
    ensures { Comes (takes_value setting) setting name.now (option_copied value.entry) (reading_of taken.entry) (told reading_of result) }
{
    let mut taken = taken;
    let word = match value {
        Some(value) => {
            if !has_value(setting) {
                return Err(Wrong::HasValue(name));
            }
            value
        }
        None => {
            if has_value(setting) {
                taken.pending = Some(setting);
                return Ok(taken);
            }
            name
        }
    };
    taken.given = with_value(taken.given, setting, word)?;
    Ok(taken)
}

/// Takes an option, and its value where it has one after `=`.
fn at_option<'a>(taken: Taken<'a>, verb: Verb, word: &'a str) -> Result<Taken<'a>, Wrong<'a>>
    ensures { TakesOption verb word.now (reading_of taken.entry) (told reading_of result) }
{
    let (name, value) = match word.split_once('=') {
        Some((name, value)) => (name, Some(value)),
        None => (word, None),
    };
    let Some(setting) = setting_of(name) else {
        return Err(Wrong::NoSuchOption(name));
    };
    if !takes_setting(verb, setting) {
        return Err(Wrong::NoSuchOption(name));
    }
    at_setting(taken, setting, name, value)
}

/// Whether a word is an option, where `--` hasn't come.
fn is_option(word: &str) -> bool
    ensures { result ≡ begins_option word.now }
{
    word != "-" && word.as_bytes().starts_with(b"-")
}

/// Takes the next word.
fn take<'a>(
    taken: Taken<'a>,
    verb: Verb,
    form: &Form,
    word: &'a str,
) -> Result<Taken<'a>, Wrong<'a>>
    requires { form.now.places.now ≡ places_of verb }
    ensures { TakesNext verb taken.entry.pending word.now (reading_of taken.entry) (told reading_of result) }
{
    let mut taken = taken;
    if let Some(setting) = taken.pending {
        taken.pending = None;
        taken.given = with_value(taken.given, setting, word)?;
        return Ok(taken);
    }
    if taken.is_behind || !is_option(word) {
        return at_place(taken, verb, form.places, word);
    }
    if word == "--" {
        taken.is_behind = true;
        return Ok(taken);
    }
    at_option(taken, verb, word)
}

/// What a place is called.
fn name_of(places: &'static [Place], at: usize) -> &'static str
    ensures { result.now ≡ option_map_or place_name (slice_get places.now at) (codes "WRITER") }
{
    match places.get(at) {
        Some(Place::Key) => "KEY",
        Some(Place::Value) => "VALUE",
        Some(Place::Target) => "TO",
        _ => "WRITER",
    }
}

/// Whether entries may be ahead of the clock where a command takes none of another copy, as an import without a log does.
fn is_alone(given: &Given<'_>, verb: Verb) -> bool
    ensures { result ≡ said_alone verb (said_of given.now) }
{
    given.ahead && !given.log && takes_setting(verb, Setting::Log)
}

/// The file and what is given, once all words are taken.
fn finish<'a>(taken: Taken<'a>, verb: Verb, form: &Form) -> Result<(&'a str, Given<'a>), Wrong<'a>>
    requires places { form.now.places.now ≡ places_of verb }
    requires least { form.now.least ≡ least_of verb }
    ensures { told with_file result ≡ finished verb taken.entry.pending (option_copied taken.entry.file) (reading_of taken.entry) }
{
    if taken.pending.is_some() {
        return Err(Wrong::NoValue("the last option"));
    }
    let Some(file) = taken.file else {
        return Err(Wrong::Missing("FILE"));
    };
    if taken.places < form.least {
        return Err(Wrong::Missing(name_of(form.places, taken.places)));
    }
    if is_alone(&taken.given, verb) {
        return Err(Wrong::NoLog("--allow-ahead"));
    }
    Ok((file, taken.given))
}

/// What the words of a command ask for: that it is run on a file, which is the first word at a place, unless it is known.
///
/// # Errors
///
/// [`Wrong`] says the first word that is wrong, or what is missing.
pub fn task_of<'a>(
    verb: Verb,
    file: Option<&'a str>,
    words: &'a [String],
) -> Result<Task<'a>, Wrong<'a>>
    ensures { GivesTask verb (option_copied file.entry) (map string_bytes words.now) (with_mistake result) }
{
    let form = form_of(verb);
    let mut taken = nothing(file);
    'words: for word in words {
        taken = take(taken, verb, &form, word.as_str())?;
    }
    let (file, given) = finish(taken, verb, &form)?;
    Ok(on_file(verb, file, &given))
}

/// Whether the word after this one is the value of an option that the command takes.
fn is_before_value(verb: Verb, word: &str) -> bool
    ensures { IsBeforeValue verb word.now result }
{
    match setting_of(word) {
        Some(setting) => takes_setting(verb, setting) && has_value(setting),
        None => false,
    }
}

/// Whether a word asks for help.
fn is_help(word: &str) -> bool
    ensures { result ≡ names_help word.now }
{
    word == "--help" || word == "-h"
}

/// Whether the words after a command ask for help, where an option may stand: neither as the value of one, nor after `--`.
fn asks_help(verb: Verb, words: &[String]) -> bool
    ensures { AsksHelp verb false (map string_bytes words.now) result }
{
    let mut is_value = false;
    'words: for word in words {
        if is_value {
            is_value = false;
            continue;
        }
        if is_help(word.as_str()) {
            return true;
        }
        if word.as_str() == "--" {
            return false;
        }
        is_value = is_before_value(verb, word.as_str());
    }
    false
}

/// What the words after a command ask for.
fn of_command<'a>(name: &'a str, words: &'a [String]) -> Result<Asked<'a>, Wrong<'a>>
    ensures { AsksNamed name.now (map string_bytes words.now) (with_mistake result) }
{
    let Some(verb) = verb_of(name) else {
        return Err(Wrong::NoSuchCommand(name));
    };
    if asks_help(verb, words) {
        return Ok(Asked::HelpOf(verb));
    }
    Ok(Asked::Run(task_of(verb, None, words)?))
}

/// What the words after `help` ask for: the help of the program, or of the command that the first of them names.
///
/// # Errors
///
/// [`Wrong::NoSuchCommand`]
pub fn help_of<'a>(words: &'a [String]) -> Result<Asked<'a>, Wrong<'a>>
    ensures { AsksHelpOf (map string_bytes words.now) (with_mistake result) }
{
    let Some((name, _)) = words.split_first() else {
        return Ok(Asked::Help);
    };
    match verb_of(name.as_str()) {
        Some(verb) => Ok(Asked::HelpOf(verb)),
        None => Err(Wrong::NoSuchCommand(name.as_str())),
    }
}

/// What the words of a command line ask for, without the name of the program.
///
/// # Errors
///
/// [`Wrong`] says the first word that is wrong, or what is missing.
pub fn read_words<'a>(words: &'a [String]) -> Result<Asked<'a>, Wrong<'a>>
    ensures { Asks (map string_bytes words.now) (with_mistake result) }
{
    let Some((first, rest)) = words.split_first() else {
        return Err(Wrong::NoCommand);
    };
    match first.as_str() {
        "--help" | "-h" => Ok(Asked::Help),
        "help" => help_of(rest),
        "--version" | "-V" => Ok(Asked::Version),
        name => of_command(name, rest),
    }
}
