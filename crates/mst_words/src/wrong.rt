//! Why a command line is wrong.
ghost use Rattle.std.specs.Prelude.{Some};
ghost use Rattle.mst_words.specs.Texts.{wrong_text};

use std::fmt;

/// Why a command line is wrong.
#[derive(Clone, Copy, Debug, PartialEq, Eq, Drop)]
pub enum Wrong<'a> {
    /// There is no command.
    NoCommand,
    /// There is no command of this name.
    NoSuchCommand(&'a str),
    /// The command has no such option.
    NoSuchOption(&'a str),
    /// An option has no value.
    NoValue(&'static str),
    /// An option that takes no value has one.
    HasValue(&'a str),
    /// This is no number.
    NoNumber(&'a str),
    /// This is no span of time.
    NoSpan(&'a str),
    /// This is no hash key.
    NoHashKey(&'a str),
    /// A word is left over.
    LeftOver(&'a str),
    /// A word is missing.
    Missing(&'static str),
    /// An option is of a log, and `--log` isn't there.
    NoLog(&'static str),
    /// A word is no text in UTF-8.
    NotText,
}

impl fmt::Display for Wrong<'_> {
    ghost output = { λ wrong. Some (wrong_text wrong) };

    fn fmt<W: fmt::Write>(&self, f: &mut fmt::Formatter<W>) -> fmt::Result {
        match self {
            Wrong::NoCommand => f.write_str("no command is given"),
            Wrong::NoSuchCommand(name) => write!(f, "no such command: {name}"),
            Wrong::NoSuchOption(name) => write!(
                f,
                "the command has no option {name} (words after -- are never options)"
            ),
            Wrong::NoValue(name) => write!(f, "{name} needs a value"),
            Wrong::HasValue(name) => write!(f, "{name} takes no value"),
            Wrong::NoNumber(word) => write!(f, "{word} isn't a number"),
            Wrong::NoSpan(word) => write!(
                f,
                "{word} isn't a span of time such as 30d, 12h, 15m or 90s"
            ),
            Wrong::NoHashKey(word) => write!(f, "{word} isn't a hash key: 32 hexadecimal digits"),
            Wrong::LeftOver(word) => write!(f, "unexpected word: {word}"),
            Wrong::Missing(name) => write!(f, "{name} is missing"),
            Wrong::NoLog(name) => write!(f, "{name} needs --log"),
            Wrong::NotText => f.write_str("a word isn't valid UTF-8"),
        }
    }
}
