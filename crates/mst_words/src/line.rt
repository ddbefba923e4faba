//! The words of a line of the shell.
ghost use Rattle.std.specs.Prelude.{◌≡◌, None, Some, IfOk, IsErrOf, map, string_bytes};
ghost use Rattle.mst_words.specs.Lines.{IsLineRead, ended, line_of, meant_by as meaning_of, next, read_plain as plainly_read, nothing_read, words_in};

use std::alloc::{AllocError, Global};

/// Why a line has no words.
#[derive(Clone, Copy, Debug, PartialEq, Eq, Drop)]
pub enum NoWords {
    /// A quote isn't closed, or a backslash has no meaning.
    Wrong,
    /// Out of memory.
    Memory,
}

impl From<AllocError> for NoWords {
    ghost use Rattle.mst_words.specs.declared.line.NoWords.TheVariants.{Memory};

    ghost from_gives = { λ _ why. why ≡ Memory };

    fn from(_error: AllocError) -> Self {
        NoWords::Memory
    }
}

/// Where the reading of a line stands.
#[derive(Clone, Copy, PartialEq, Eq)]
enum Place {
    /// Between words.
    Between,
    /// In a word.
    Within,
    /// In a word, between quotes.
    Quoted,
    /// After a backslash between quotes.
    Escaped,
}

/// The character for which one after a backslash stands.
fn meant_by(character: char) -> Option<char>
    ensures { result ≡ meaning_of character }
{
    match character {
        't' => Some('\t'),
        'n' => Some('\n'),
        'r' => Some('\r'),
        '\\' => Some('\\'),
        '"' => Some('"'),
        _ => None,
    }
}

/// The words so far.
#[derive(Drop)]
struct Reading {
    words: Vec<String>,
    word: String,
    place: Place,
}

/// Ends the word.
fn end_word(alloc: Global, reading: Reading) -> Result<Reading, NoWords>
    ensures { IsLineRead (Some (ended (line_of reading))) result }
{
    let mut reading = reading;
    let word = reading.word;
    reading.word = String::new(alloc);
    if reading.words.push(word).is_err() {
        return Err(NoWords::Memory);
    }
    reading.place = Place::Between;
    Ok(reading)
}

/// Reads a character outside of quotes.
fn read_plain(alloc: Global, reading: Reading, character: char) -> Result<Reading, NoWords>
    ensures { IsLineRead (Some (plainly_read character (line_of reading))) result }
{
    let mut reading = reading;
    match character {
        ' ' | '\t' => {
            if reading.place == Place::Within {
                return end_word(alloc, reading);
            }
        }
        '"' => reading.place = Place::Quoted,
        _ => {
            reading.word.push(character)?;
            reading.place = Place::Within;
        }
    }
    Ok(reading)
}

/// Reads a character.
fn read(alloc: Global, reading: Reading, character: char) -> Result<Reading, NoWords>
    ensures { IsLineRead (next character (line_of reading)) result }
{
    let mut reading = reading;
    match reading.place {
        Place::Between | Place::Within => return read_plain(alloc, reading, character),
        Place::Quoted => match character {
            '"' => reading.place = Place::Within,
            '\\' => reading.place = Place::Escaped,
            _ => reading.word.push(character)?,
        },
        Place::Escaped => match meant_by(character) {
            Some(meant) => {
                reading.word.push(meant)?;
                reading.place = Place::Quoted;
            }
            None => return Err(NoWords::Wrong),
        },
    }
    Ok(reading)
}

/// The words of a line, which blanks part. Between double quotes a blank is one, and `\\`, `\t`, `\n`, `\r` and `\"` stand for these
/// characters.
///
/// # Errors
///
/// [`NoWords`]
pub fn words_of(alloc: Global, line: &str) -> Result<Vec<String>, NoWords>
    ensures words { IfOk result (λ words. words_in line.now ≡ Some (map string_bytes words.items)) }
    ensures none { IsErrOf result NoWords.Wrong → words_in line.now ≡ None }
{
    let mut reading = Reading {
        words: Vec::new(alloc),
        word: String::new(alloc),
        place: Place::Between,
    };
    'characters: for character in line.chars() {
        reading = read(alloc, reading, character)?;
    }
    match reading.place {
        Place::Between => Ok(reading.words),
        Place::Within => Ok(end_word(alloc, reading)?.words),
        Place::Quoted | Place::Escaped => Err(NoWords::Wrong),
    }
}
