//! Texts of any characters in one line.
ghost use Rattle.std.specs.Prelude.{◌≡◌, ◌<◌, ◌++◌, IfOk, OnOk, string_bytes, encode_utf8_all};
ghost use Rattle.std.specs.Char.{digit_char};
ghost use Rattle.mst_commands.specs.Escapes.{IsLetterOf, escape_of, escaped_line, code_of, json_char, json_of};

use std::alloc::{AllocError, Global};

/// The letter that stands for a character after a backslash in a list.
fn letter_of(character: char) -> Option<char>
    ensures { IsLetterOf character result }
{
    match character {
        '\t' => Some('t'),
        '\n' => Some('n'),
        '\r' => Some('r'),
        '\\' => Some('\\'),
        _ => None,
    }
}

/// Appends a character as it stands in a line.
fn push_escaped(line: &mut String, character: char) -> Result<(), AllocError>
    ensures { OnOk result (string_bytes line.new ≡ string_bytes line.old ++ encode_utf8_all (escape_of character)) }
{
    match letter_of(character) {
        Some(letter) => {
            line.push('\\')?;
            line.push(letter)
        }
        None => line.push(character),
    }
}

/// A text in one line: a tab, a newline, a carriage return and a backslash are a backslash and a letter there.
pub fn escape(alloc: Global, text: &str) -> Result<String, AllocError>
    ensures { IfOk result (λ line. string_bytes line ≡ escaped_line text.now) }
{
    let mut line = String::new(alloc);
    'characters: for character in text.chars() {
        push_escaped(&mut line, character)?;
    }
    Ok(line)
}

/// How many characters of a text a line shows that names it.
const SHOWN: usize = 100;

/// The first characters of a text, in one line, and three dots where there are more.
pub fn cut(alloc: Global, text: &str) -> Result<String, AllocError> {
    let mut line = String::new(alloc);
    let mut count = 0usize;
    'characters: for character in text.chars() {
        if count >= SHOWN {
            line.push_str("...")?;
            break;
        }
        count = count.saturating_add(1);
        push_escaped(&mut line, character)?;
    }
    Ok(line)
}

/// The digit of a number below 16, in base 16.
fn digit_of(number: u32) -> char
    ensures { number < 16 → result ≡ digit_char number }
{
    match char::from_digit(number, 16) {
        Some(digit) => digit,
        None => '0',
    }
}

/// Appends a character below a space as its number: four digits in base 16.
fn push_code(line: &mut String, code: u32) -> Result<(), AllocError>
    requires { code < 32 }
    ensures { OnOk result (string_bytes line.new ≡ string_bytes line.old ++ encode_utf8_all (code_of code)) }
{
    line.push_str("\\u00")?;
    line.push(digit_of(code / 16))?;
    line.push(digit_of(code % 16))
}

/// Appends a character as it stands in a string of JSON.
fn push_json(line: &mut String, character: char) -> Result<(), AllocError>
    ensures { OnOk result (string_bytes line.new ≡ string_bytes line.old ++ encode_utf8_all (json_char character)) }
{
    match character {
        '"' => line.push_str("\\\""),
        '\\' => line.push_str("\\\\"),
        '\t' => line.push_str("\\t"),
        '\n' => line.push_str("\\n"),
        '\r' => line.push_str("\\r"),
        _ => {
            if character < ' ' {
                push_code(line, character as u32)
            } else {
                line.push(character)
            }
        }
    }
}

/// A text as a string of JSON, with its quotes.
pub fn json_string(alloc: Global, text: &str) -> Result<String, AllocError>
    ensures { IfOk result (λ line. string_bytes line ≡ json_of text.now) }
{
    let mut line = String::new(alloc);
    line.push('"')?;
    'characters: for character in text.chars() {
        push_json(&mut line, character)?;
    }
    line.push('"')?;
    Ok(line)
}
