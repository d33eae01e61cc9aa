//! What is wrong with words that are no line of the grammar, for the one line that tells the user: a word is told with its line feeds
//! and other control characters escaped. No clause says it: the words are refused by `read_words` alone.

use crate::options::Setting;
use crate::values::{DEMO, LIVE, decimal, plain_command, value_of};
use std::fmt;

/// What is wrong with the words of a command line.
#[derive(Clone, Copy, Debug, PartialEq, Eq)]
pub enum Fault<'w> {
    /// No word names a command.
    NoCommand,
    /// The word names no command.
    UnknownCommand { word: &'w str },
    /// The word names no option.
    UnknownOption { word: &'w str },
    /// The option has no value.
    NoValue { option: Setting },
    /// The option stands twice.
    Twice { option: Setting },
    /// The option's value is no number from 1 to its limit.
    OutOfRange { option: Setting },
    /// The demonstration has no number of a `u64`.
    NoNumber,
    /// The word stands where the command takes no more.
    OneTooMany { word: &'w str },
}

impl fmt::Display for Fault<'_> {
    fn fmt<W: fmt::Write>(&self, f: &mut fmt::Formatter<W>) -> fmt::Result {
        match self {
            Fault::NoCommand => write!(f, "no command is given"),
            Fault::UnknownCommand { word } => {
                write!(f, "`{word}` is no command", word = word.escape_debug())
            }
            Fault::UnknownOption { word } => {
                write!(f, "`{word}` is no option", word = word.escape_debug())
            }
            Fault::NoValue { option } => {
                write!(f, "`--{name}` has no value", name = option.name())
            }
            Fault::Twice { option } => write!(f, "`--{name}` stands twice", name = option.name()),
            Fault::OutOfRange { option } => write!(
                f,
                "`--{name}` takes a number from 1 to {limit}",
                name = option.name(),
                limit = option.limit()
            ),
            Fault::NoNumber => write!(f, "`{DEMO}` takes a number from 0 to {}", u64::MAX),
            Fault::OneTooMany { word } => write!(
                f,
                "the command takes no word `{word}`",
                word = word.escape_debug()
            ),
        }
    }
}

/// What the next word of the command is to be.
#[derive(Clone, Copy)]
enum Due {
    /// One that names a command.
    Command,
    /// The number of a demonstration.
    Number,
    /// The word for a live demonstration, or none.
    Live,
    /// None.
    Nothing,
}

impl Due {
    /// What is due behind the word.
    fn behind(self, word: &str) -> Result<Due, Fault<'_>> {
        match self {
            Due::Command if word == DEMO => Ok(Due::Number),
            Due::Command if plain_command(word).is_some() => Ok(Due::Nothing),
            Due::Command => Err(Fault::UnknownCommand { word }),
            Due::Number if decimal(word).is_some() => Ok(Due::Live),
            Due::Number => Err(Fault::NoNumber),
            Due::Live if word == LIVE => Ok(Due::Nothing),
            Due::Live | Due::Nothing => Err(Fault::OneTooMany { word }),
        }
    }
}

/// The words of a command line as far as they are read.
#[derive(Drop)]
struct Line {
    /// The option whose value is due.
    waiting: Option<Setting>,
    has_fuel: bool,
    has_patience: bool,
    /// A `--` was read.
    is_trailing: bool,
    due: Due,
}

impl Line {
    /// One more word.
    fn read<'w>(&mut self, word: &'w str) -> Result<(), Fault<'w>> {
        if let Some(option) = self.waiting.take() {
            return spaced(option, word);
        }
        if self.is_trailing || !word.starts_with('-') {
            self.due = self.due.behind(word)?;
            return Ok(());
        }
        match word.strip_prefix("--") {
            Some("") => {
                self.is_trailing = true;
                Ok(())
            }
            Some(text) => self.option(word, text),
            None => Err(Fault::UnknownOption { word }),
        }
    }

    /// The option of a word, of which `text` stands behind `--`.
    fn option<'w>(&mut self, word: &'w str, text: &'w str) -> Result<(), Fault<'w>> {
        let (name, value) = match text.split_once('=') {
            Some((name, value)) => (name, Some(value)),
            None => (text, None),
        };
        let Some(option) = Setting::named(name) else {
            return Err(Fault::UnknownOption { word });
        };
        let stands = match option {
            Setting::Fuel => &mut self.has_fuel,
            Setting::Patience => &mut self.has_patience,
        };
        if *stands {
            return Err(Fault::Twice { option });
        }
        *stands = true;
        match value {
            Some(value) => in_range(option, value),
            None => {
                self.waiting = Some(option);
                Ok(())
            }
        }
    }

    /// What is wrong where no word is left.
    fn end(&self) -> Option<Fault<'static>> {
        match (self.waiting, self.due) {
            (Some(option), _) => Some(Fault::NoValue { option }),
            (None, Due::Command) => Some(Fault::NoCommand),
            (None, Due::Number) => Some(Fault::NoNumber),
            (None, Due::Live | Due::Nothing) => None,
        }
    }
}

/// The value of an option as a word of its own: what looks like an option is none.
fn spaced(option: Setting, word: &str) -> Result<(), Fault<'_>> {
    if word.starts_with("--") {
        return Err(Fault::NoValue { option });
    }
    in_range(option, word)
}

fn in_range(option: Setting, value: &str) -> Result<(), Fault<'_>> {
    match value_of(option, value) {
        Some(_) => Ok(()),
        None => Err(Fault::OutOfRange { option }),
    }
}

/// What is wrong with words that are no line of the grammar: the first thing, from the left. Nothing is wrong with a line.
pub fn what_is_wrong<'w>(words: &[&'w str]) -> Option<Fault<'w>> {
    let mut line = Line {
        waiting: None,
        has_fuel: false,
        has_patience: false,
        is_trailing: false,
        due: Due::Command,
    };
    for word in words {
        if let Err(fault) = line.read(word) {
            return Some(fault);
        }
    }
    line.end()
}
