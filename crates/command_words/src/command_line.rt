//! The words as `clap` reads them.
ghost use Rattle.std.specs.Prelude.{◌≡◌, ◌↔◌, IfOk, false, map};
ghost use Rattle.clap.specs.Faults.{fault_of};
ghost use Rattle.clap.specs.Kinds.{FailsBy};
ghost use Rattle.clap.specs.Matches.{found_of};
ghost use Rattle.clap.specs.Simple.{matches_of};
ghost use Rattle.clap.specs.Values.{kind_of};
ghost use Rattle.clap.specs.Walk.{rows_of, rule_of};
ghost use Rattle.command_words.specs.App.{line_app, option_rule};
ghost use Rattle.command_words.specs.Words.{Words};

use crate::options::Setting;
use crate::settings::{Refusal, Settings};
use crate::values::settings_of;
use clap::error::ErrorKind;
use clap::{Arg, ArgAction, ArgMatches, Error};
use std::alloc::Global;

/// The name of the positionals.
const COMMAND: &str = "command";

/// An option with one value.
fn option_of(alloc: Global, setting: Setting) -> Arg<'static>
    ensures rule { rule_of result ≡ option_rule setting }
    ensures global { result.global ≡ false }
{
    Arg::new(alloc, setting.name())
        .long(setting.name())
        .action(ArgAction::Set)
}

/// The words as one simple command with two options, and with positionals that options may stand between.
fn parse<'a>(alloc: Global, words: &'a [&'a str]) -> Result<ArgMatches<'a>, Error>
    ensures matches { IfOk result (λ m. rows_of (found_of m) ≡ matches_of line_app (map (λ word. word.now) words.entry.now)) }
    ensures kinds { FailsBy (fault_of line_app (map (λ word. word.now) words.entry.now)) result }
{
    let command = Arg::new(alloc, COMMAND).action(ArgAction::Append);
    clap::Command::new(alloc, "stride")
        .no_binary_name(true)
        .disable_help_flag(true)
        .disable_version_flag(true)
        .arg(option_of(alloc, Setting::Fuel))?
        .arg(option_of(alloc, Setting::Patience))?
        .arg(command)?
        .try_get_matches_from(words)
}

fn refusal_of(error: &Error) -> Refusal
    ensures { (result ≡ Refusal.NoMemory) ↔ (kind_of error.now ≡ ErrorKind.OutOfMemory) }
{
    match error.kind() {
        ErrorKind::OutOfMemory => Refusal::NoMemory,
        _ => Refusal::Usage,
    }
}

/// The settings that the words of the command line give, the program's name left out.
///
/// # Errors
///
/// `Usage` where the words are no line of the grammar, and `NoMemory` where memory runs out.
pub fn read_words(alloc: Global, words: &[&str]) -> Result<Settings, Refusal>
    ensures { Words (map (λ word. word.now) words.now) result }
{
    let matches = match parse(alloc, words) {
        Ok(matches) => matches,
        Err(error) => return Err(refusal_of(&error)),
    };
    settings_of(
        matches.get_str(Setting::Fuel.name()),
        matches.get_str(Setting::Patience.name()),
        matches.get_strs(COMMAND).unwrap_or_default(),
    )
}
