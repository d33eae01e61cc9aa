//! What the words mean that were given to an option, or as positionals.
ghost use Rattle.std.specs.Prelude.{◌≡◌, ◌<◌, ◌^◌, ◌∷◌, ℕ, Some, [], MatchOption, map, option_map};
ghost use Rattle.command_words.specs.Reading.{IsDemo, IsReading, listed};
ghost use Rattle.command_words.specs.Words.{Answers, IsDecimal, Names, Sets, form};

use crate::options::Setting;
use crate::settings::{Command, Refusal, Settings};

/// The word that names a demonstration.
pub(crate) const DEMO: &str = "demo";
/// The word behind its number where threads run.
pub(crate) const LIVE: &str = "live";

/// The value of a decimal, or `None` where the word is no decimal of a `u64`.
pub(crate) fn decimal(word: &str) -> Option<u64>
    ensures { MatchOption result
        ((n : ℕ) → IsDecimal word.now n → n < 2 ^ 64 → ⊥)
        (IsDecimal word.now) }
{
    if word.starts_with('+') {
        return None;
    }
    word.parse().ok()
}

/// The value of an option, or `None` where the word is no decimal from 1 to its limit.
pub(crate) fn value_of(option: Setting, word: &str) -> Option<u32>
    ensures { MatchOption result
        ((n : ℕ) → Sets (form option).limit (word.now ∷ []) (Some n) → ⊥)
        (λ n. Sets (form option).limit (word.now ∷ []) (Some n)) }
{
    match decimal(word) {
        Some(number) if number >= 1 && number <= u64::from(option.limit()) => Some(number as u32),
        _ => None,
    }
}

/// What the value of an option sets.
fn setting(option: Setting, value: Option<&str>) -> Result<Option<u32>, Refusal>
    ensures { Answers (Sets (form option).limit (listed (option_map (λ word. word.now) value.entry))) result }
{
    let Some(word) = value else {
        return Ok(None);
    };
    match value_of(option, word) {
        Some(number) => Ok(Some(number)),
        None => Err(Refusal::Usage),
    }
}

/// The demonstration of this number.
fn demo(number: &str, live: bool) -> Result<Command, Refusal>
    ensures { Answers (λ command. IsDemo number.now live command) result }
{
    match decimal(number) {
        Some(number) => Ok(Command::Demo { number, live }),
        None => Err(Refusal::Usage),
    }
}

/// The command that a word names alone.
pub(crate) fn plain_command(word: &str) -> Option<Command>
    ensures { MatchOption result
        ((command : Command) → Names command (word.now ∷ []) → ⊥)
        (λ command. Names command (word.now ∷ [])) }
{
    match word {
        "check" => Some(Command::Check),
        "follow" => Some(Command::Follow),
        "sim" => Some(Command::Sim),
        "run" => Some(Command::Run),
        "bundle" => Some(Command::Bundle),
        "infer" => Some(Command::Infer),
        "replay" => Some(Command::Replay),
        "show" => Some(Command::Show),
        "upgrade" => Some(Command::Upgrade),
        _ => None,
    }
}

/// The command that the positionals name.
fn command_of(positionals: &[&str]) -> Result<Command, Refusal>
    ensures { Answers (λ command. Names command (map (λ word. word.now) positionals.now)) result }
{
    match positionals {
        [word] => plain_command(word).ok_or(Refusal::Usage),
        [DEMO, number] => demo(number, false),
        [DEMO, number, LIVE] => demo(number, true),
        _ => Err(Refusal::Usage),
    }
}

/// The settings by the values of the options and by the positionals.
pub(crate) fn settings_of(
    fuel: Option<&str>,
    patience: Option<&str>,
    positionals: &[&str],
) -> Result<Settings, Refusal>
    ensures { Answers (IsReading (option_map (λ word. word.now) fuel.entry) (option_map (λ word. word.now) patience.entry) (map (λ word. word.now) positionals.now)) result }
{
    Ok(Settings {
        command: command_of(positionals)?,
        fuel: setting(Setting::Fuel, fuel)?,
        patience: setting(Setting::Patience, patience)?,
    })
}
