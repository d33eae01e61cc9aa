//! The options of the command line, by name and limit.
ghost use Rattle.std.specs.Prelude.{◌≡◌, MatchOption};
ghost use Rattle.command_words.specs.Words.{form};

use interleavings::PATIENCE_LIMIT;
use stride_isa::limits::FUEL_LIMIT;

/// An option of the command line.
#[derive(Clone, Copy, Debug, PartialEq, Eq)]
pub enum Setting {
    /// How many instructions each thread may make.
    Fuel,
    /// After how many odd looks in a row a thread gives up.
    Patience,
}

impl Setting {
    /// The option of this name.
    pub(crate) fn named(name: &str) -> Option<Setting>
        ensures { MatchOption result
            ((setting : Setting) → name.now ≡ (form setting).name → ⊥)
            (λ setting. name.now ≡ (form setting).name) }
    {
        [Setting::Fuel, Setting::Patience]
            .into_iter()
            .find(|setting| setting.name() == name)
    }

    /// Its word behind the `--`.
    pub fn name(self) -> &'static str
        ensures { result.now ≡ (form self).name }
    {
        match self {
            Setting::Fuel => "fuel",
            Setting::Patience => "patience",
        }
    }

    /// The largest value that it takes.
    pub fn limit(self) -> u32
        ensures { result ≡ (form self).limit }
    {
        match self {
            Setting::Fuel => FUEL_LIMIT,
            Setting::Patience => PATIENCE_LIMIT,
        }
    }
}
