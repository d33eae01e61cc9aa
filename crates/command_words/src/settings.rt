//! What the words of the command line set.

/// What the program can be told to do.
#[derive(Clone, Copy, Debug, PartialEq, Eq)]
pub enum Command {
    /// Checks a program, and prints its canonical text.
    Check,
    /// Plays a schedule on the sequentially consistent machine.
    Follow,
    /// Records a program by an order of atomic steps, on one thread.
    Sim,
    /// Records a program by running its threads, and replays the recording.
    Run,
    /// Records a program by running its threads, and writes the bundle.
    Bundle,
    /// Links the reads of a bundle, and brings its events into an order.
    Infer,
    /// Plays that order on the sequentially consistent machine.
    Replay,
    /// Shows what a bundle holds.
    Show,
    /// Spells a bundle of either version in version 2.
    Upgrade,
    /// Records the demonstration of this number: on one thread, or live, by running threads.
    Demo { number: u64, live: bool },
}

/// What the words of the command line set.
#[derive(Clone, Copy, Debug, PartialEq, Eq)]
pub struct Settings {
    pub command: Command,
    /// How many instructions each thread may make, where the words say it.
    pub fuel: Option<u32>,
    /// After how many odd looks in a row a thread gives up, where the words say it.
    pub patience: Option<u32>,
}

/// Why words have no settings.
#[derive(Clone, Copy, Debug, PartialEq, Eq)]
pub enum Refusal {
    /// The words are no line of the grammar.
    Usage,
    /// Memory ran out.
    NoMemory,
}
