//! Laws of the grammar, each as the contract of a function that does nothing.
ghost use Rattle.command_words.specs.Laws.{LineOrNone, OneReading};

/// Words are a line of the grammar, or none.
pub fn line_or_none()
    ensures { LineOrNone }
{}

/// Words have at most one reading.
pub fn one_reading()
    ensures { OneReading }
{}
