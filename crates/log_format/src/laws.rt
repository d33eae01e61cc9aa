//! What holds of the definitions of bundles together, each law as the contract of a function that does nothing.
ghost use Rattle.log_format.specs.Laws.{SpellingIsRead, ReadIsSpelled, FuelIsInRange, NoSpellingBeginsAnother, CutIsShort, MoreIsLong, NothingWrongBefore, WrongStaysWrong, ShortIsBegun};

/// Each spelling of a bundle reads as this bundle.
pub fn spelling_is_read()
    ensures { SpellingIsRead }
{}

/// Bytes that read as a bundle are its spelling in one of the versions.
pub fn read_is_spelled()
    ensures { ReadIsSpelled }
{}

/// Bytes that read as a bundle tell a bound on the instructions from 1 to its limit.
pub fn fuel_is_in_range()
    ensures { FuelIsInRange }
{}

/// No spelling of a bundle is the beginning of another.
pub fn no_spelling_begins_another()
    ensures { NoSpellingBeginsAnother }
{}

/// A spelling that is cut off within is short, at the length that is left of it.
pub fn cut_is_short()
    ensures { CutIsShort }
{}

/// A spelling with more bytes after it is too long, at its own length.
pub fn more_is_long()
    ensures { MoreIsLong }
{}

/// Bytes that are refused for a wrong byte or number are, up to the offset that is told, only short of a bundle.
pub fn nothing_wrong_before()
    ensures { NothingWrongBefore }
{}

/// Bytes that are refused for a wrong byte or number are refused so whatever follows them.
pub fn wrong_stays_wrong()
    ensures { WrongStaysWrong }
{}

/// Short bytes are so at their length: a spelling was begun, but for the range of a number in which they may end.
pub fn short_is_begun()
    ensures { ShortIsBegun }
{}
