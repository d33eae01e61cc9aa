//! Laws of histories, over the definitions alone. Each is the contract of a function that does nothing.
ghost use Rattle.histories.specs.Laws.{EvenAtRest, HistoriesHaveChronicles, NamelessAreNewcomers, NamesAreDrawn, NamesStay, NothingFalls, NumbersCountWrites, OneClaimer, OneHolder, StrangersAreNewcomers, TurnsCountEntries, UpdatesMeetTheWriteBefore, WhatIsSeenIsPast};

/// Every history has a chronicle.
pub fn histories_have_chronicles()
    ensures { HistoriesHaveChronicles }
{}

/// One thread at most has claimed a cell, and its number is its own.
pub fn one_claimer()
    ensures { OneClaimer }
{}

/// One thread at most holds a monitor, and its turn is its own.
pub fn one_holder()
    ensures { OneHolder }
{}

/// Once each thread is at rest every number is even.
pub fn even_at_rest()
    ensures { EvenAtRest }
{}

/// The old value of an update is that of the write numbered one below it, or the starting value.
pub fn updates_meet_the_write_before()
    ensures { UpdatesMeetTheWriteBefore }
{}

/// No count of names, no number and no monitor's word ever falls.
pub fn nothing_falls()
    ensures { NothingFalls }
{}

/// What a thread has seen of a cell is at most half of its number.
pub fn what_is_seen_is_past()
    ensures { WhatIsSeenIsPast }
{}

/// A name that was drawn stays.
pub fn names_stay()
    ensures { NamesStay }
{}

/// The names are the numbers below the count of names, each of one thread.
pub fn names_are_drawn()
    ensures { NamesAreDrawn }
{}

/// A thread without a name has done nothing.
pub fn nameless_are_newcomers()
    ensures { NamelessAreNewcomers }
{}

/// A thread that made no step has done nothing.
pub fn strangers_are_newcomers()
    ensures { StrangersAreNewcomers }
{}

/// A cell's number counts the finished writes and updates of the cell.
pub fn numbers_count_writes()
    ensures { NumbersCountWrites }
{}

/// A monitor's word counts the entries into the monitor.
pub fn turns_count_entries()
    ensures { TurnsCountEntries }
{}
