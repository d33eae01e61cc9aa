//! Laws of the machine, over its definitions alone. Each is the contract of a function that does nothing.
ghost use Rattle.sc_machine.specs.Laws.{TurnsAreSteps, RefusedWhereStuck, TurnsJoin, MadeAlongTurns, RefusedAlongTurns, StartsSettle, TurnByStop, MovedKeepsFuel, SettledKeepsFuel, AnsweredHasFuel, SettledMakesNoLess, SettledStands, SettledPrints, OutputsAreLines, TurnsInARow, TurnsPrint};

/// The single steps of a schedule do what its whole turns do, after the local starts.
pub fn turns_are_steps()
    ensures { TurnsAreSteps }
{}

/// A list is refused at the first member that is not enabled when its turn comes.
pub fn refused_where_stuck()
    ensures { RefusedWhereStuck }
{}

/// The turns of two lists, one after the other, are those of both lists together.
pub fn turns_join()
    ensures { TurnsJoin }
{}

/// A schedule's run is found along its turns, and so is the place at which a list is refused.
pub fn replay_along_turns()
    ensures made { MadeAlongTurns }
    ensures refused { RefusedAlongTurns }
{}

/// After the local starts each thread has settled by itself.
pub fn starts_settle()
    ensures { StartsSettle }
{}

/// The turn of a thread that stands is one equation by its stop.
pub fn turn_by_stop()
    ensures { TurnByStop }
{}

/// A thread that has not ended has fuel left: after a local instruction, once it has settled, and after a shared one.
pub fn fuel_is_left()
    ensures moved { MovedKeepsFuel }
    ensures settled { SettledKeepsFuel }
    ensures answered { AnsweredHasFuel }
{}

/// A thread that settles takes back none of the instructions that it has made.
pub fn settled_makes_no_less()
    ensures { SettledMakesNoLess }
{}

/// A thread settles at a shared instruction or at its end.
pub fn settled_stands()
    ensures { SettledStands }
{}

/// What a thread prints until it settles is its lines of the transcript.
pub fn settled_prints()
    ensures { SettledPrints }
{}

/// The output of each thread of a run is its lines of the transcript.
pub fn outputs_are_lines()
    ensures { OutputsAreLines }
{}

/// Turns of one thread in a row are turns of the machine, and where it may not go on then, it is not enabled.
pub fn turns_in_a_row()
    ensures { TurnsInARow }
{}

/// What a thread prints in turns in a row is its lines of the transcript.
pub fn turns_print()
    ensures { TurnsPrint }
{}
