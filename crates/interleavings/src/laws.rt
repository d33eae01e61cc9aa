//! Laws of recordings and of following, over the definitions alone. Each is the contract of a function that does nothing,
//! but for naming the laws of the machine on which its proof stands.
ghost use Rattle.interleavings.specs.Laws.{EventMakesMore, DrivenIsAHistory, DrivenIsFollowed, DrivenIsShort, DrivenGivesUp, DrivenIsARecording, NothingIsLeft, FollowedUsesItsLog, FollowedWalks, WalksAreFollowed, WalksGoOn, WalksStand, ExitsEndEnters};

use sc_machine::{fuel_is_left, settled_makes_no_less};

/// After an event a thread has made more instructions than before.
pub fn event_makes_more()
    ensures { EventMakesMore }
{
    fuel_is_left();
    settled_makes_no_less();
}

/// What an order of atomic steps gives is a recording of a history, after which each thread is at rest.
pub fn driven_is_a_history()
    ensures { DrivenIsAHistory }
{
    fuel_is_left();
    settled_makes_no_less();
}

/// Each thread that is run again by the log that an order of atomic steps gives makes the events of those steps, prints
/// what it printed and ends as it ended.
pub fn driven_is_followed()
    ensures { DrivenIsFollowed }
{
    fuel_is_left();
    settled_makes_no_less();
}

/// A log that an order of atomic steps gives has at most as many entries as a thread has fuel.
pub fn driven_is_short()
    ensures { DrivenIsShort }
{
    fuel_is_left();
    settled_makes_no_less();
}

/// A thread whose row of odd looks has reached the patience ended as stopped, at the entry into that row's monitor.
pub fn driven_gives_up()
    ensures { DrivenGivesUp }
{}

/// What an order gives is a recording, where each thread that was stopped had given up.
pub fn driven_is_a_recording()
    ensures { DrivenIsARecording }
{
    fuel_is_left();
    settled_makes_no_less();
}

/// Once a run has settled, no thread has anything left of what it had claimed or loaded, and none stands at an exit.
pub fn nothing_is_left()
    ensures { NothingIsLeft }
{
    fuel_is_left();
    settled_makes_no_less();
}

/// A thread that is run again by a log uses each entry of it: the events that it makes have this very log.
pub fn followed_uses_its_log()
    ensures { FollowedUsesItsLog }
{
    fuel_is_left();
    settled_makes_no_less();
}

/// A thread that was run again by its log went from event to event, each at the instruction where it stood.
pub fn followed_walks()
    ensures { FollowedWalks }
{
    fuel_is_left();
    settled_makes_no_less();
}

/// A thread that goes from event to event is run again through these events by their log.
pub fn walks_are_followed()
    ensures { WalksAreFollowed }
{
    fuel_is_left();
    settled_makes_no_less();
}

/// A thread that goes from event to event goes on by each that its instruction meets.
pub fn walks_go_on()
    ensures { WalksGoOn }
{}

/// Where a thread stands that goes from event to event: it holds what it leaves, for the turn of its last entry, and it was not
/// stopped.
pub fn walks_stand()
    ensures { WalksStand }
{}

/// Each exit of a thread that goes from event to event ends a turn that an earlier enter of the thread began.
pub fn exits_end_enters()
    ensures { ExitsEndEnters }
{}
