//! `Links`: of each event, the number of the write that it is linked to.
ghost use Rattle.std.specs.Prelude.{◌≡◌, ◌+◌, ◌<◌, length};
ghost use Rattle.linkage.specs.Links.{link_at, links_of};

use interleavings::Place;
use std::marker::Model;
use std::sync::ledger::Ledger;
use stride_base::Steps;

/// The links of the events of each thread. They are seen as a list of links for each thread: the number of a write for a read,
/// and none for any other event. A link is seen by `of` alone, which counts the look.
#[derive(Drop)]
pub struct Links {
    pub(crate) rows: Vec<Vec<Option<u32>>>,
}

impl Model for Links {
    ghost use Rattle.std.specs.Prelude.{ℕ, List as Rows, Option as Link, map};

    ghost Value = { Rows (Rows (Link ℕ)) };

    ghost view = { λ links. map (λ row. row.items) links.rows.items };
}

impl Links {
    /// The number of the write that the read at this place is linked to, or `None` exactly where the event there is no read. It
    /// is one look.
    pub fn of<L: Ledger>(&self, place: Place, steps: &mut Steps<L>) -> Option<u32>
        requires thread { place.thread < length self.now }
        requires place { place.place < length (links_of self.now place.thread) }
        ensures link { result ≡ link_at self.now place }
        ensures look { steps.new ≡ steps.old + 1 }
    {
        steps.tick();
        self.rows[place.thread as usize][place.place as usize]
    }
}
