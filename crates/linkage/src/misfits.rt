//! The first misfits of the events.
ghost use Rattle.std.specs.Prelude.{◌≡◌};
ghost use Rattle.linkage.specs.Misfitting.{IsEarlierOf, IsNoted, told_of};

use crate::finding::Finding;
use crate::link_error::LinkError;
use interleavings::Place;

/// The first read whose bound is too large, the first read that no write within its bound equals, and the first update whose old
/// value was not stored before it, by thread and then by place. They are kept until all events were looked at, since threads are
/// gone through side by side.
#[derive(Clone, Copy, Debug, PartialEq, Eq)]
pub(crate) struct Misfits {
    pub(crate) too_large: Option<Place>,
    pub(crate) unequal: Option<Place>,
    pub(crate) mismatch: Option<Place>,
}

// The earlier of two places, by thread and then by place.
fn earlier(known: Option<Place>, at: Place) -> Place
    ensures { IsEarlierOf known at result }
{
    match known {
        Some(place) if (place.thread, place.place) < (at.thread, at.place) => place,
        _ => at,
    }
}

impl Misfits {
    /// Keeps a misfit, unless one of its kind stands before it, and gives the link.
    pub(crate) fn note(&mut self, at: Place, finding: Finding) -> Option<u32>
        ensures { IsNoted self.old at finding self.new result }
    {
        match finding {
            Finding::Linked { number } => Some(number),
            Finding::Unlinked => None,
            Finding::TooLarge => {
                self.too_large = Some(earlier(self.too_large, at));
                None
            }
            Finding::Unequal => {
                self.unequal = Some(earlier(self.unequal, at));
                None
            }
            Finding::Mismatch => {
                self.mismatch = Some(earlier(self.mismatch, at));
                None
            }
        }
    }

    /// Tells the misfit that comes first, if there is one.
    pub(crate) fn told(&self) -> Result<(), LinkError>
        ensures { result ≡ told_of self.now }
    {
        match (self.too_large, self.unequal, self.mismatch) {
            (Some(at), _, _) => Err(LinkError::BoundTooLarge { at }),
            (None, Some(at), _) => Err(LinkError::NoEqualWrite { at }),
            (None, None, Some(at)) => Err(LinkError::UpdateMismatch { at }),
            (None, None, None) => Ok(()),
        }
    }
}
