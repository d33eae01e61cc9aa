//! Laws of links and of refusals, over the definitions alone. Each is the contract of a function that does nothing.
ghost use Rattle.linkage.specs.Laws.{LinksOrRefusal, OneAnswer, OneFirstRefusal, OneLink, OneLinking};

/// A read has one link at most.
pub fn one_link()
    ensures { OneLink }
{}

/// Events have one list of links at most.
pub fn one_linking()
    ensures { OneLinking }
{}

/// Events have one first refusal at most.
pub fn one_first_refusal()
    ensures { OneFirstRefusal }
{}

/// Events have one answer at most, want of memory aside.
pub fn one_answer()
    ensures { OneAnswer }
{}

/// Events have links, and nothing is refused, or they have a first refusal.
pub fn links_or_refusal()
    ensures { LinksOrRefusal }
{}
