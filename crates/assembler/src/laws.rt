//! What holds of the definitions of texts together, each law as the contract of a function that does nothing.
ghost use Rattle.assembler.specs.Laws.{CanonicalIsReadBack, CodeHasLines, SplitIsParts};

/// The canonical text of a valid program spells this program.
#[tactic(auto, using(crate::proofs::ReadBack::canonical_is_read_back))]
pub fn canonical_is_read_back()
    ensures { CanonicalIsReadBack }
{}

/// Each thread of a program that a text spells stands in the text with as many lines of instructions as it has instructions.
#[tactic(auto, using(crate::proofs::CodeLaws::code_has_lines))]
pub fn code_has_lines()
    ensures { CodeHasLines }
{}

/// A split cuts a text into the program's text, no line of which is `order`, the line `order`, and the order.
#[tactic(auto, using(crate::proofs::SplitLemmas::split_is_parts))]
pub fn split_is_parts()
    ensures { SplitIsParts }
{}
