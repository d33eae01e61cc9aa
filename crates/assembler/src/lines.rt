//! The lines of a text.
ghost use Rattle.std.specs.Prelude.{◌≡◌, ◌+◌, ◌-◌, ◌<◌, [], ◌∷◌, length, IfSome, IfNone};
ghost use Rattle.assembler.specs.Lines.{lines};

/// The first line without its line feed, and what follows it; `None` at the end of the text.
#[tactic(auto, using(crate::proofs::LineLemmas::line_steps))]
pub(crate) fn take_line(text: &[u8]) -> Option<(&[u8], &[u8])>
    ensures split { IfSome result (λ taken. lines text.now ≡ taken.0.now ∷ lines taken.1.now) }
    ensures rest { IfSome result (λ taken. length taken.1.now ≡ length text.now - (length taken.0.now + 1)) }
    ensures shorter { IfSome result (λ taken. length taken.1.now < length text.now) }
    ensures none { IfNone result (text.now ≡ []) }
{
    if text.is_empty() {
        return None;
    }
    for (i, byte) in text.iter().enumerate() {
        if *byte == b'\n' {
            return Some((text.split_at(i).0, text.split_at(i + 1).1));
        }
    }
    Some((text, &[]))
}
