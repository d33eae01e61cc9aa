//! The words of a line.
ghost use Rattle.std.specs.Prelude.{◌≡◌, ◌<◌, ◌≤◌, ◌∷◌, [], false, length, slice_index, IfSome, IfNone};
ghost use Rattle.assembler.specs.Words.{uncommented, is_blank as is_blank_byte, front_of, plain_words};

use memchr::memchr;

/// What stands before the comment of a line.
pub(crate) fn before_comment(line: &[u8]) -> &[u8]
    ensures { result.now ≡ uncommented line.now }
{
    match memchr(b'#', line) {
        Some(start) => line.split_at(start).0,
        None => line,
    }
}

fn is_blank(byte: u8) -> bool
    ensures { result ≡ is_blank_byte byte }
{
    byte == b' ' || byte == b'\t' || byte == b'\r'
}

// What follows the blanks at the front of a line.
#[tactic(auto, using(crate::proofs::WordLemmas::blank_steps))]
fn skip_blanks(line: &[u8]) -> &[u8]
    ensures same { plain_words result.now ≡ plain_words line.now }
    ensures word { 0 < length result.now → is_blank_byte (slice_index result.now 0) ≡ false }
    ensures short { length result.now ≤ length line.now }
{
    for (i, byte) in line.iter().enumerate() {
        if !is_blank(*byte) {
            return line.split_at(i).1;
        }
    }
    &[]
}

// The bytes before the first blank, and what follows that.
#[tactic(auto, using(crate::proofs::WordLemmas::word_steps))]
fn cut_word(line: &[u8]) -> (&[u8], &[u8])
    requires { 0 < length line.now }
    ensures word { result.0.now ≡ (front_of line.now).word }
    ensures behind { plain_words result.1.now ≡ (front_of line.now).behind }
    ensures shorter { length result.1.now < length line.now }
{
    for (i, byte) in line.iter().enumerate() {
        if is_blank(*byte) {
            return (line.split_at(i).0, line.split_at(i + 1).1);
        }
    }
    (line, &[])
}

/// The first word of a line without a comment, and what follows it; `None` where the line has no word.
#[tactic(auto, using(crate::proofs::WordLemmas::word_facts))]
pub(crate) fn take_word(line: &[u8]) -> Option<(&[u8], &[u8])>
    ensures split { IfSome result (λ taken. plain_words line.now ≡ taken.0.now ∷ plain_words taken.1.now) }
    ensures word { IfSome result (λ taken. 0 < length taken.0.now) }
    ensures shorter { IfSome result (λ taken. length taken.1.now < length line.now) }
    ensures none { IfNone result (plain_words line.now ≡ []) }
{
    let start = skip_blanks(line);
    if start.is_empty() {
        return None;
    }
    Some(cut_word(start))
}
