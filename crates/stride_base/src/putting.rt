//! `put_all`: the whole of a piece into a sink.
ghost use Rattle.std.specs.Prelude.{◌≡◌, ◌≤◌, [], OnOk, OnErr, IsOk};
ghost use Rattle.stride_base.specs.Devices.{Adds, AddsFront, Rose};

use crate::failed::Failed;
use crate::sink::Sink;

/// Appends the whole piece. Each `put` is given all that is left of it. After a fault a prefix of
/// the piece was appended. It takes no memory.
pub fn put_all<K: Sink>(sink: &mut K, piece: &[u8]) -> Result<(), Failed>
    ensures ok { OnOk result (Adds (K.held sink.old) (K.held sink.new) piece.now) }
    ensures front { OnErr result (AddsFront (K.held sink.old) (K.held sink.new) piece.now) }
    ensures failed { OnErr result (Rose (K.faults sink.old) (K.faults sink.new)) }
    ensures counted { K.faults sink.old ≤ K.faults sink.new }

    // An empty piece is no call of the sink.
    ensures empty { piece.now ≡ [] → IsOk result }
    ensures untouched { piece.now ≡ [] → sink.new ≡ sink.old }
{
    let mut rest = piece;
    while !rest.is_empty() {
        let n = sink.put(rest)?;
        rest = rest.split_at(n).1;
    }
    Ok(())
}
