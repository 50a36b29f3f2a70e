ghost use Rattle.std.specs.Prelude.{◌≡◌, OnOk, OnErr};
ghost use Rattle.mon_outside.specs.Outside.{Writes, WritesPrefix, Rose};

use thiserror::Error;

/// Why bytes were not written.
#[derive(Clone, Copy, Debug, PartialEq, Eq, Error)]
pub enum SinkFault {
    /// The sink took a prefix of the piece, or nothing of it.
    #[error("the bytes could not be written")]
    Failed,
}

/// What takes bytes.
pub trait Sink {
    ghost use Rattle.std.specs.Prelude.{◌≡◌, ℕ, List, [], Option, IsOk, OnOk, OnErr};
    ghost use Rattle.mon_outside.specs.Outside.{Writes, WritesPrefix, Rose};

    /// The bytes written, where the sink tells them.
    ghost written: { Self → Option (List ℕ) };

    /// How many writes have failed; it stops at 18,446,744,073,709,551,615.
    ghost faults: { Self → ℕ };

    /// Appends the piece. A write of an empty piece never fails.
    fn write(&mut self, piece: &[u8]) -> Result<(), SinkFault>
        ensures ok { OnOk result (Writes (written self.old) piece.now (written self.new)) }
        ensures ok_count { OnOk result (faults self.new ≡ faults self.old) }
        ensures empty { piece.now ≡ [] → IsOk result }
        ensures err { OnErr result (WritesPrefix (written self.old) piece.now (written self.new)) }
        ensures err_count { OnErr result (Rose (faults self.old) (faults self.new)) };
}

/// Writes a text in pieces of 4,096 bytes, the last one maybe shorter; an empty text in none. It stops where a write fails.
pub fn write_all<K: Sink>(sink: &mut K, text: &[u8]) -> Result<(), SinkFault>
    ensures ok { OnOk result (Writes (K.written sink.old) text.now (K.written sink.new)) }
    ensures ok_count { OnOk result (K.faults sink.new ≡ K.faults sink.old) }
    ensures err { OnErr result (WritesPrefix (K.written sink.old) text.now (K.written sink.new)) }
    ensures err_count { OnErr result (Rose (K.faults sink.old) (K.faults sink.new)) }
{
    let mut at = 0;
    while at < text.len() {
        let end = text.len().min(at.saturating_add(4096));
        sink.write(&text[at..end])?;
        at = end;
    }
    Ok(())
}
