ghost use Rattle.std.specs.Prelude.{◌≡◌, [], OnOk, OnErr};
ghost use Rattle.storage_model.specs.Count.{Later, Rose};
ghost use Rattle.io_edge.specs.Sink.{Wrote};

use crate::{Failed, Sink};

/// Hands the whole piece to the sink, the rest again where it takes a part. After a failure a part of the piece was
/// taken, and not all of it. An empty piece calls nothing.
pub fn put_all<K: Sink>(out: &mut K, piece: &[u8]) -> Result<(), Failed>
    ensures wrote { Wrote K.took out.old piece.now result out.new }
    ensures empty { piece.now ≡ [] → out.new ≡ out.old }
    ensures faults { Later (K.faults out.old) (K.faults out.new) }
    ensures calm { OnOk result (K.faults out.new ≡ K.faults out.old) }
    ensures failed { OnErr result (Rose (K.faults out.old) (K.faults out.new)) }
{
    let mut done = 0;
    while done < piece.len() {
        done += out.put(&piece[done..])?;
    }
    Ok(())
}
