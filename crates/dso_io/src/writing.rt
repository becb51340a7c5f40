//! A whole text, written to a sink (`specs/Giving.antt`).

ghost use Rattle.std.specs.Prelude.{◌≡◌, length, OnOk, OnErr};
ghost use Rattle.dso_io.specs.Environment.{Rose, TookPrefix, taken_after};
ghost use Rattle.dso_io.specs.Giving.{GaveRests, GaveUntilFault};

use crate::environment::{Failed, Sink};

/// Gives a whole text to a sink. Each put is given all that is left. It takes no memory.
///
/// Where the sink fails, it took a prefix of the text, and its count rose; it is given no more then. Where it takes the
/// whole text, its count is as before.
pub fn write_text<K: Sink>(out: &mut K, text: &[u8]) -> Result<(), Failed>
    ensures ok { OnOk result (K.taken out.new ≡ taken_after (K.taken out.old) text.now) }
    ensures sound { OnOk result (K.faults out.new ≡ K.faults out.old) }
    ensures rests { OnOk result (GaveRests K.puts text.now out.old (length text.now) out.new) }
    ensures prefix { OnErr result (TookPrefix (K.taken out.old) text.now (K.taken out.new)) }
    ensures failed { OnErr result (Rose (K.faults out.old) (K.faults out.new)) }
    ensures until { OnErr result (GaveUntilFault K.puts text.now out.old out.new) }
{
    let mut written = 0;
    while written < text.len() {
        let (_, rest) = text.split_at(written);
        written += out.put(rest)?;
    }
    Ok(())
}
