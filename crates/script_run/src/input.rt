//! Reads a script.

ghost use Rattle.std.specs.Prelude.{◌≡◌, ◌≤◌, ◌<◌, ◌+◌, ◌-◌, length, IfOk, IfErr, IsOk, ◌≢◌};
ghost use Rattle.std.specs.Io.KnownBytes.{Consumes, IsAtEnd};
ghost use Rattle.script_run.specs.Input.{ReadWhole, Reading, TakesAtMost};
ghost use Rattle.script_run.specs.declared.fault.ScriptFault.TheVariants.{Write, TooLong};

use crate::fault::ScriptFault;
use std::alloc::Global;
use std::io::Read;

/// The most bytes that a script has.
pub const MOST_BYTES: usize = 1_048_576;

/// The most bytes that are asked for at once.
const CHUNK_BYTES: usize = 4096;

/// Reads once, at most one byte past the limit, and answers how many bytes came.
fn read_once<R: Read>(reader: &mut R, script: &mut Vec<u8>) -> Result<usize, ScriptFault>
    requires { length script.old.items ≤ 1048576 }
    ensures ok { IfOk result (λ count. Reading (R.remaining reader.old) (R.remaining reader.new) script.old.items script.new.items count) }
    ensures within { TakesAtMost (R.remaining reader.old) (R.remaining reader.new) (1048577 - length script.old.items) }
    ensures err { IfErr result (λ fault. (fault ≢ Write) × (fault ≢ TooLong)) }
{
    let mut chunk = [0u8; CHUNK_BYTES];
    let room = (MOST_BYTES + 1 - script.len()).min(CHUNK_BYTES);
    let buf = &mut chunk[..room];
    let count = match reader.read(buf) {
        Ok(count) => count,
        Err(_) => return Err(ScriptFault::Read),
    };
    let (read, _) = buf.split_at(count);
    script.extend_from_slice(read)?;
    Ok(count)
}

/// Reads a script whole, and never more than one byte past the limit of 1,048,576 bytes.
///
/// A longer script is `TooLong`, any failing read `Read`, `Interrupted` too. Then nothing of what was read is kept, and
/// the reader is where it came to. That the number of reads is bounded isn't claimed, since a reader may give nothing
/// new for ever.
pub fn read_script<R: Read>(alloc: Global, reader: &mut R) -> Result<Vec<u8>, ScriptFault>
    ensures whole { ReadWhole (R.remaining reader.old) (R.remaining reader.new) result }
    ensures within { TakesAtMost (R.remaining reader.old) (R.remaining reader.new) 1048577 }
{
    let mut script = Vec::new(alloc);
    while script.len() <= MOST_BYTES {
        if read_once(reader, &mut script)? == 0 {
            return Ok(script);
        }
    }
    Err(ScriptFault::TooLong)
}
