//! Writes answers.

ghost use Rattle.std.specs.Prelude.{◌≡◌, ◌≤◌, OnOk, OnErr, IfErr};
ghost use Rattle.std.specs.Io.KnownBytes.{Appends};
ghost use Rattle.script_run.specs.Output.{AppendsFront};
ghost use Rattle.script_run.specs.declared.fault.ScriptFault.TheVariants.{Write};

use crate::fault::ScriptFault;
use std::io;

/// Writes all of the bytes, or a front of them where a write fails (`Interrupted` too) or takes no byte.
pub fn write_whole<W: io::Write>(writer: &mut W, bytes: &[u8]) -> Result<(), ScriptFault>
    ensures ok { OnOk result (Appends (W.contents writer.old) (W.contents writer.new) bytes.now) }
    ensures err { OnErr result (AppendsFront (W.contents writer.old) (W.contents writer.new) bytes.now) }
    ensures fault { IfErr result (λ fault. fault ≡ Write) }
{
    let mut written = 0;
    while written < bytes.len() {
        let (_, rest) = bytes.split_at(written);
        match writer.write(rest) {
            Ok(0) | Err(_) => return Err(ScriptFault::Write),
            Ok(count) => written += count,
        }
    }
    Ok(())
}
