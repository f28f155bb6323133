//! The words of a command line.

ghost use Rattle.std.specs.Prelude.{◌≡◌, ◌≢◌, [], map, IfOk, IfErr, string_bytes};
ghost use Rattle.clap.specs.Words.{fault_of};
ghost use Rattle.program_words.specs.Asked.{plain, plain_in};
ghost use Rattle.program_words.specs.declared.fault.WordsFault.TheVariants.{Usage};

use crate::fault::WordsFault;
use clap::{Arg, ArgAction, Command};
use std::alloc::{AllocGlobal, Global};
use std::rt::Env;
use std::{env, io};

/// The words of the command line, the program's own name first.
pub fn words_of<R: Env + AllocGlobal>(rt: &R) -> Result<Vec<String>, WordsFault> {
    match env::args(rt) {
        Ok(words) => Ok(words.collect::<Vec<String>>(rt.alloc())?),
        Err(error) if error.kind() == io::ErrorKind::OutOfMemory => Err(WordsFault::NoMemory),
        Err(_) => Err(WordsFault::Usage),
    }
}

/// The words after the program's own name, which is the first one. An option, of which there is none, is `Usage`.
pub fn plain_words<'a>(alloc: Global, words: &'a [String]) -> Result<Vec<&'a str>, WordsFault>
    ensures faultless { IfOk result (λ _. fault_of plain (map string_bytes words.now) ≡ []) }
    ensures words { IfOk result (λ found. map (λ s. s.now) found.items ≡ plain_in (map string_bytes words.now)) }
    ensures fault { IfErr result (λ fault. fault ≡ Usage → fault_of plain (map string_bytes words.now) ≢ []) }
{
    let word = Arg::new(alloc, "word").action(ArgAction::Append);
    let command = Command::new(alloc, "program").arg(word)?;
    let matches = command.try_get_matches_from(words)?;
    match matches.get_strs("word") {
        Some(found) => Ok(Vec::from_slice(alloc, found)?),
        None => Ok(Vec::new(alloc)),
    }
}
