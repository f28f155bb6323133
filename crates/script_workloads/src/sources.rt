//! Words of scripts that are chosen by numbers: policies, sources, starts.

use crate::lines::{Script, Word};
use std::alloc::AllocError;
use workload_inputs::Random;

/// A policy.
pub(crate) fn policy(random: &mut Random) -> Word<'static> {
    match random.below(3) {
        0 => Word::Text("suspend"),
        1 => Word::Text("oldest"),
        _ => Word::Text("latest"),
    }
}

/// Eight numbers, of one to ten digits.
pub(crate) fn numbers(random: &mut Random) -> [u64; 8] {
    let mut numbers = [0u64; 8];
    for number in numbers.iter_mut() {
        let digits = random.below(34);
        *number = random.next() >> (30 + digits);
    }
    numbers
}

/// Ends the line by a source: a list, a range, or a list that fails.
pub(crate) fn source(script: &mut Script, random: &mut Random) -> Result<(), AllocError> {
    let list = numbers(random);
    let from = random.below(1000);
    let count = random.below(60);
    match random.below(4) {
        0 => script.line(&[
            Word::Text("range"),
            Word::Number(from),
            Word::Number(from + count),
        ]),
        1 => script.line(&[
            Word::Text("fail"),
            Word::Number(from),
            Word::List(list.as_slice()),
        ]),
        2 => long_list(script, random),
        _ => script.line(&[Word::Text("of"), Word::List(list.as_slice())]),
    }
}

/// Ends the line by a source of a longer list, some of whose items are pending answers.
fn long_list(script: &mut Script, random: &mut Random) -> Result<(), AllocError> {
    script.begin("of ")?;
    for _ in 0..4 {
        let list = numbers(random);
        script.items(list.as_slice())?;
        script.begin(",p,")?;
    }
    let list = numbers(random);
    script.line(&[Word::List(list.as_slice())])
}

/// When what shares a source collects it.
pub(crate) fn start(random: &mut Random) -> [Word<'static>; 3] {
    let stop = 1 + random.below(200);
    match random.below(4) {
        0 => [Word::Text("while"), Word::Number(stop), Word::Number(50)],
        1 => [Word::Text("while"), Word::Number(stop), Word::Text("never")],
        2 => [
            Word::Text("plan"),
            Word::Text("0:1:8:start,60:0:8:clear,90:0:8:start"),
            Word::Text(""),
        ],
        _ => [Word::Text("eager"), Word::Text(""), Word::Text("")],
    }
}
