//! How much memory the process has, as Linux counts it.

use std::alloc::AllocGlobal;
use std::fs;
use std::process::Abort;
use std::rt::Files;

/// Which of the numbers that Linux gives of a process are those of all its pages, also of such as are only reserved, and of the pages
/// for its heap and its threads; counted from 0.
const ALL: usize = 0;

const DATA: usize = 5;

/// More pages than a program reserves: a tebibyte.
const NO_PROGRAM: u64 = 1 << 28;

fn number<R: Files + Abort + AllocGlobal>(rt: &R, which: usize) -> u64 {
    let text = fs::read_to_string(rt, "/proc/self/statm").expect(rt, "the numbers of the process");
    let word = text
        .split_whitespace()
        .nth(which)
        .expect(rt, "so many numbers");
    word.parse::<u64>().expect(rt, "a number of pages")
}

/// How many pages the process has from the system for its heap and its threads. What is given back may stay with the process, which
/// then takes it again before it asks for more.
///
/// A build that looks for misuse of memory, as `rt try` makes it, keeps apart what is given back, so that this tells nothing there:
/// it is 0 then. Such a build is known by all that it reserves.
pub(crate) fn pages<R: Files + Abort + AllocGlobal>(rt: &R) -> u64 {
    if number(rt, ALL) < NO_PROGRAM {
        number(rt, DATA)
    } else {
        0
    }
}
