//! Those who act at the same time, each in a thread of its own.

use std::sync::Wait;
use std::thread;
use std::thread::{Threads, for_each_mut};

/// Who acts in a thread of its own.
pub(crate) trait Acts {
    fn act<R: Wait>(&mut self, rt: &R);
}

/// Both act.
pub(crate) fn both<R, A, B>(rt: &R, one: &mut A, other: &mut B)
where
    R: Threads + Wait + Sync,
    A: Acts + Send,
    B: Acts + Send,
{
    thread::join(rt, || one.act(rt), || other.act(rt));
}

/// All of both lists act.
pub(crate) fn all_of_both<R, A, B>(rt: &R, ones: &mut Vec<A>, others: &mut Vec<B>)
where
    R: Threads + Wait + Sync,
    A: Acts + Send,
    B: Acts + Send,
{
    thread::join(rt, || act_all(rt, ones), || act_all(rt, others));
}

/// Each of a list acts.
fn act_all<R, A>(rt: &R, all: &mut Vec<A>)
where
    R: Threads + Wait + Sync,
    A: Acts + Send,
{
    let threads = all.len().max(1);
    for_each_mut(
        rt,
        all.as_mut_slice(),
        threads,
        &|_, one: &mut A| one.act(rt),
    );
}
