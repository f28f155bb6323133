//! A chat of as many threads as users stand on standard input. Each joins, says its lines, hears what all say, and leaves when all are
//! let go at once.
#![tactic(auto)]

mod room;
mod script;
mod user;

use room::Room;
use script::Script;
use shared_core::{Config, Policy};
use shared_flow::{Refusal, SharedFlow};
use std::alloc::AllocGlobal;
use std::io;
use std::process::ExitCode;
use std::random::RandomSource;
use std::rt::Clock;
use std::sync::Wait;
use std::thread::{Threads, for_each_mut};
use user::User;

/// What the chat and its threads need of a runtime.
trait Runtime: Wait + Threads + RandomSource + AllocGlobal + Clock + Sync {}

impl<R: Wait + Threads + RandomSource + AllocGlobal + Clock + Sync> Runtime for R {}

/// Kotlin's `MutableSharedFlow(extraBufferCapacity = 2)`: less room than there are users, so who speaks has to hear meanwhile.
fn chat_of(users: u32) -> Config {
    Config {
        replay: 0,
        extra: 2,
        policy: Policy::Suspend,
        subscribers: users,
        emits: 1,
        first: 0,
    }
}

/// The chat, on a thread for each user: what each of them heard.
fn run(rt: &impl Runtime, script: &Script) -> Result<Vec<User>, Refusal> {
    let Ok(count) = u32::try_from(script.names().len()) else {
        return Err(Refusal::BadLimit);
    };
    let mut chat = SharedFlow::new(rt.alloc(), chat_of(count))?;
    let mut users = Vec::new(rt.alloc());
    let mut stoppers = Vec::new(rt.alloc());
    for id in 0..count {
        let (user, stopper) = User::new(rt, &mut chat, id)?;
        users.push(user)?;
        stoppers.push(stopper)?;
    }
    meet(rt, script, &Room::new(stoppers), &mut users);
    Ok(users)
}

/// Each user takes part on a thread of its own.
fn meet(rt: &impl Runtime, script: &Script, room: &Room, users: &mut Vec<User>) {
    let threads = users.len().max(1);
    for_each_mut(
        rt,
        users.as_mut_slice(),
        threads,
        &|_, user: &mut User| user.take_part(rt, script, room),
    );
}

/// Whether this user heard all that each one says, in order and once.
fn has_heard_all(script: &Script, user: &User) -> bool {
    (0..script.names().len()).all(|other| script.is_all_of(user.heard.as_slice(), other))
}

/// Prints what somebody heard, user by user.
fn print_heard(rt: &impl Print, script: &Script, heard: &[u64]) -> io::Result<()> {
    for (user, name) in script.names().iter().enumerate() {
        for place in heard.iter() {
            if script.is_of(*place, user) {
                println!(rt; "{name}: {}", script.text(*place))?;
            }
        }
    }
    Ok(())
}

/// Says how many lines each heard, and whether these are all.
fn tell(rt: &impl Print, script: &Script, users: &[User]) -> io::Result<bool> {
    let mut is_whole = true;
    for (name, user) in script.names().iter().zip(users.iter()) {
        if let Err(refusal) = &user.outcome {
            println!(rt; "{name} was refused: {refusal}")?;
        }
        let has_all = has_heard_all(script, user);
        println!(rt;
            "{name} heard {}, all of each in order: {has_all}",
            user.heard.len()
        )?;
        is_whole = is_whole && has_all;
    }
    Ok(is_whole)
}

/// Prints the chat as the first user heard it, and how much each heard. Success where each heard all.
fn tell_all(rt: &impl Print, script: &Script, users: &[User]) -> io::Result<ExitCode> {
    if let Some(first) = users.first() {
        print_heard(rt, script, first.heard.as_slice())?;
    }
    if tell(rt, script, users)? {
        Ok(ExitCode::SUCCESS)
    } else {
        Ok(ExitCode::FAILURE)
    }
}

fn main(rt: HostRuntime) -> io::Result<ExitCode> {
    let script = Script::read(&rt)?;
    match run(&rt, &script) {
        Ok(users) => tell_all(&rt, &script, users.as_slice()),
        Err(refusal) => {
            eprintln!(rt; "refused: {refusal}")?;
            Ok(ExitCode::FAILURE)
        }
    }
}
