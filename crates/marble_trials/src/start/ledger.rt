//! Finds the values that made way before they were taken.
//!
//! Where more values than a flow's capacity are pending for a subscription and the oldest makes way, the subscription loses
//! the oldest. A state is such a flow with a capacity of one, a value that is set again being no new one.

use crate::start::answered::AnsweredLine;
use crate::start::loss::Loss;
use crate::start::reply::Reply;
use flow_terms::Policy;
use script_commands::{Command, Joiner, Making, Request};
use std::alloc::{AllocError, Global};

/// A value that came to a host.
#[derive(Clone, Copy)]
struct Brought {
    /// The index of the line that brought it.
    line: usize,
    value: u64,
}

/// A shared flow where the oldest makes way, or a state.
#[derive(Drop)]
struct Host<'a> {
    name: &'a [u8],
    /// How many of the latest values a newcomer begins with.
    replay: u64,
    /// How many values may be pending.
    limit: u64,
    /// The values, by their numbers.
    values: Vec<Brought>,
    /// The number of the first value after the last reset.
    reset_at: usize,
}

/// A subscription or a collector.
#[derive(Clone, Copy)]
struct Guest<'a> {
    name: &'a [u8],
    host_index: usize,
    /// The index of the line by which it joined.
    joined: usize,
    /// How many values of its prelude it has still to take. They come first, and never make way.
    prelude: usize,
    /// The number of the value that it takes next.
    next: usize,
    is_live: bool,
}

/// What was answered up to a line.
#[derive(Drop)]
struct Ledger<'a> {
    hosts: Vec<Host<'a>>,
    guests: Vec<Guest<'a>>,
    losses: Vec<Loss>,
}

/// Which of them has a name.
fn host_named(hosts: &[Host<'_>], name: &[u8]) -> Option<usize> {
    hosts.iter().position(|host| host.name == name)
}

impl<'a> Ledger<'a> {
    /// Something is made.
    fn make(
        &mut self,
        alloc: Global,
        line: usize,
        name: &'a [u8],
        making: Making<'a>,
    ) -> Result<(), AllocError> {
        let mut values = Vec::new(alloc);
        let (replay, limit) = match making {
            Making::Shared {
                replay,
                extra,
                policy: Policy::DropOldest,
            } => (replay, replay.saturating_add(extra)),
            Making::State { value } => {
                values.push(Brought { line, value })?;
                (1, 1)
            }
            _ => return Ok(()),
        };
        self.hosts.push(Host {
            name,
            replay,
            limit,
            values,
            reset_at: 0,
        })?;
        Ok(())
    }

    /// A subscription or a collector begins, with a prelude of so many values.
    fn begin(
        &mut self,
        line: usize,
        host: &[u8],
        name: &'a [u8],
        prelude: usize,
    ) -> Result<(), AllocError> {
        let Some(host_index) = host_named(&self.hosts, host) else {
            return Ok(());
        };
        let Some(found) = self.hosts.get(host_index) else {
            return Ok(());
        };
        let oldest = found.values.len().saturating_sub(found.replay as usize);
        self.guests.push(Guest {
            name,
            host_index,
            joined: line,
            prelude,
            next: oldest.max(found.reset_at),
            is_live: true,
        })?;
        Ok(())
    }

    /// Each guest of a host for whom more values are pending than the limit loses the oldest.
    fn make_way(&mut self, host_index: usize, line: usize) -> Result<(), AllocError> {
        let Some(host) = self.hosts.get(host_index) else {
            return Ok(());
        };
        for guest in self.guests.iter_mut() {
            let pending = host.values.len().saturating_sub(guest.next);
            if guest.is_live && guest.host_index == host_index && pending as u64 > host.limit {
                if let Some(oldest) = host.values.get(guest.next) {
                    self.losses.push(Loss {
                        line,
                        joined: guest.joined,
                        brought: oldest.line,
                    })?;
                }
                guest.next = guest.next.saturating_add(1);
            }
        }
        Ok(())
    }

    /// A flow accepts a value.
    fn accept(&mut self, line: usize, name: &[u8], value: u64) -> Result<(), AllocError> {
        let Some(host_index) = host_named(&self.hosts, name) else {
            return Ok(());
        };
        let Some(host) = self.hosts.get_mut(host_index) else {
            return Ok(());
        };
        host.values.push(Brought { line, value })?;
        self.make_way(host_index, line)
    }

    /// A state is set.
    fn set(&mut self, line: usize, name: &[u8], value: u64) -> Result<(), AllocError> {
        let Some(host_index) = host_named(&self.hosts, name) else {
            return Ok(());
        };
        let Some(host) = self.hosts.get_mut(host_index) else {
            return Ok(());
        };
        if let Some(latest) = host.values.last()
            && latest.value == value
        {
            return Ok(());
        }
        host.values.push(Brought { line, value })?;
        self.make_way(host_index, line)
    }

    /// A replay cache is emptied.
    fn reset(&mut self, name: &[u8]) {
        if let Some(host_index) = host_named(&self.hosts, name)
            && let Some(host) = self.hosts.get_mut(host_index)
        {
            host.reset_at = host.values.len();
        }
    }

    /// A guest is asked for its next value, or ends.
    fn ask_guest(&mut self, name: &[u8], request: Request, reply: Reply) {
        for guest in self.guests.iter_mut() {
            if guest.name == name {
                match (request, reply) {
                    (Request::Next, Reply::Value(_)) if guest.prelude > 0 => {
                        guest.prelude = guest.prelude.saturating_sub(1);
                    }
                    (Request::Next, Reply::Value(_)) => guest.next = guest.next.saturating_add(1),
                    (Request::Next, Reply::Pending) => {
                        if let Some(host) = self.hosts.get(guest.host_index) {
                            guest.next = host.values.len();
                        }
                    }
                    (Request::Cancel, Reply::Ok) => guest.is_live = false,
                    _ => {}
                }
            }
        }
    }

    /// What a name stands for is asked something.
    fn ask(
        &mut self,
        line: usize,
        name: &[u8],
        request: Request,
        reply: Reply,
    ) -> Result<(), AllocError> {
        match (request, reply) {
            (Request::Try(value), Reply::Accepted) => self.accept(line, name, value),
            (Request::Set(value), Reply::Ok) | (Request::CompareAndSet(_, value), Reply::True) => {
                self.set(line, name, value)
            }
            (Request::Reset, Reply::Ok) => {
                self.reset(name);
                Ok(())
            }
            _ => {
                self.ask_guest(name, request, reply);
                Ok(())
            }
        }
    }

    /// A party joins a host.
    fn join(
        &mut self,
        line: usize,
        host: &[u8],
        name: &'a [u8],
        joiner: Joiner<'a>,
        reply: Reply,
    ) -> Result<(), AllocError> {
        match (joiner, reply) {
            (Joiner::Emission(value), Reply::Accepted) => self.accept(line, host, value),
            (Joiner::Subscription(prelude), Reply::Ok) => {
                self.begin(line, host, name, prelude.count())
            }
            (Joiner::Collector, Reply::Ok) => self.begin(line, host, name, 0),
            _ => Ok(()),
        }
    }

    /// A line with its answer.
    fn read(
        &mut self,
        alloc: Global,
        line: usize,
        answered: &AnsweredLine<'a>,
    ) -> Result<(), AllocError> {
        let reply = Reply::of(answered.answer);
        match answered.command {
            Some(Command::Make { name, making }) => match reply {
                Reply::Ok => self.make(alloc, line, name, making),
                _ => Ok(()),
            },
            Some(Command::Join { host, name, joiner }) => self.join(
                line, host, name, joiner, reply,
            ),
            Some(Command::Ask { name, request }) => self.ask(line, name, request, reply),
            Some(Command::Cold { .. }) | None => Ok(()),
        }
    }
}

/// The values that made way in these lines.
pub(crate) fn losses_in(
    alloc: Global,
    answered_lines: &[AnsweredLine<'_>],
) -> Result<Vec<Loss>, AllocError> {
    let mut ledger = Ledger {
        hosts: Vec::new(alloc),
        guests: Vec::new(alloc),
        losses: Vec::new(alloc),
    };
    for (line, answered) in answered_lines.iter().enumerate() {
        ledger.read(alloc, line, answered)?;
    }
    Ok(ledger.losses)
}
