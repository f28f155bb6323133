//! Finds the values that made way before they were taken.
//!
//! Where more values than a flow's capacity are pending for a subscription and the oldest makes way, the subscription loses
//! the oldest. A state is such a flow with a capacity of one, a value that is set again being no new one.

use crate::answered::AnsweredLine;
use crate::firsts::Firsts;
use crate::loss::Loss;
use crate::reply::Reply;
use flow_terms::Policy;
use script_commands::{Command, Joiner, Making, NameHash, Request};
use std::alloc::{AllocError, Global};
use std::collections::HashMap;

/// A value that came to a host.
#[derive(Clone, Copy)]
struct Brought {
    /// The index of the line that brought it.
    line: usize,
    value: u64,
}

/// A shared flow where the oldest makes way, or a state.
#[derive(Drop)]
struct Host {
    /// How many of the latest values a newcomer begins with.
    replay: u64,
    /// How many values may be pending.
    limit: u64,
    /// The values, by their numbers.
    values: Vec<Brought>,
    /// The number of the first value after the last reset.
    reset_at: usize,
    /// Its guests that have not ended, in the order in which they joined.
    live: Vec<usize>,
}

/// A subscription or a collector.
#[derive(Clone, Copy)]
struct Guest {
    host_index: usize,
    /// The guest of its name that joined before it, if there is one.
    namesake: Option<usize>,
    /// The index of the line by which it joined.
    joined: usize,
    /// How many values of its prelude it has still to take. They come first, and never make way.
    prelude: usize,
    /// The number of the value that it takes next.
    next: usize,
    /// It has not ended.
    is_live: bool,
}

/// What was answered up to a line.
#[derive(Drop)]
struct Ledger<'a> {
    hosts: Vec<Host>,
    /// The first host of each name.
    host_of: Firsts<'a>,
    guests: Vec<Guest>,
    /// The last guest of each name.
    guest_of: HashMap<&'a [u8], usize, NameHash>,
    losses: Vec<Loss>,
}

impl Guest {
    /// It is asked for its next value, where so many values came to its host.
    fn ask(&mut self, values: usize, reply: Reply) {
        match reply {
            Reply::Value(_) if self.prelude > 0 => self.prelude = self.prelude.saturating_sub(1),
            Reply::Value(_) => self.next = self.next.saturating_add(1),
            Reply::Pending => self.next = values,
            _ => {}
        }
    }
}

impl<'a> Ledger<'a> {
    /// Something is made.
    fn make(
        &mut self,
        alloc: Global,
        line: usize,
        name: &'a [u8],
        making: Making<'a>,
    ) -> Result<(), AllocError> {
        let mut values = Vec::new(alloc);
        let (replay, limit) = match making {
            Making::Shared {
                replay,
                extra,
                policy: Policy::DropOldest,
            } => (replay, replay.saturating_add(extra)),
            Making::State { value } => {
                values.push(Brought { line, value })?;
                (1, 1)
            }
            _ => return Ok(()),
        };
        self.host_of.note(name, self.hosts.len())?;
        self.hosts.push(Host {
            replay,
            limit,
            values,
            reset_at: 0,
            live: Vec::new(alloc),
        })?;
        Ok(())
    }

    /// A subscription or a collector begins, with a prelude of so many values.
    fn begin(
        &mut self,
        line: usize,
        host: &[u8],
        name: &'a [u8],
        prelude: usize,
    ) -> Result<(), AllocError> {
        let Some(host_index) = self.host_of.get(host) else {
            return Ok(());
        };
        let Some(found) = self.hosts.get_mut(host_index) else {
            return Ok(());
        };
        let oldest = found.values.len().saturating_sub(found.replay as usize);
        let next = oldest.max(found.reset_at);
        let index = self.guests.len();
        found.live.push(index)?;
        let namesake = self.guest_of.insert(name, index)?;
        self.guests.push(Guest {
            host_index,
            namesake,
            joined: line,
            prelude,
            next,
            is_live: true,
        })?;
        Ok(())
    }

    /// Each guest of a host for whom more values are pending than the limit loses the oldest.
    fn make_way(&mut self, host_index: usize, line: usize) -> Result<(), AllocError> {
        let Some(host) = self.hosts.get(host_index) else {
            return Ok(());
        };
        for index in &host.live {
            let Some(guest) = self.guests.get_mut(*index) else {
                return Ok(());
            };
            let pending = host.values.len().saturating_sub(guest.next);
            if pending as u64 > host.limit {
                if let Some(oldest) = host.values.get(guest.next) {
                    self.losses.push(Loss {
                        line,
                        joined: guest.joined,
                        brought: oldest.line,
                    })?;
                }
                guest.next = guest.next.saturating_add(1);
            }
        }
        Ok(())
    }

    /// A flow accepts a value.
    fn accept(&mut self, line: usize, name: &[u8], value: u64) -> Result<(), AllocError> {
        let Some(host_index) = self.host_of.get(name) else {
            return Ok(());
        };
        let Some(host) = self.hosts.get_mut(host_index) else {
            return Ok(());
        };
        host.values.push(Brought { line, value })?;
        self.make_way(host_index, line)
    }

    /// A state is set.
    fn set(&mut self, line: usize, name: &[u8], value: u64) -> Result<(), AllocError> {
        let Some(host_index) = self.host_of.get(name) else {
            return Ok(());
        };
        let Some(host) = self.hosts.get_mut(host_index) else {
            return Ok(());
        };
        if let Some(latest) = host.values.last()
            && latest.value == value
        {
            return Ok(());
        }
        host.values.push(Brought { line, value })?;
        self.make_way(host_index, line)
    }

    /// A replay cache is emptied.
    fn reset(&mut self, name: &[u8]) {
        if let Some(host_index) = self.host_of.get(name)
            && let Some(host) = self.hosts.get_mut(host_index)
        {
            host.reset_at = host.values.len();
        }
    }

    /// A guest is asked for its next value, or ends, and gives the one of its name that joined before it.
    fn ask_one(&mut self, index: usize, request: Request, reply: Reply) -> Option<usize> {
        let guest = self.guests.get_mut(index)?;
        let host = self.hosts.get_mut(guest.host_index)?;
        match (request, reply) {
            (Request::Next, reply) => guest.ask(host.values.len(), reply),
            (Request::Cancel, Reply::Ok) if guest.is_live => {
                guest.is_live = false;
                host.live.retain(|live| *live != index);
            },
            _ => {}
        }
        guest.namesake
    }

    /// The guests of a name are asked for their next value, or end.
    fn ask_guests(&mut self, name: &[u8], request: Request, reply: Reply) {
        let mut asked = self.guest_of.get(name).copied();
        for _ in 0..self.guests.len() {
            let Some(index) = asked else {
                return;
            };
            asked = self.ask_one(index, request, reply);
        }
    }

    /// What a name stands for is asked something.
    fn ask(
        &mut self,
        line: usize,
        name: &[u8],
        request: Request,
        reply: Reply,
    ) -> Result<(), AllocError> {
        match (request, reply) {
            (Request::Try(value), Reply::Accepted) => self.accept(line, name, value),
            (Request::Set(value), Reply::Ok) | (Request::CompareAndSet(_, value), Reply::True) => {
                self.set(line, name, value)
            }
            (Request::Reset, Reply::Ok) => {
                self.reset(name);
                Ok(())
            }
            _ => {
                self.ask_guests(name, request, reply);
                Ok(())
            }
        }
    }

    /// A party joins a host.
    fn join(
        &mut self,
        line: usize,
        host: &[u8],
        name: &'a [u8],
        joiner: Joiner<'a>,
        reply: Reply,
    ) -> Result<(), AllocError> {
        match (joiner, reply) {
            (Joiner::Emission(value), Reply::Accepted) => self.accept(line, host, value),
            (Joiner::Subscription(prelude), Reply::Ok) => {
                self.begin(line, host, name, prelude.count())
            }
            (Joiner::Collector, Reply::Ok) => self.begin(line, host, name, 0),
            _ => Ok(()),
        }
    }

    /// A line with its answer.
    fn read(
        &mut self,
        alloc: Global,
        line: usize,
        answered: &AnsweredLine<'a>,
    ) -> Result<(), AllocError> {
        let reply = Reply::of(answered.answer);
        match answered.command {
            Some(Command::Make { name, making }) => match reply {
                Reply::Ok => self.make(alloc, line, name, making),
                _ => Ok(()),
            },
            Some(Command::Join { host, name, joiner }) => self.join(
                line, host, name, joiner, reply,
            ),
            Some(Command::Ask { name, request }) => self.ask(line, name, request, reply),
            Some(Command::Cold { .. }) | None => Ok(()),
        }
    }
}

/// The values that made way in these lines. Names are hashed so.
pub(crate) fn losses_in(
    alloc: Global,
    hash: NameHash,
    answered_lines: &[AnsweredLine<'_>],
) -> Result<Vec<Loss>, AllocError> {
    let mut ledger = Ledger {
        hosts: Vec::new(alloc),
        host_of: Firsts::new(alloc, hash),
        guests: Vec::new(alloc),
        guest_of: HashMap::with_hasher(alloc, hash),
        losses: Vec::new(alloc),
    };
    for (line, answered) in answered_lines.iter().enumerate() {
        ledger.read(alloc, line, answered)?;
    }
    Ok(ledger.losses)
}
