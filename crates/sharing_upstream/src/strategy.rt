//! A strategy of sharing, poll by poll: by the moments and the counts that polls were handed, whether sharing is on, and what each
//! poll commands.

ghost use Rattle.std.specs.Prelude.{◌≡◌, ◌==◌, ◌<◌, ◌&&◌, ◌||◌, not, [], slice_get, IfSome};
ghost use Rattle.sharing_upstream.specs.Strategies.{History, latest, is_on, expires, command_by, starts, resets, entries_in, takes};
ghost use Rattle.sharing_upstream.specs.Keeping.{counted, is_past, is_expired, marked, on_by, advanced};
ghost use Rattle.sharing_upstream.specs.Shown.{started_by, Shows, keeping};
ghost use Rattle.sharing_upstream.specs.Polls.{ShowsMore, Commands};

use flow_terms::{Command, Entry, Started};

/// Says at each poll of a sharing what is to be done: Kotlin's flow of commands, `SharingStarted.command`.
#[derive(Clone, Copy)]
pub struct Strategy {
    // Stays as it was handed in. A plan is large, so no poll copies it.
    started: Started,
    // What is kept of the polls.
    pub(crate) kept: Kept,
}

impl Strategy {
    /// A strategy that has seen no poll.
    pub fn new(started: Started) -> Strategy
        ensures started { started_by result ≡ started }
        ensures shows { Shows result [] }
    {
        let kept = Kept {
            latest: 0,
            audience: Audience::Awaited,
            progress: Progress {
                taken: 0,
                last: None,
            },
            on: false,
        };
        Strategy { started, kept }
    }

    // What is kept after one more poll, and what that commands.
    pub(crate) fn after(&self, now: u64, count: u32) -> (Kept, Option<Command>)
        ensures commands { Commands self.now now count result.1 }
        ensures shows { ShowsMore self.now now count (keeping result.0 self.now) }
    {
        let before = self.kept;
        let latest = before.latest.max(now);
        let counted = before.audience.counted(count, latest);
        let (audience, due) = counted.expired(&self.started, latest);
        let progress = before.progress.after(&self.started, latest, count);
        let reset = progress.is_reset(before.progress, due);
        let on = audience.is_on(&self.started, progress, latest);
        let kept = Kept {
            latest,
            audience,
            progress,
            on,
        };
        (kept, commanded(before.on, on, reset))
    }

    /// One poll, at the moment `now`, which found `count` live subscriptions.
    pub fn step(&mut self, now: u64, count: u32) -> Option<Command>
        ensures started { started_by self.new ≡ started_by self.old }
        ensures commands { Commands self.old now count result }
        ensures shows { ShowsMore self.old now count self.new }
    {
        let (kept, command) = self.after(now, count);
        self.kept = kept;
        command
    }

    /// Whether sharing is on since the latest poll; before the first one it is off.
    pub fn on(&self) -> bool
        ensures { (history : History) → Shows self.now history → result ≡ is_on (started_by self.now) history }
    {
        self.kept.on
    }

    /// The moment of the latest poll, in milliseconds: the greatest one so far, 0 before the first. Kotlin has no such call.
    pub fn latest(&self) -> u64
        ensures { (history : History) → Shows self.now history → result ≡ latest history }
    {
        self.kept.latest
    }
}

// What a strategy keeps of its polls.
#[derive(Clone, Copy)]
pub(crate) struct Kept {
    // The moment of the latest poll: the greatest one so far.
    pub(crate) latest: u64,
    // What is kept of the counts.
    pub(crate) audience: Audience,
    // How far a plan is done.
    pub(crate) progress: Progress,
    // Whether sharing is on since the latest poll.
    pub(crate) on: bool,
}

// What a strategy keeps of the counts that its polls found.
#[derive(Clone, Copy, PartialEq, Eq)]
pub(crate) enum Audience {
    // No poll has found a subscription yet.
    Awaited,
    // The latest poll found a subscription.
    Present,
    // Polls found subscriptions before, and the latest ones found none.
    Gone {
        // The moment of the first of the latest ones.
        since: u64,
        // Whether a reset was due at one of them.
        expired: bool,
    },
}

impl Audience {
    // After one more poll, at the moment `latest`, which found so many subscriptions.
    fn counted(self, count: u32, latest: u64) -> Audience
        ensures { result ≡ counted self (count == 0) latest }
    {
        if count > 0 {
            return Audience::Present;
        }
        match self {
            Audience::Present => Audience::Gone {
                since: latest,
                expired: false,
            },
            Audience::Awaited => Audience::Awaited,
            Audience::Gone { since, expired } => Audience::Gone { since, expired },
        }
    }

    // Whether a reset falls at the moment `latest`, and what is kept of that.
    fn expired(self, started: &Started, latest: u64) -> (Audience, bool)
        ensures kept { result.0 ≡ marked (is_past started.now self latest) self }
        ensures falls { result.1 ≡ (is_past started.now self latest && not (is_expired self)) }
    {
        match self {
            Audience::Gone { since, expired } if expires(started, latest.saturating_sub(since)) => {
                (
                    Audience::Gone {
                        since,
                        expired: true,
                    },
                    !expired,
                )
            }
            other => (other, false),
        }
    }

    // Whether sharing is on at the moment `latest`, where a plan is done so far.
    fn is_on(self, started: &Started, progress: Progress, latest: u64) -> bool
        ensures { result ≡ on_by started.now self progress latest }
    {
        match *started {
            Started::Eagerly => true,
            Started::Lazily => self != Audience::Awaited,
            Started::WhileSubscribed { stop, .. } => match self {
                Audience::Awaited => false,
                Audience::Present => true,
                Audience::Gone { since, .. } => latest.saturating_sub(since) < stop,
            },
            Started::Custom(_) => starts(progress.last),
        }
    }
}

// Whether the replay cache is reset once there has been no subscription for so long.
fn expires(started: &Started, lasted: u64) -> bool
    ensures { result ≡ expires started.now lasted }
{
    match *started {
        Started::WhileSubscribed {
            stop,
            expire: Some(expire),
        } => stop <= lasted && expire <= lasted - stop,
        _ => false,
    }
}

// How far a plan is done.
#[derive(Clone, Copy)]
pub(crate) struct Progress {
    // How many of its entries were taken.
    pub(crate) taken: usize,
    // What the last of them commanded.
    pub(crate) last: Option<Command>,
}

impl Progress {
    // After one more poll, at the moment `latest`, which found so many subscriptions.
    fn after(self, started: &Started, latest: u64, count: u32) -> Progress
        ensures { result ≡ advanced (slice_get (entries_in started.now) self.taken) latest count self }
    {
        match next_of(started, self.taken) {
            Some(entry) if takes(entry, latest, count) => Progress {
                taken: self.taken + 1,
                last: Some(entry.command),
            },
            _ => self,
        }
    }

    // Whether a reset falls at a poll that found the plan done so far: one that is due anyway, or one that is commanded here, and wasn't
    // by the command before.
    fn is_reset(self, before: Progress, due: bool) -> bool
        ensures { result ≡ (due || (resets self.last && not (resets before.last))) }
    {
        let was_cleared = resets(before.last);
        let is_cleared = resets(self.last);
        due || (is_cleared && !was_cleared)
    }
}

// The entry that is taken after so many others, where the start is a plan.
fn next_of(started: &Started, taken: usize) -> Option<Entry>
    ensures next { result ≡ slice_get (entries_in started.now) taken }
    ensures few { IfSome result (λ _. taken < 32) }
{
    match started {
        Started::Custom(plan) => plan.entry(taken),
        Started::Eagerly | Started::Lazily | Started::WhileSubscribed { .. } => None,
    }
}

// Whether a poll at the moment `latest`, which found so many subscriptions, takes this entry.
fn takes(entry: Entry, latest: u64, count: u32) -> bool
    ensures { result ≡ takes entry latest count }
{
    entry.at <= latest && entry.low <= count && count <= entry.high
}

// What a poll commands that found sharing on or off, leaves it on or off, and at which a reset falls or not.
fn commanded(was_on: bool, on: bool, reset: bool) -> Option<Command>
    ensures { result ≡ command_by was_on on reset }
{
    if on && !was_on {
        Some(Command::Start)
    } else if reset {
        Some(Command::StopAndReset)
    } else if was_on && !on {
        Some(Command::Stop)
    } else {
        None
    }
}

// Whether it is the command by which sharing is on.
fn starts(command: Option<Command>) -> bool
    ensures { result ≡ starts command }
{
    matches!(command, Some(Command::Start))
}

// Whether it is the command by which what is shared is reset.
pub(crate) fn resets(command: Option<Command>) -> bool
    ensures { result ≡ resets command }
{
    matches!(command, Some(Command::StopAndReset))
}
