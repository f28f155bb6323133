//! Sharings, by calls: worked examples, and what no clause says of the flow that they emit into.

use crate::scarce::{Scarce, Source};
use crate::shared_rows::PLAIN;
use crate::shared_stage::Answer::{Cancelled, Gone, Left, Pending, Removed, Subscribed, Value};
use crate::shared_stage::Call::{Cancel, Next, Subscribe};
use crate::shared_stage::{Answer, Call, Listening, caches, withdrawn};
use crate::ticks::Tick;
use crate::tools::assert_none;
use crate::when::When;
use cold_flow::{Cause, Flow, Refusal, Step};
use flow_sharing::{Sharing, share_in};
use futures::test::MockTask;
use shared_core::Config;
use shared_flow::SharedFlow;
use std::alloc::AllocGlobal;
use std::cell::Cell;
use std::process::Abort;
use std::random::RandomSource;
use std::sync::Wait;
use std::test::Fail;
use trial_tools::Differences;

/// What is done with a sharing, with a subscription of its flow or with the flow, and what has to come of it.
enum Line<'a> {
    /// A poll at a moment, with so many subscriptions.
    Poll(u64, u32, Tick),
    Woken,
    Call(Call, Answer),
    Cache(&'a [u64]),
}

/// What is done with a new flow that shares a source, some of whose first starts are refused; what the close of the sharing gives,
/// and what the subscription gives after that.
struct Row<'a> {
    name: &'a str,
    source: Source<'a>,
    refusals: u32,
    config: Config,
    when: When,
    lines: &'a [Line<'a>],
    closed: Answer,
    rest: &'a [Line<'a>],
}

const REPLAYS_ONE: Config = Config { replay: 1, ..PLAIN };

const HOLDS_ONE: Config = Config { extra: 1, ..PLAIN };

const AT_ONCE: When = When::WhileSubscribed {
    stop: 0,
    expire: None,
};

const ROWS: &[Row<'_>] = &[
    Row {
        name: "share_while_subscribed",
        source: Source::Steps(&[Step::Value(1), Step::Pending, Step::Value(2)]),
        refusals: 0,
        config: REPLAYS_ONE,
        when: When::WhileSubscribed {
            stop: 100,
            expire: Some(50),
        },
        lines: &[
            Line::Poll(0, 0, Tick::Off),
            Line::Call(Subscribe, Subscribed),
            Line::Poll(10, 1, Tick::On),
            Line::Call(Next, Value(1)),
            Line::Poll(20, 1, Tick::On),
            Line::Call(Next, Value(2)),
            Line::Call(Cancel, Cancelled),
            Line::Poll(1000, 0, Tick::On),
            Line::Poll(1099, 0, Tick::On),
            Line::Poll(1100, 0, Tick::Off),
            Line::Poll(1149, 0, Tick::Off),
            Line::Cache(&[2]),
            Line::Poll(1150, 0, Tick::Reset),
            Line::Cache(&[]),
            Line::Call(Subscribe, Subscribed),
            Line::Poll(1150, 1, Tick::On),
            Line::Call(Next, Value(1)),
            Line::Call(Cancel, Cancelled),
        ],
        closed: Gone,
        rest: &[],
    },
    // The second emission waits until the subscription received the first, and is not asked for since.
    Row {
        name: "share_never_expires",
        source: Source::Steps(&[Step::Value(1)]),
        refusals: 0,
        config: REPLAYS_ONE,
        when: AT_ONCE,
        lines: &[
            Line::Call(Subscribe, Subscribed),
            Line::Poll(0, 1, Tick::On),
            Line::Call(Cancel, Cancelled),
            Line::Poll(5, 0, Tick::Off),
            Line::Poll(3, 0, Tick::Off),
            Line::Cache(&[1]),
            Line::Call(Subscribe, Subscribed),
            Line::Poll(4, 1, Tick::On),
            Line::Call(Next, Value(1)),
            Line::Call(Next, Value(1)),
            Line::Call(Cancel, Cancelled),
        ],
        closed: Left(1),
        rest: &[],
    },
    Row {
        name: "share_takes_32_events",
        source: Source::Rising(33, None),
        refusals: 0,
        config: REPLAYS_ONE,
        when: When::Eagerly,
        lines: &[
            Line::Poll(0, 0, Tick::On),
            Line::Cache(&[31]),
            Line::Woken,
            Line::Poll(0, 0, Tick::On),
            Line::Cache(&[32]),
        ],
        closed: Gone,
        rest: &[],
    },
    // The end is one of the 32 events.
    Row {
        name: "the end is an event",
        source: Source::Rising(32, Some(9)),
        refusals: 0,
        config: REPLAYS_ONE,
        when: When::Eagerly,
        lines: &[
            Line::Poll(0, 0, Tick::On),
            Line::Poll(0, 0, Tick::Ends(Cause::Failed(9))),
        ],
        closed: Gone,
        rest: &[],
    },
    Row {
        name: "of stated_and_shared, the flow that fails",
        source: Source::Steps(&[Step::Value(1), Step::Fail(7)]),
        refusals: 0,
        config: REPLAYS_ONE,
        when: When::Eagerly,
        lines: &[
            Line::Poll(5, 0, Tick::Ends(Cause::Failed(7))),
            Line::Cache(&[1]),
            Line::Poll(3, 0, Tick::Over(Cause::Failed(7))),
            Line::Cache(&[1]),
        ],
        closed: Gone,
        rest: &[],
    },
    Row {
        name: "of stated_and_shared, the flow whose emission waits until its value is received",
        source: Source::Steps(&[Step::Value(1), Step::Value(2), Step::Value(3)]),
        refusals: 0,
        config: HOLDS_ONE,
        when: When::Lazily,
        lines: &[
            Line::Call(Subscribe, Subscribed),
            Line::Poll(0, 1, Tick::On),
            Line::Call(Next, Value(1)),
            Line::Call(Next, Value(2)),
            Line::Call(Next, Pending),
            Line::Poll(1, 1, Tick::On),
            Line::Call(Next, Value(3)),
            Line::Call(Next, Pending),
            Line::Call(Cancel, Cancelled),
        ],
        closed: Gone,
        rest: &[],
    },
    // The second value waits at two polls, and is asked for at each. It is accepted once the first was received.
    Row {
        name: "sharing_keeps_what_waits",
        source: Source::Steps(&[Step::Value(1), Step::Value(2), Step::Value(3)]),
        refusals: 0,
        config: HOLDS_ONE,
        when: When::Lazily,
        lines: &[
            Line::Call(Subscribe, Subscribed),
            Line::Poll(0, 1, Tick::On),
            Line::Poll(1, 1, Tick::On),
            Line::Call(Next, Value(1)),
            Line::Call(Next, Value(2)),
            Line::Call(Next, Pending),
            Line::Poll(2, 1, Tick::On),
            Line::Call(Next, Value(3)),
            Line::Call(Cancel, Cancelled),
        ],
        closed: Gone,
        rest: &[],
    },
    Row {
        name: "a waiting value is never accepted once it was withdrawn",
        source: Source::Steps(&[Step::Value(1), Step::Value(2)]),
        refusals: 0,
        config: HOLDS_ONE,
        when: When::Lazily,
        lines: &[
            Line::Call(Subscribe, Subscribed),
            Line::Poll(0, 1, Tick::On),
        ],
        closed: Removed,
        rest: &[
            Line::Call(Next, Value(1)),
            Line::Call(Next, Pending),
            Line::Call(Cancel, Cancelled),
        ],
    },
    // The value was accepted when the subscription ended, and nobody asked for the emission since.
    Row {
        name: "a stop withdraws the emission in flight",
        source: Source::Steps(&[Step::Value(1), Step::Value(2)]),
        refusals: 0,
        config: HOLDS_ONE,
        when: AT_ONCE,
        lines: &[
            Line::Call(Subscribe, Subscribed),
            Line::Poll(0, 1, Tick::On),
            Line::Call(Cancel, Cancelled),
            Line::Poll(1, 0, Tick::Off),
        ],
        closed: Gone,
        rest: &[],
    },
    // The flow has one number left.
    Row {
        name: "a refused emission ends sharing",
        source: Source::Steps(&[Step::Value(1), Step::Value(2)]),
        refusals: 0,
        config: Config {
            first: (1 << 62) - 1,
            ..REPLAYS_ONE
        },
        when: When::Eagerly,
        lines: &[
            Line::Poll(0, 0, Tick::Ends(Cause::Refused(Refusal::Spent))),
            Line::Cache(&[1]),
            Line::Poll(1, 0, Tick::Over(Cause::Refused(Refusal::Spent))),
        ],
        closed: Gone,
        rest: &[],
    },
    // The latest moment stays too, so that a later poll, at an earlier one, gives what the first try would have given.
    Row {
        name: "a refused start is made again",
        source: Source::Steps(&[Step::Value(1), Step::Value(2)]),
        refusals: 2,
        config: REPLAYS_ONE,
        when: When::Eagerly,
        lines: &[
            Line::Poll(100, 0, Tick::Refused),
            Line::Poll(100, 0, Tick::Refused),
            Line::Cache(&[]),
            Line::Poll(5, 0, Tick::On),
            Line::Cache(&[2]),
        ],
        closed: Gone,
        rest: &[],
    },
];

/// A flow, a subscription of it, and the latest moment of a poll of its sharing.
struct Stage {
    flow: SharedFlow<u64>,
    listening: Listening,
    task: MockTask,
    latest: u64,
}

impl Stage {
    /// A call of the subscription or a look at the cache. Nothing else is such a line.
    fn is_answered<R: Wait + AllocGlobal>(&mut self, rt: &R, line: &Line<'_>) -> bool {
        match line {
            Line::Call(call, answer) => {
                self.listening.perform(rt, &mut self.flow, *call) == *answer
            }
            Line::Cache(values) => caches(rt, &mut self.flow, values),
            _ => false,
        }
    }

    fn is_shared<R: Wait + AllocGlobal, F: Flow<Item = u64, Fault = u64>>(
        &mut self,
        rt: &R,
        sharing: &mut Sharing<u64, F>,
        line: &Line<'_>,
    ) -> bool {
        match line {
            Line::Poll(now, count, tick) => {
                let answer = self.task.enter(|cx| sharing.poll(rt, *now, cx));
                if answer.is_ok() {
                    self.latest = self.latest.max(*now);
                }
                tick.fits(self.latest, *count, answer, sharing.fault())
            }
            Line::Woken => self.task.is_woken(),
            _ => self.is_answered(rt, line),
        }
    }

    /// The number of the first line that was answered otherwise, or of all lines where none was.
    fn shared<R: Wait + AllocGlobal, F: Flow<Item = u64, Fault = u64>>(
        &mut self,
        rt: &R,
        sharing: &mut Sharing<u64, F>,
        lines: &[Line<'_>],
    ) -> usize {
        for (number, line) in lines.iter().enumerate() {
            if !self.is_shared(rt, sharing, line) {
                return number;
            }
        }
        lines.len()
    }

    /// Ends the subscription, where there is one.
    fn leave(self, rt: &impl Wait) {
        let Stage {
            flow: _,
            listening,
            task: _,
            latest: _,
        } = self;
        listening.leave(rt);
    }

    /// The same once the sharing is closed.
    fn answered<R: Wait + AllocGlobal>(&mut self, rt: &R, lines: &[Line<'_>]) -> usize {
        for (number, line) in lines.iter().enumerate() {
            if !self.is_answered(rt, line) {
                return number;
            }
        }
        lines.len()
    }
}

fn compare_row<R, F: Flow<Item = u64, Fault = u64>>(
    rt: &R,
    differences: &mut Differences,
    upstream: F,
    row: &Row<'_>,
) -> Result<(), Fail>
where
    R: Wait + Abort + RandomSource + AllocGlobal,
{
    let mut stage = Stage {
        flow: SharedFlow::new(rt.alloc(), row.config).expect(rt, "a flow"),
        listening: Listening::new(rt),
        task: MockTask::new(rt).expect(rt, "a task"),
        latest: 0,
    };
    let made = share_in(&mut stage.flow, upstream, row.when.started());
    let mut sharing = made.expect(rt, "a sharing");
    let lines = stage.shared(rt, &mut sharing, row.lines);
    let closed = withdrawn(sharing.close(rt), 0);
    let rest = stage.answered(rt, row.rest);
    stage.leave(rt);
    differences.compare(row.name, lines, row.lines.len())?;
    differences.compare(row.name, closed, row.closed)?;
    differences.compare(row.name, rest, row.rest.len())
}

#[test]
fn flows_are_shared(rt: HostRuntime) -> Result<(), Fail> {
    let mut all = Differences::none(rt.alloc());
    for row in ROWS {
        let flow = row.source.flow(rt.alloc())?;
        let refusals = Cell::new(row.refusals);
        let scarce = Scarce::of(flow, &refusals);
        compare_row(&rt, &mut all, scarce, row)?;
    }
    assert_none(&rt, &all);
    Ok(())
}
