//! Worked examples of a state that is set from a cold flow.

use crate::scarce::{Scarce, Source};
use crate::ticks::Tick;
use crate::tools::assert_none;
use crate::when::When;
use cold_flow::{Cause, Flow, Step};
use flow_sharing::{StateSharing, state_in};
use futures::test::MockTask;
use state_flow::{Collector, StateFlow, StateSeat};
use std::alloc::AllocGlobal;
use std::cell::Cell;
use std::process::Abort;
use std::random::RandomSource;
use std::test::Fail;
use trial_tools::Differences;

/// What is done with a sharing, its state or a collector, and what has to come of it.
enum Line {
    /// A poll at a moment, with so many collectors.
    Poll(u64, u32, Tick),
    Woken,
    Value(u64),
    Set(u64),
    Collect,
    Ask(Option<u64>),
    Cancel,
}

/// What is done with a new sharing of a source, some of whose first starts are refused. Its state has the initial value from then
/// on.
struct Row<'a> {
    name: &'a str,
    source: Source<'a>,
    refusals: u32,
    initial: u64,
    when: When,
    lines: &'a [Line],
}

const ROWS: &[Row<'_>] = &[
    Row {
        name: "stated_and_shared",
        source: Source::Steps(&[Step::Value(1)]),
        refusals: 0,
        initial: 7,
        when: When::WhileSubscribed {
            stop: 0,
            expire: Some(0),
        },
        lines: &[
            Line::Collect,
            Line::Ask(Some(7)),
            Line::Poll(5, 1, Tick::On),
            Line::Value(1),
            Line::Cancel,
            Line::Poll(6, 0, Tick::Reset),
            Line::Value(7),
        ],
    },
    Row {
        name: "32 events in a poll",
        source: Source::Rising(33, None),
        refusals: 0,
        initial: 0,
        when: When::Eagerly,
        lines: &[
            Line::Poll(0, 0, Tick::On),
            Line::Value(31),
            Line::Woken,
            Line::Poll(0, 0, Tick::On),
            Line::Value(32),
        ],
    },
    // The end after 31 values is the last event of the first poll.
    Row {
        name: "a failure after 31 values",
        source: Source::Rising(31, Some(6)),
        refusals: 0,
        initial: 99,
        when: When::Eagerly,
        lines: &[
            Line::Poll(4, 0, Tick::Ends(Cause::Failed(6))),
            Line::Poll(3, 0, Tick::Over(Cause::Failed(6))),
            Line::Poll(9, 0, Tick::Over(Cause::Failed(6))),
            Line::Value(30),
        ],
    },
    Row {
        name: "a failure after 32 values",
        source: Source::Rising(32, Some(6)),
        refusals: 0,
        initial: 99,
        when: When::Eagerly,
        lines: &[
            Line::Poll(4, 0, Tick::On),
            Line::Poll(3, 0, Tick::Ends(Cause::Failed(6))),
            Line::Poll(9, 0, Tick::Over(Cause::Failed(6))),
            Line::Value(31),
        ],
    },
    Row {
        name: "a stop cancels and a start begins anew",
        source: Source::Steps(&[Step::Value(1), Step::Pending, Step::Value(2)]),
        refusals: 0,
        initial: 0,
        when: When::WhileSubscribed {
            stop: 0,
            expire: None,
        },
        lines: &[
            Line::Collect,
            Line::Poll(1, 1, Tick::On),
            Line::Value(1),
            Line::Cancel,
            Line::Poll(2, 0, Tick::Off),
            Line::Value(1),
            Line::Set(5),
            Line::Collect,
            Line::Poll(3, 1, Tick::On),
            Line::Value(1),
            Line::Poll(4, 1, Tick::On),
            Line::Value(2),
            Line::Cancel,
        ],
    },
    // The latest moment stays too.
    Row {
        name: "a refused start changes nothing",
        source: Source::Steps(&[]),
        refusals: u32::MAX,
        initial: 8,
        when: When::Lazily,
        lines: &[
            Line::Collect,
            Line::Poll(100, 1, Tick::Refused),
            Line::Poll(100, 1, Tick::Refused),
            Line::Cancel,
            Line::Poll(5, 0, Tick::Off),
            Line::Value(8),
        ],
    },
    // So that a later poll, at an earlier moment, gives what the first try would have given.
    Row {
        name: "a refused start is made again",
        source: Source::Steps(&[Step::Value(1), Step::Value(2)]),
        refusals: 2,
        initial: 8,
        when: When::Eagerly,
        lines: &[
            Line::Poll(100, 0, Tick::Refused),
            Line::Poll(100, 0, Tick::Refused),
            Line::Value(8),
            Line::Poll(5, 0, Tick::On),
            Line::Value(2),
        ],
    },
];

/// Two seats of a state, of which one may collect, and the latest moment of a poll of its sharing.
struct Stage {
    seat: StateSeat<u64>,
    idle: Option<StateSeat<u64>>,
    collector: Option<Collector<u64>>,
    task: MockTask,
    latest: u64,
}

impl Stage {
    fn collect(&mut self) -> bool {
        let Some(seat) = self.idle.take() else {
            return false;
        };
        match self.collector.replace(seat.collect()) {
            None => true,
            Some(before) => {
                drop(before.cancel());
                false
            }
        }
    }

    fn cancel(&mut self) -> bool {
        let Some(collector) = self.collector.take() else {
            return false;
        };
        self.idle = Some(collector.cancel());
        true
    }

    /// Is the line of the state or the collector so?
    fn is_so(&mut self, line: &Line) -> bool {
        match line {
            Line::Value(value) => self.seat.value() == *value,
            Line::Set(value) => {
                self.seat.set(*value);
                true
            }
            Line::Collect => self.collect(),
            Line::Ask(value) => match &mut self.collector {
                Some(collector) => collector.try_next() == *value,
                None => false,
            },
            Line::Cancel => self.cancel(),
            Line::Woken => self.task.is_woken(),
            Line::Poll(..) => false,
        }
    }

    fn is_polled<F: Flow<Item = u64, Fault = u64>>(
        &mut self,
        sharing: &mut StateSharing<u64, F>,
        now: u64,
        count: u32,
        tick: &Tick,
    ) -> bool {
        let answer = self.task.enter(|cx| sharing.poll(now, cx));
        if answer.is_ok() {
            self.latest = self.latest.max(now);
        }
        tick.fits(self.latest, count, answer, sharing.fault())
    }

    /// The number of the first line that was answered otherwise, or of all lines where none was.
    fn answered<F: Flow<Item = u64, Fault = u64>>(
        &mut self,
        sharing: &mut StateSharing<u64, F>,
        lines: &[Line],
    ) -> usize {
        for (number, line) in lines.iter().enumerate() {
            let same = match line {
                Line::Poll(now, count, tick) => self.is_polled(sharing, *now, *count, tick),
                other => self.is_so(other),
            };
            if !same {
                return number;
            }
        }
        lines.len()
    }

    /// Ends the collector, where there is one.
    fn leave(self) {
        let Stage {
            seat: _,
            idle: _,
            collector,
            task: _,
            latest: _,
        } = self;
        if let Some(collector) = collector {
            drop(collector.cancel());
        }
    }
}

fn compare_row<R: Abort + RandomSource + AllocGlobal, F: Flow<Item = u64, Fault = u64>>(
    rt: &R,
    differences: &mut Differences,
    upstream: F,
    row: &Row<'_>,
) -> Result<(), Fail> {
    let mut seat = StateFlow::new(rt.alloc(), 3u64, 3).expect(rt, "a state");
    let shared = seat.take_seat(0).expect(rt, "a seat for the sharing");
    let mut stage = Stage {
        idle: Some(seat.take_seat(0).expect(rt, "a seat for the collector")),
        seat,
        collector: None,
        task: MockTask::new(rt).expect(rt, "a task"),
        latest: 0,
    };
    let mut sharing = state_in(shared, row.initial, upstream, row.when.started());
    let initial = stage.seat.value();
    let lines = stage.answered(&mut sharing, row.lines);
    drop(sharing.close());
    stage.leave();
    differences.compare(row.name, initial, row.initial)?;
    differences.compare(row.name, lines, row.lines.len())
}

#[test]
fn states_are_set(rt: HostRuntime) -> Result<(), Fail> {
    let mut all = Differences::none(rt.alloc());
    for row in ROWS {
        let flow = row.source.flow(rt.alloc())?;
        let refusals = Cell::new(row.refusals);
        let scarce = Scarce::of(flow, &refusals);
        compare_row(&rt, &mut all, scarce, row)?;
    }
    assert_none(&rt, &all);
    Ok(())
}
