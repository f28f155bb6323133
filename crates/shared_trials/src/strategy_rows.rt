//! Worked examples of sharing strategies: what each poll commands.
use crate::tools::assert_none;
use crate::when::When;
use flow_sharing::polls::commands_of;
use flow_sharing::{Command, Entry, Plan, Started};
use std::test::Fail;
use trial_tools::Differences;

const START: Option<Command> = Some(Command::Start);

const STOP: Option<Command> = Some(Command::Stop);

const RESET: Option<Command> = Some(Command::StopAndReset);

/// Polls of a new strategy, each a moment and a count, what they command, and whether it is on after them. The latest moment
/// is the greatest one.
struct Row<'a> {
    name: &'a str,
    when: When,
    polls: &'a [(u64, u32)],
    commands: &'a [Option<Command>],
    is_on: bool,
    latest: u64,
}

const ROWS: &[Row<'_>] = &[
    Row {
        name: "while subscribed",
        when: When::WhileSubscribed {
            stop: 100,
            expire: Some(50),
        },
        polls: &[
            (0, 0),
            (10, 1),
            (20, 1),
            (1000, 0),
            (1099, 0),
            (1100, 0),
            (1149, 0),
            (1150, 0),
            (1151, 0),
            (1151, 1),
        ],
        commands: &[
            None, START, None, None, None, STOP, None, RESET, None, START,
        ],
        is_on: true,
        latest: 1151,
    },
    Row {
        name: "a moment that goes back",
        when: When::WhileSubscribed {
            stop: 10,
            expire: Some(5),
        },
        polls: &[
            (50, 1),
            (40, 0),
            (59, 0),
            (60, 0),
            (64, 0),
            (65, 0),
            (99, 0),
        ],
        commands: &[START, None, None, STOP, None, RESET, None],
        is_on: false,
        latest: 99,
    },
    Row {
        name: "stop and reset at once",
        when: When::WhileSubscribed {
            stop: 0,
            expire: Some(0),
        },
        polls: &[(5, 0), (5, 1), (6, 0), (7, 0), (7, 2), (7, 0)],
        commands: &[None, START, RESET, None, START, RESET],
        is_on: false,
        latest: 7,
    },
    Row {
        name: "eagerly",
        when: When::Eagerly,
        polls: &[(0, 0), (1, 3), (u64::MAX, 0)],
        commands: &[START, None, None],
        is_on: true,
        latest: u64::MAX,
    },
    Row {
        name: "lazily",
        when: When::Lazily,
        polls: &[(0, 0), (1, 3), (u64::MAX, 0)],
        commands: &[None, START, None],
        is_on: true,
        latest: u64::MAX,
    },
    Row {
        name: "a stop after the end of the range",
        when: When::WhileSubscribed {
            stop: u64::MAX,
            expire: Some(u64::MAX),
        },
        polls: &[(1, 1), (1, 0), (u64::MAX - 1, 0), (u64::MAX, 0)],
        commands: &[START, None, None, None],
        is_on: true,
        latest: u64::MAX,
    },
    Row {
        name: "a stop and a reset at the end of the range",
        when: When::WhileSubscribed {
            stop: u64::MAX - 2,
            expire: Some(1),
        },
        polls: &[(1, 1), (1, 0), (u64::MAX - 1, 0), (u64::MAX, 0)],
        commands: &[START, None, STOP, RESET],
        is_on: false,
        latest: u64::MAX,
    },
];

#[test]
fn commands(rt: HostRuntime) -> Result<(), Fail> {
    let mut differences = Differences::none(rt.alloc());
    for row in ROWS {
        let mut commands = vec![in rt.alloc(); None; row.polls.len()]?;
        let strategy = commands_of(row.when.started(), row.polls, &mut commands);
        differences.compare(row.name, commands.as_slice(), row.commands)?;
        differences.compare(row.name, strategy.on(), row.is_on)?;
        differences.compare(row.name, strategy.latest(), row.latest)?;
    }
    assert_none(&rt, &differences);
    Ok(())
}

/// Entries of a plan, each a moment, the least and the greatest count, and a command; polls of its strategy, each a moment and a
/// count; and what they command.
struct PlanRow<'a> {
    name: &'a str,
    entries: &'a [(u64, u32, u32, Command)],
    polls: &'a [(u64, u32)],
    commands: &'a [Option<Command>],
}

const PLANS: &[PlanRow<'_>] = &[
    PlanRow {
        name: "plan_of_commands",
        entries: &[
            (10, 1, 8, Command::Start),
            (20, 0, 0, Command::Stop),
            (30, 0, 8, Command::StopAndReset),
            (30, 0, 8, Command::Start),
        ],
        polls: &[(5, 1), (10, 1), (25, 1), (26, 0), (29, 0), (30, 0), (30, 0)],
        commands: &[None, START, None, STOP, None, RESET, START],
    },
    PlanRow {
        name: "plan_repeats",
        entries: &[(0, 0, 8, Command::Start), (0, 0, 8, Command::Start)],
        polls: &[(0, 0), (0, 0)],
        commands: &[START, None],
    },
    PlanRow {
        name: "plan_for_state",
        entries: &[(0, 0, 9, Command::Start), (0, 0, 9, Command::StopAndReset)],
        polls: &[(0, 0), (0, 0)],
        commands: &[START, RESET],
    },
    PlanRow {
        name: "entries are taken in order, and a moment that goes back is the latest",
        entries: &[(20, 0, 8, Command::Start), (10, 0, 8, Command::Stop)],
        polls: &[(10, 0), (20, 0), (5, 0)],
        commands: &[None, START, STOP],
    },
    PlanRow {
        name: "a reset where sharing is off, and again after another command",
        entries: &[
            (0, 0, 8, Command::StopAndReset),
            (0, 0, 8, Command::Stop),
            (0, 0, 8, Command::StopAndReset),
            (0, 0, 8, Command::StopAndReset),
        ],
        polls: &[(0, 0), (0, 0), (0, 0), (0, 0)],
        commands: &[RESET, None, RESET, None],
    },
    PlanRow {
        name: "no entries",
        entries: &[],
        polls: &[(0, 0), (5, 3)],
        commands: &[None, None],
    },
];

fn entry_of(entry: (u64, u32, u32, Command)) -> Entry {
    Entry {
        at: entry.0,
        low: entry.1,
        high: entry.2,
        command: entry.3,
    }
}

#[test]
fn plans(rt: HostRuntime) -> Result<(), Fail> {
    let mut differences = Differences::none(rt.alloc());
    for row in PLANS {
        let mut entries = Vec::new(rt.alloc());
        for entry in row.entries {
            entries.push(entry_of(*entry))?;
        }
        let mut commands = vec![in rt.alloc(); None; row.polls.len()]?;
        let plan = Plan::of(&entries)?;
        commands_of(Started::Custom(plan), row.polls, &mut commands);
        differences.compare(row.name, commands.as_slice(), row.commands)?;
    }
    assert_none(&rt, &differences);
    Ok(())
}
