//! What a measurement gave, and how it is written.

ghost use Rattle.std.specs.Prelude.{◌≡◌, ◌↔◌, IsOk, IfOk, IfErr, Some};
ghost use Rattle.bench_figures.specs.Lines.{subject_name, unit_name, line_of};

use crate::wrong_total::WrongTotal;
use std::fmt;

/// Which part of the library was measured. Its `Display` is the name that a line has.
#[derive(Clone, Copy, Debug, PartialEq, Eq)]
pub enum Subject {
    /// A shared flow on one thread.
    Core,
    /// A shared flow for threads.
    Shared,
    /// A sequencer and its readers, without a lock.
    Lane,
    /// A shared flow of values of any type.
    Values,
    /// A state flow.
    State,
    /// A buffer between two threads.
    Buffer,
    /// Cold flows.
    Cold,
    /// Scripts.
    Runner,
}

impl fmt::Display for Subject {
    ghost output = { λ subject. Some (subject_name subject) };

    fn fmt<W: fmt::Write>(&self, f: &mut fmt::Formatter<W>) -> fmt::Result {
        match self {
            Subject::Core => write!(f, "core"),
            Subject::Shared => write!(f, "shared"),
            Subject::Lane => write!(f, "lane"),
            Subject::Values => write!(f, "values"),
            Subject::State => write!(f, "state"),
            Subject::Buffer => write!(f, "buffer"),
            Subject::Cold => write!(f, "cold"),
            Subject::Runner => write!(f, "runner"),
        }
    }
}

/// What a figure is counted in. Its `Display` is what a line has.
#[derive(Clone, Copy, Debug, PartialEq, Eq)]
pub enum Unit {
    /// Nanoseconds for an operation.
    Nanoseconds,
    /// Millions of operations in a second.
    MillionsASecond,
}

impl fmt::Display for Unit {
    ghost output = { λ unit. Some (unit_name unit) };

    fn fmt<W: fmt::Write>(&self, f: &mut fmt::Formatter<W>) -> fmt::Result {
        match self {
            Unit::Nanoseconds => write!(f, "ns"),
            Unit::MillionsASecond => write!(f, "M/s"),
        }
    }
}

/// One figure of a measurement. Its `Display` is a line of columns, parted by tabs: `raw`, the part, the scenario, the
/// figure, the unit, the operations, and the nanoseconds that all of them took.
#[derive(Clone, Copy, Debug)]
pub struct Figure {
    pub subject: Subject,
    /// The scenario in full, as `receipts-n4`.
    pub scenario: &'static str,
    /// What was counted, as `receipt`.
    pub name: &'static str,
    pub unit: Unit,
    pub operations: u64,
    pub nanoseconds: u64,
    /// What arrived, by its sum or its last value.
    pub total: u64,
}

impl fmt::Display for Figure {
    ghost output = { λ figure. Some (line_of figure) };

    fn fmt<W: fmt::Write>(&self, f: &mut fmt::Formatter<W>) -> fmt::Result {
        let Figure {
            subject,
            scenario,
            name,
            unit,
            operations,
            nanoseconds,
            ..
        } = *self;
        write!(
            f,
            "raw\thillgauze-{subject}\t{scenario}\t{name}\t{unit}\t{operations}\t{nanoseconds}"
        )
    }
}

impl Figure {
    /// Refused where what arrived isn't what was to come, with the scenario's name.
    pub fn checked(self, wanted: u64) -> Result<Figure, WrongTotal>
        ensures right { IsOk result ↔ (self.total ≡ wanted) }
        ensures same { IfOk result (λ figure. figure ≡ self) }
        ensures told { IfErr result (λ wrong. wrong.scenario ≡ self.scenario) }
    {
        if self.total == wanted {
            Ok(self)
        } else {
            Err(WrongTotal {
                scenario: self.scenario,
            })
        }
    }
}
