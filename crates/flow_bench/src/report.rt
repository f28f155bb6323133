//! What measurements write.

use crate::fault::Fault;
use crate::measured::Measured;
use bench_figures::{Figure, Portion, Size, Subject, Unit};
use std::io;

/// What a figure is of.
#[derive(Clone, Copy)]
pub(crate) struct Line {
    pub(crate) subject: Subject,
    /// The scenario in full, as `receipts-n4`.
    pub(crate) scenario: &'static str,
    /// What was counted, as `receipt`.
    pub(crate) name: &'static str,
    pub(crate) unit: Unit,
}

/// What measurements of one size write. After a fault they write nothing more.
#[derive(Clone, Copy)]
pub(crate) struct Report {
    size: Size,
    /// The first one.
    fault: Option<Fault>,
}

impl Report {
    /// Of measurements of this size.
    pub(crate) fn new(size: Size) -> Report {
        Report { size, fault: None }
    }

    /// The first fault, where there was one.
    pub(crate) fn end(&self) -> Result<(), Fault> {
        match self.fault {
            None => Ok(()),
            Some(fault) => Err(fault),
        }
    }

    /// So many operations of a measurement that has `full` at its full size.
    pub(crate) fn count(&self, full: u64) -> u64 {
        self.size.of(full)
    }

    /// What was given, unless it is a fault, which is noted where it is the first.
    pub(crate) fn noted<T, E: Into<Fault> + Drop>(&mut self, given: Result<T, E>) -> Option<T> {
        match given {
            Ok(given) => Some(given),
            Err(fault) => {
                if self.fault.is_none() {
                    self.fault = Some(fault.into());
                }
                None
            }
        }
    }

    /// Writes what was measured by so many operations. Its total is to be this one.
    pub(crate) fn figure(
        &mut self,
        rt: &impl Print,
        line: Line,
        operations: u64,
        measured: Measured,
        wanted: u64,
    ) {
        if self.fault.is_none() {
            let written = write_figure(rt, line, operations, measured, wanted, self.size);
            self.noted(written);
        }
    }

    /// Writes a share, whose total is to be this one.
    pub(crate) fn share(&mut self, rt: &impl Print, share: Portion, wanted: u64) {
        if self.fault.is_none() {
            let written = write_share(rt, share, wanted, self.size);
            self.noted(written);
        }
    }
}

/// Writes the line of what was measured, or at the small size what never varies.
fn write_figure(
    rt: &impl Print,
    line: Line,
    operations: u64,
    measured: Measured,
    wanted: u64,
    size: Size,
) -> Result<(), Fault> {
    let Line {
        subject,
        scenario,
        name,
        unit,
    } = line;
    let figure = Figure {
        subject,
        scenario,
        name,
        unit,
        operations,
        nanoseconds: measured.nanoseconds.ok_or(Fault::Host)?,
        total: measured.total,
    };
    let figure = figure.checked(wanted)?;
    match size {
        Size::Small => write_total(rt, subject, scenario, name, figure.total)?,
        Size::Full => println!(rt; "{figure}")?,
    }
    Ok(())
}

/// The same of a share.
fn write_share(rt: &impl Print, share: Portion, wanted: u64, size: Size) -> Result<(), Fault> {
    let share = share.checked(wanted)?;
    match size {
        Size::Small => write_total(rt, share.subject, share.scenario, share.name, share.total)?,
        Size::Full => println!(rt; "{share}")?,
    }
    Ok(())
}

/// Writes what never varies: the part, the names and the total.
fn write_total(
    rt: &impl Print,
    subject: Subject,
    scenario: &str,
    name: &str,
    total: u64,
) -> io::Result<()> {
    println!(rt; "hillgauze-{subject}\t{scenario}\t{name}\ttotal {total}")
}
