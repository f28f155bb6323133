//! A share of what was sent, and how it is written.

ghost use Rattle.std.specs.Prelude.{◌≡◌, ◌↔◌, IsOk, IfOk, IfErr, Some};
ghost use Rattle.bench_figures.specs.Lines.{portion_line_of};

use crate::figure::Subject;
use crate::wrong_total::WrongTotal;
use std::fmt;

/// Which share of what was sent came. Its `Display` is a line of columns, parted by tabs: the part, the scenario, the
/// figure, the unit, the percent twice (as the best and the median of one repeat), and how much was sent.
#[derive(Clone, Copy, Debug)]
pub struct Portion {
    pub subject: Subject,
    /// The scenario in full, as `lossy-n2`.
    pub scenario: &'static str,
    /// What was counted, as `kept`.
    pub name: &'static str,
    /// Tenths of a percent.
    pub tenths: u64,
    /// How much was sent.
    pub sent: u64,
    /// What arrived, with what didn't.
    pub total: u64,
}

impl fmt::Display for Portion {
    ghost output = { λ share. Some (portion_line_of share) };

    fn fmt<W: fmt::Write>(&self, f: &mut fmt::Formatter<W>) -> fmt::Result {
        let Portion {
            subject,
            scenario,
            name,
            sent,
            ..
        } = *self;
        let whole = self.tenths / 10;
        let tenth = self.tenths % 10;
        write!(
            f,
            "hillgauze-{subject}\t{scenario}\t{name}\t%\t{whole}.{tenth}\t{whole}.{tenth}\t{sent}"
        )
    }
}

impl Portion {
    /// Refused where what arrived and what didn't isn't what was sent, with the scenario's name.
    pub fn checked(self, wanted: u64) -> Result<Portion, WrongTotal>
        ensures right { IsOk result ↔ (self.total ≡ wanted) }
        ensures same { IfOk result (λ share. share ≡ self) }
        ensures told { IfErr result (λ wrong. wrong.scenario ≡ self.scenario) }
    {
        if self.total == wanted {
            Ok(self)
        } else {
            Err(WrongTotal {
                scenario: self.scenario,
            })
        }
    }
}
