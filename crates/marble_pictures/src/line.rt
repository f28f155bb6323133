//! The line of a row, and the span of a state's values.

ghost use Rattle.std.specs.Prelude.{◌≡◌};
ghost use Rattle.marble_pictures.specs.Widths.{state_value, wider_span, span_of};

use marble_marks::{Kind, Mark, Row};

/// How many steps there are from the lowest value of a state to its highest.
const STEPS: u64 = 16;

/// The line of a row from one mark to the next.
#[derive(Clone, Copy)]
pub(crate) enum Line {
    /// Before a row begins, and after it has ended.
    None,
    Solid,
    /// An emission waits.
    Dashed,
}

impl Line {
    /// The line behind a mark, where there was this one before it.
    pub(crate) fn after(self, kind: Kind) -> Line {
        match kind {
            Kind::Begun(Row::Ticket(_)) | Kind::Waiting => Line::Dashed,
            Kind::Begun(_) => Line::Solid,
            Kind::Done | Kind::Removed | Kind::Left | Kind::Cancelled => Line::None,
            _ => self,
        }
    }

    /// Whether there is a line.
    pub(crate) fn is_there(self) -> bool {
        !matches!(self, Line::None)
    }
}

/// The value of a state from a mark on, where the mark says one.
pub(crate) fn state_value(kind: Kind) -> Option<u64>
    ensures { result ≡ state_value kind }
{
    match kind {
        Kind::Begun(Row::State(value)) | Kind::Set(value) | Kind::Holds(value) => Some(value),
        _ => None,
    }
}

/// The lowest and the highest value of a state.
#[derive(Clone, Copy)]
pub(crate) struct Span {
    low: u64,
    high: u64,
}

impl Span {
    /// With one more value, if it is one.
    fn wider(self, value: Option<u64>) -> Span
        ensures { result ≡ wider_span self value }
    {
        match value {
            Some(value) => Span {
                low: value.min(self.low),
                high: value.max(self.high),
            },
            None => self,
        }
    }

    /// The span of a row's values, of which these marks are the first.
    pub(crate) fn of(marks: &[Mark<'_>], row: usize) -> Span
        ensures { result ≡ span_of row marks.now }
    {
        let mut span = Span {
            low: u64::MAX,
            high: 0,
        };
        for mark in marks {
            if mark.row != row {
                return span;
            }
            span = span.wider(state_value(mark.kind));
        }
        span
    }

    /// How many steps above the lowest value this one stands.
    pub(crate) fn step(self, value: u64) -> u64 {
        let wide = self.high.saturating_sub(self.low);
        let above = value.saturating_sub(self.low);
        let step = match above.checked_mul(STEPS) {
            Some(steps) => steps / wide.max(1),
            None => above / (wide / STEPS).max(1),
        };
        step.min(STEPS)
    }
}
