//! An object by its kind.
ghost use Rattle.std.specs.Prelude.{◌≡◌};
ghost use Rattle.std.specs.Option.{option_map};
ghost use Rattle.std.specs.Borrow.{sem, LendsIf};
ghost use Rattle.hillgauze_c.specs.contracts.object.Object.{the_row};
ghost use Rattle.hillgauze_c.specs.declared.object.Object.TheVariants as object;
ghost use Rattle.hillgauze_c.specs.Kinds.{shared_of, sequencer_of, reader_of, seat_of, collector_of};
ghost use Rattle.hillgauze_c.specs.Rows.{shared_row, sequencing_row, reading_row, seating_row, collecting_row};

use super::Object;
use crate::parties::{Collecting, Reading, Seating, Sequencing};
use shared_core::SharedState;

impl Object {
    /// The shared flow, where it is one.
    pub fn shared(&mut self) -> Option<&mut SharedState<u64>>
        ensures* writes_back { sem 𝓛 (LendsIf the_row shared_row self.entry result object.Shared self.old) }
        ensures kind { option_map (λ flow. flow.now) result ≡ shared_of self.old }
    {
        if let Object::Shared(flow) = self {
            Some(flow)
        } else {
            None
        }
    }

    /// The sequencer, where it is one.
    pub fn sequencer(&mut self) -> Option<&mut Sequencing>
        ensures* writes_back { sem 𝓛 (LendsIf the_row sequencing_row self.entry result object.Sequencer self.old) }
        ensures kind { option_map (λ sequencing. sequencing.now) result ≡ sequencer_of self.old }
    {
        if let Object::Sequencer(sequencing) = self {
            Some(sequencing)
        } else {
            None
        }
    }

    /// The reader, where it is one.
    pub fn reader(&mut self) -> Option<&mut Reading>
        ensures* writes_back { sem 𝓛 (LendsIf the_row reading_row self.entry result object.Reader self.old) }
        ensures kind { option_map (λ reading. reading.now) result ≡ reader_of self.old }
    {
        if let Object::Reader(reading) = self {
            Some(reading)
        } else {
            None
        }
    }

    /// The seat, where it is one.
    pub fn seat(&mut self) -> Option<&mut Seating>
        ensures* writes_back { sem 𝓛 (LendsIf the_row seating_row self.entry result object.Seat self.old) }
        ensures kind { option_map (λ seating. seating.now) result ≡ seat_of self.old }
    {
        if let Object::Seat(seating) = self {
            Some(seating)
        } else {
            None
        }
    }

    /// The collector, where it is one.
    pub fn collector(&mut self) -> Option<&mut Collecting>
        ensures* writes_back { sem 𝓛 (LendsIf the_row collecting_row self.entry result object.Collector self.old) }
        ensures kind { option_map (λ collecting. collecting.now) result ≡ collector_of self.old }
    {
        if let Object::Collector(collecting) = self {
            Some(collecting)
        } else {
            None
        }
    }
}
