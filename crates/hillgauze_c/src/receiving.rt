//! A subscription's receipts in a row.
ghost use Rattle.hillgauze_c.specs.SharedCalls.{ReceivesInto};

use flow_terms::{Next, SubId};
use shared_core::SharedState;

/// Receives as many values as there is room for in `values`, and puts them there, up to the first answer that gives none.
pub fn receive_into(shared: &mut SharedState<u64>, id: SubId, values: &mut [u64]) -> Next<u64>
    ensures { ReceivesInto id.0 values.old values.new shared.old result shared.new }
{
    let mut count = 0;
    while count < values.len() {
        match shared.next(id) {
            Next::Value(value) => {
                values[count] = value;
                count += 1;
            }
            Next::Nothing if count == 0 => return Next::Nothing,
            Next::Closed if count == 0 => return Next::Closed,
            _ => return Next::Value(count as u64),
        }
    }
    Next::Value(count as u64)
}
