//! What the rule says of a flow and of all its owners at once, whatever calls were made.
ghost use Rattle.std.specs.Prelude.{List, Option};
ghost use Rattle.atomic_table.specs.Table.{State};
ghost use Rattle.round_lock.specs.declared.log.Log.{Log};
ghost use Rattle.round_lock.specs.Law.{Lies, OneLock};
ghost use Rattle.value_flows.specs.declared.round.Round.{Round};
ghost use Rattle.value_flows.specs.declared.ring.Ring.{Ring};
ghost use Rattle.value_flows.specs.Does.{IsFirst, Does};
ghost use Rattle.value_flows.specs.Laws.{HasOneList};

/// A law, with nothing to run. Between any two steps there is one list of calls on a flow, and so one list of the values that it
/// accepted. Each owner's calls are its part of the list, which begins with what each has seen; and what is kept, under the lock or with
/// an owner, are the latest of these values. But under `DropOldest` no subscription misses a value where each owner keeps to its place.
pub fn one_list_of_values<T: Drop>()
    ensures { (table : State (Option (Ring T)) (Log (Ring T) Round)) → OneLock IsFirst Does table → (items : List (Ring T)) × Lies table.words table.homes items × HasOneList items table.views }
{}
