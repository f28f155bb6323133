//! What the rule says of a state and of all its owners at once, whatever calls were made.
ghost use Rattle.std.specs.Prelude.{List, Option};
ghost use Rattle.atomic_table.specs.Table.{State};
ghost use Rattle.round_lock.specs.declared.log.Log.{Log};
ghost use Rattle.round_lock.specs.Law.{Lies, OneLock};
ghost use Rattle.value_states.specs.declared.round.Round.{Round};
ghost use Rattle.value_states.specs.declared.versioned.Versioned.{Versioned};
ghost use Rattle.value_states.specs.Does.{IsFirst, Does};
ghost use Rattle.value_states.specs.Laws.{HasOneHistory};

/// A law, with nothing to run. Between any two steps there is one list of calls on a state, and so one history of its values. Each
/// owner's calls are its part of the list, which begins with what each has seen; and the value, under the lock or with an owner, is
/// the last of the history, with the number of those before it as its version.
pub fn one_history<T: Drop>()
    ensures { (table : State (Option (Versioned T)) (Log (Versioned T) Round)) → OneLock IsFirst Does table → (items : List (Versioned T)) × Lies table.words table.homes items × HasOneHistory items table.views }
{}
