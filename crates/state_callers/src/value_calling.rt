//! Callers of a state of any type.
ghost use Rattle.std.specs.Prelude.{◌≡◌, [], ◌∷◌, ◌++◌, length, IfOk, IfErr, IfSome, IfNone, MatchResult};
ghost use Rattle.value_states.specs.Calls.{Writes};
ghost use Rattle.value_states.specs.Watching.{AwaitsNothing, AwaitsValue};

use std::alloc::AllocError;
use std::sync::Wait;
use value_states::{Collected, ValueState, Watcher};

fn add(lines: &mut Vec<u64>, line: u64) -> Result<(), AllocError>
    ensures added { IfOk result (λ _. lines.new.items ≡ lines.old.items ++ line ∷ []) }
    ensures refused { IfErr result (λ _. lines.new.items ≡ lines.old.items) }
{
    lines.push(line)?;
    Ok(())
}

/// Adds a line to the list that a state has. Nobody comes between: what it is added to is the last value of the history, and the next is
/// that with the line; where there is no memory for the line the same list is the next.
pub fn line_added(
    rt: &impl Wait,
    state: &mut ValueState<Vec<u64>>,
    line: u64,
) -> Result<(), AllocError>
    ensures { (found : _) × (value : _) × Writes state.old found value state.new × MatchResult result (λ _. value.items ≡ found.items ++ line ∷ []) (λ _. value.items ≡ found.items) }
{
    state.update(rt, |lines| add(lines, line))
}

/// How many lines there are, once the list is another than the one that the watcher was given last; the thread sleeps until then. Nothing
/// where it is let go, and its last ask gave nothing.
pub fn lines_awaited(rt: &impl Wait, watcher: &mut Watcher<Vec<u64>>) -> Option<usize>
    ensures given { IfSome result (λ count. (value : _) × AwaitsValue watcher.old value watcher.new × (count ≡ length value.items)) }
    ensures let_go { IfNone result (AwaitsNothing watcher.old watcher.new) }
{
    match watcher.read_next(rt, |lines| lines.len()) {
        Collected::Value(count) => Some(count),
        Collected::Stopped => None,
    }
}
