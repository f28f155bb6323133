//! What the law says of all seats of a flow at once, whatever steps were made.
ghost use Rattle.std.specs.Prelude.{ℕ, List, [], Option, None};
ghost use Rattle.atomic_table.specs.Table.{State};
ghost use Rattle.state_flow.specs.declared.view.View.{View};
ghost use Rattle.flow_terms.specs.Lists.{IsPrefix};
ghost use Rattle.state_flow.specs.Calls.{Asks, IsGiven, with_given};
ghost use Rattle.state_flow.specs.Law.{Rule, LaterHasSeenAll, HasOneHistory};

use flow_terms::Word;

/// A law, with nothing to run. Between any two steps there is one value history, and each seat has seen it as it was after
/// the seat's last step on the value. So of two seats the one with the later step has seen all that the other has. What each
/// collector received is a subsequence of the history without equal neighbours, and the second word is the number of
/// collectors.
pub fn one_history<T: Word>()
    ensures history { (key : T × ℕ) (s : State (Unit {0}) (View T)) → Rule T.word T.fits key s → HasOneHistory key.0 key.1 s }
    ensures two_seats { (key : T × ℕ) (s : State (Unit {0}) (View T)) → Rule T.word T.fits key s → LaterHasSeenAll s }
{}

/// A law, with nothing to run. What a collector that a `CollectingSeat` runs was given, over all its asks, is a subsequence of
/// the history that the seat has seen, without equal neighbours; and it stays so while the seat sees more.
pub fn given_is_picked<T: Word>()
    ensures begins { (v : View T) → IsGiven T.word [] None v }
    ensures stays { (given : List T) (last : Option ℕ) (v w : View T) → IsGiven T.word given last v → IsPrefix v.seen w.seen → IsGiven T.word given last w }
    ensures asks { (given : List T) (last now : Option ℕ) (one : Option T) (v w : View T) → IsGiven T.word given last v → Asks T.word v last one now w → IsGiven T.word (with_given given one) now w }
{}
