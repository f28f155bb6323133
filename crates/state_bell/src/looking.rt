//! How a thread looks on before it sleeps, for a state or for a shared flow.

use std::hint;

/// How often a thread looks on before it sleeps. With the pauses in between it looks for some microseconds at most; to sleep and to
/// be woken takes more, of itself and of who wakes it.
pub const LOOKS: u32 = 4;

// How many turns a pause has. In a shorter one fewer values would come, and who emits and who receives would take turns at the same
// cache lines for each; a longer one costs more where none comes.
const TURNS: u32 = 64;

/// Lets some time pass before the next look. The thread keeps its processor meanwhile: where others want it, who yields has it back
/// only after a time slice of theirs, some milliseconds, while a thread that sleeps goes on soon after it was woken.
pub fn pause() {
    for _ in 0..TURNS {
        hint::spin_loop();
    }
}
