//! What is made once more.

use std::alloc::AllocError;

/// What the call makes. It is made once more where memory was refused, as under `rt try --test --fail-alloc N`.
pub fn made_again<T, F: Fn() -> Result<T, AllocError>>(call: &F) -> Result<T, AllocError>
    requires { F.IsAlwaysCallable call.now }
{
    match call() {
        Err(_) => call(),
        made => made,
    }
}
