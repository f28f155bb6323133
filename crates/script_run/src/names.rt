//! The names that a script has bound.

ghost use Rattle.std.specs.Prelude.{◌≡◌, ◌<◌, None, Some, OnOk, bytes_eq, if◌then◌else◌, List, ℕ};
ghost use Rattle.script_run.specs.Names.{bound_to, room};

use crate::binding::Binding;
use script_commands::NameHash;
use std::alloc::{AllocError, Global};
use std::collections::HashMap;

/// The names that are bound, each for good.
#[derive(Drop)]
pub struct Names<'a> {
    bindings: HashMap<&'a [u8], Binding, NameHash>,
}

impl<'a> Names<'a> {
    /// No names, which will be hashed so.
    pub fn new(alloc: Global, hash: NameHash) -> Names<'a>
        ensures { (name : List ℕ) → bound_to result name ≡ None }
    {
        Names {
            bindings: HashMap::with_hasher(alloc, hash),
        }
    }

    /// What a name is bound to.
    pub fn get(&self, name: &[u8]) -> Option<Binding>
        ensures { result ≡ bound_to self.now name.now }
    {
        self.bindings.get(name).copied()
    }

    /// Makes room for one more name. It is asked for before the call that makes what the name stands for, so that want of
    /// memory here leaves nothing made.
    pub fn reserve(&mut self) -> Result<(), AllocError>
        ensures kept { (name : List ℕ) → bound_to self.new name ≡ bound_to self.old name }
        ensures room { OnOk result (0 < room self.new) }
    {
        self.bindings.reserve(1)
    }

    /// Binds a name, for which there is room.
    pub fn bind(&mut self, name: &'a [u8], binding: Binding)
        requires { 0 < room self.old }
        ensures { (other : List ℕ) → bound_to self.new other ≡ (if bytes_eq name.entry.now other then Some binding else bound_to self.old other) }
    {
        let _ = self.bindings.insert(name, binding);
    }
}
