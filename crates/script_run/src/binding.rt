//! What a name stands for.

use script_commands::Part;

/// What a name stands for: a part of an object.
#[derive(Clone, Copy)]
pub struct Binding {
    /// The index of the object among all that the script has made.
    pub object_index: usize,
    /// What the name is of that object.
    pub part: Part,
}
