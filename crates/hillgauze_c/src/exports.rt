//! What C calls.

/// Borrows what a handle has, of this kind, under this name. Where the handle is null, or has another kind, the call is refused.
macro_rules! lent {
    ($part:ident = $handle:ident.$kind:ident()) => {
        let Some(object) = $handle.lend() else {
            return $crate::reply::Reply::refused($crate::reply::NULL_HANDLE);
        };
        let Some($part) = object.$kind() else {
            return $crate::reply::Reply::refused($crate::reply::OTHER_KIND);
        };
    };
}

mod collector;
mod lane;
mod reader;
mod shared;
mod state;
