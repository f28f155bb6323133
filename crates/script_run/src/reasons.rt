//! Why a command has no answer, where it has none.

ghost use Rattle.std.specs.Prelude.{◌≡◌};
ghost use Rattle.script_run.specs.Executing.{against_asking, against_joining};

use crate::binding::Binding;
use script_commands::Reason;

/// Why a question has none, by what its name stands for.
pub(crate) fn against_asking(asked: Option<Binding>) -> Reason
    ensures { result ≡ against_asking asked }
{
    match asked {
        None => Reason::Unbound,
        Some(_) => Reason::OtherKind,
    }
}

/// Why a party's joining has none, by what the host's name stands for, and the party's.
pub(crate) fn against_joining(host: Option<Binding>, name: Option<Binding>) -> Reason
    ensures { result ≡ against_joining host name }
{
    match (host, name) {
        (None, _) => Reason::Unbound,
        (Some(_), Some(_)) => Reason::Bound,
        (Some(_), None) => Reason::OtherKind,
    }
}
