//! Draws a script of commands on flows: the script comes on standard input, its picture goes to standard output.
//!
//! The words are `core` or `lane`, the engine, and `--text` for a picture in characters; without it, it is SVG. The
//! status is 0 at the end of the script, 1 for a fault, which is named on standard error, and 2, with nothing written,
//! where the command line is another.
#![tactic(auto)]

ghost use Rattle.std.specs.Prelude.{◌≡◌, IfOk, Ok};
ghost use Rattle.flow_script.specs.Running.{On};
ghost use Rattle.marble_drawing.specs.Pictures.{DrawnBy};
ghost use Rattle.flow_marbles.specs.Forms.{form_of};

use flow_script::{CoreObject, LaneObject, ScriptFault, read_script};
use marble_drawing::{Form, draw_script};
use program_words::{Stop, Wish, status_of, wish_asked};
use script_commands::ScriptObject;
use std::alloc::AllocGlobal;
use std::process::ExitCode;
use std::random::RandomSource;
use std::sync::Wait;

/// What the wished picture is drawn as.
fn form_of(wish: Wish) -> Form
    ensures { result ≡ form_of wish }
{
    if wish.is_text { Form::Text } else { Form::Svg }
}

/// The picture that a wish asks for.
fn picture_for<'r, H: Wait + RandomSource + AllocGlobal>(
    rt: &'r H,
    wish: Wish,
    script: &[u8],
) -> Result<String, ScriptFault>
    ensures { IfOk result (λ picture. On wish.engine
        (DrawnBy ⟦<CoreObject<'r, 'r, H> as ScriptObject<'r>>⟧.makes
        ⟦<CoreObject<'r, 'r, H> as ScriptObject<'r>>⟧.asks
        ⟦<CoreObject<'r, 'r, H> as ScriptObject<'r>>⟧.joins
        (form_of wish) script.now (Ok picture))
        (DrawnBy ⟦<LaneObject<'r, 'r, H> as ScriptObject<'r>>⟧.makes
        ⟦<LaneObject<'r, 'r, H> as ScriptObject<'r>>⟧.asks
        ⟦<LaneObject<'r, 'r, H> as ScriptObject<'r>>⟧.joins
        (form_of wish) script.now (Ok picture))) }
{
    let picture = draw_script(rt, wish.engine, form_of(wish), script)?;
    Ok(picture)
}

/// Draws what the command line asks for, on this script.
fn draw(
    rt: &(impl Wait + RandomSource + AllocGlobal + Print),
    wish: Wish,
    script: &[u8],
) -> Result<(), ScriptFault> {
    let picture = picture_for(rt, wish, script)?;
    match rt.write_all(picture.as_bytes()) {
        Ok(()) => Ok(()),
        Err(_) => Err(ScriptFault::Write),
    }
}

/// The command line's wish, and the script.
fn given(rt: &HostRuntime) -> Result<(Wish, Vec<u8>), Stop<ScriptFault>> {
    let wish = wish_asked(rt)?;
    match read_script(rt.alloc(), &mut rt.reader()) {
        Ok(script) => Ok((wish, script)),
        Err(fault) => Err(Stop::Fault(fault)),
    }
}

/// Gives the status of such an end, and names a fault on standard error.
fn end(rt: &HostRuntime, ended: Result<(), Stop<ScriptFault>>) -> ExitCode {
    status_of(rt, "flow_marbles", ended)
}

fn main(rt: HostRuntime) -> ExitCode {
    let (wish, script) = match given(&rt) {
        Ok(given) => given,
        Err(stop) => return end(&rt, Err(stop)),
    };
    end(&rt, draw(&rt, wish, &script).map_err(Stop::Fault))
}
