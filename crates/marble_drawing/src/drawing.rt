//! Draws a script.

ghost use Rattle.std.specs.Prelude.{◌≡◌, ◌≤◌, length, map, IfOk, string_bytes};
ghost use Rattle.flow_script.specs.Running.{On};
ghost use Rattle.marble_drawing.specs.Pictures.{DrawsLines, ShowsLines, DrawnBy, saying_of};
ghost use Rattle.marble_drawing.specs.declared.drawing.Form.TheVariants.{Text};
ghost use Rattle.marble_marks.specs.AnsweredLines.{asked_of, saying_in};

use flow_script::{CoreObject, Engine, LaneObject, LineAnswer, ScriptFault, answers_of};
use marble_marks::{Said, marks};
use marble_pictures::{svg_picture, text_picture};
use script_commands::{NameHash, ScriptObject};
use std::alloc::{AllocError, AllocGlobal, Global};
use std::random::RandomSource;
use std::sync::Wait;

/// What a script is drawn as.
#[derive(Clone, Copy, Debug, PartialEq, Eq)]
pub enum Form {
    Svg,
    /// Characters for a terminal.
    Text,
}

/// These answers, each beside its text.
fn said_of(alloc: Global, answers: Vec<LineAnswer>) -> Result<Vec<Said>, AllocError>
    ensures { IfOk result (λ said. map saying_in said.items ≡ map saying_of answers.items) }
{
    let mut said = Vec::new(alloc);
    for answered in answers {
        let LineAnswer { line, answer } = answered;
        said.push(Said::new(alloc, line, answer)?)?;
    }
    Ok(said)
}

/// The picture in SVG of a script with these answers.
fn svg_of(alloc: Global, hash: NameHash, script: &[u8], said: &[Said]) -> Result<String, AllocError>
    requires { length script.now ≤ 1048576 }
    ensures { IfOk result (λ picture. DrawsLines (asked_of script.now (map saying_in said.now)) (string_bytes picture)) }
{
    let mut marks = marks(alloc, hash, script, said)?;
    let picture = svg_picture(alloc, &mut marks)?;
    Ok(picture)
}

/// The picture in characters of a script with these answers.
fn text_of(
    alloc: Global,
    hash: NameHash,
    script: &[u8],
    said: &[Said],
) -> Result<String, AllocError>
    requires { length script.now ≤ 1048576 }
    ensures { IfOk result (λ picture. ShowsLines Text (asked_of script.now (map saying_in said.now)) (string_bytes picture)) }
{
    let mut marks = marks(alloc, hash, script, said)?;
    let picture = text_picture(alloc, &mut marks)?;
    Ok(picture)
}

/// The picture of a script with these answers.
fn picture_of(
    alloc: Global,
    hash: NameHash,
    form: Form,
    script: &[u8],
    answers: Vec<LineAnswer>,
) -> Result<String, AllocError>
    requires { length script.now ≤ 1048576 }
    ensures { IfOk result (λ picture. ShowsLines form (asked_of script.now (map saying_of answers.items)) (string_bytes picture)) }
{
    let said = said_of(alloc, answers)?;
    match form {
        Form::Svg => svg_of(alloc, hash, script, &said),
        Form::Text => text_of(alloc, hash, script, &said),
    }
}

/// Runs a script, and gives its picture. A fault is the one that the run answers with.
pub fn draw_script<'r, H: Wait + RandomSource + AllocGlobal>(
    rt: &'r H,
    engine: Engine,
    form: Form,
    script: &[u8],
) -> Result<String, ScriptFault>
    ensures { On engine
        (DrawnBy ⟦<CoreObject<'r, 'r, H> as ScriptObject<'r>>⟧.makes
        ⟦<CoreObject<'r, 'r, H> as ScriptObject<'r>>⟧.asks
        ⟦<CoreObject<'r, 'r, H> as ScriptObject<'r>>⟧.joins
        form script.now result)
        (DrawnBy ⟦<LaneObject<'r, 'r, H> as ScriptObject<'r>>⟧.makes
        ⟦<LaneObject<'r, 'r, H> as ScriptObject<'r>>⟧.asks
        ⟦<LaneObject<'r, 'r, H> as ScriptObject<'r>>⟧.joins
        form script.now result) }
{
    let answers = answers_of(rt, engine, script)?;
    match picture_of(rt.alloc(), NameHash::new(rt), form, script, answers) {
        Ok(picture) => Ok(picture),
        Err(_) => Err(ScriptFault::NoMemory),
    }
}
