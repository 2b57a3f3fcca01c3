ghost use Rattle.std.specs.Prelude.{◌≡◌, IfOk, string_bytes};
ghost use Rattle.xs_top.specs.Texts.{text_of, usage_text_of, path_text_of, scene_text_of, level_text_of, pixel_text_of, limit_text_of, what_text_of};

use crate::status::Status;
use std::alloc::Global;
use xs_base::Memory;
use xs_dryrun::What;
use xs_fault::{Path, SceneFault};
use xs_rawfile::LevelCode;
use xs_words::Usage;

/// What went wrong, as a line for the user without its end; empty for Ok.
pub fn fault_text(alloc: Global, status: &Status) -> Result<Vec<u8>, Memory>
    ensures { IfOk result (λ text. text.items ≡ text_of status.now) }
{
    let text = match status {
        Status::Ok => String::new(alloc),
        Status::Usage(usage) => usage_text(alloc, usage)?,
        Status::Scene(fault) => scene_text(alloc, fault)?,
        Status::Level { drawing, code } => level_text(alloc, *drawing, *code)?,
        Status::ReadFault => String::from_str(alloc, "read fault")?,
        Status::WriteFault => String::from_str(alloc, "write fault")?,
        Status::Memory => String::from_str(alloc, "out of memory")?,
        Status::Limit { what, limit } => limit_text(alloc, *what, *limit)?,
        Status::NotYet => String::from_str(alloc, "not built yet")?,
    };
    Ok(text.into_bytes())
}

/// What is wrong with the words.
fn usage_text(alloc: Global, usage: &Usage) -> Result<String, Memory>
    ensures { IfOk result (λ text. string_bytes text ≡ usage_text_of usage.now) }
{
    let text = match usage {
        Usage::NoCommand => String::from_str(alloc, "usage 1: no command")?,
        Usage::Unknown => String::from_str(alloc, "usage 2: unknown command")?,
        Usage::Count => String::from_str(alloc, "usage 3: wrong number of words")?,
        Usage::Number(word) => format!(in alloc; "usage 4: word {word} is not a number")?,
        Usage::Range(word) => format!(in alloc; "usage 5: word {word} is out of range")?,
        Usage::Name(word) => format!(in alloc; "usage 6: word {word} is not a name")?,
    };
    Ok(text)
}

/// A path as it is printed.
fn path_text(path: &Path) -> &str
    ensures { result.now ≡ path_text_of path.now }
{
    let text = path.text();
    if text.is_empty() { "(top)" } else { text }
}

/// What is wrong with a scene, and where.
#[tactic(auto, unfolding(crate::specs::Texts::scene_text_of))]
fn scene_text(alloc: Global, fault: &SceneFault) -> Result<String, Memory>
    ensures { IfOk result (λ text. string_bytes text ≡ scene_text_of fault.now) }
{
    let number = fault.code.number();
    let at = path_text(&fault.path);
    let name = fault.code.name();
    Ok(format!(in alloc; "scene S{number} at {at}: {name}")?)
}

/// The pixel that is told with a code, if one is.
fn pixel_text(alloc: Global, code: LevelCode) -> Result<String, Memory>
    ensures { IfOk result (λ text. string_bytes text ≡ pixel_text_of code) }
{
    match code {
        LevelCode::NotPremultiplied(pixel) => Ok(format!(in alloc; " at pixel {pixel}")?),
        _ => Ok(String::new(alloc)),
    }
}

/// What is wrong with a drawing.
#[tactic(auto, unfolding(crate::specs::Texts::level_text_of))]
fn level_text(alloc: Global, drawing: u32, code: LevelCode) -> Result<String, Memory>
    ensures { IfOk result (λ text. string_bytes text ≡ level_text_of drawing code) }
{
    let number = code.number();
    let pixel = pixel_text(alloc, code)?;
    Ok(format!(in alloc; "drawing {drawing}: level code {number}{pixel}")?)
}

#[tactic(auto, unfolding(crate::specs::Texts::limit_text_of))]
/// The limit that is passed.
fn limit_text(alloc: Global, what: What, limit: u64) -> Result<String, Memory>
    ensures { IfOk result (λ text. string_bytes text ≡ limit_text_of what limit) }
{
    let word = what_word(what);
    Ok(format!(in alloc; "limit {word} {limit}")?)
}

/// What is too much.
fn what_word(what: What) -> &'static str
    ensures { result.now ≡ what_text_of what }
{
    match what {
        What::Reach => "reach",
        What::Aliases => "aliases",
        What::Reads => "reads",
        What::SectionBytes => "section bytes",
    }
}
