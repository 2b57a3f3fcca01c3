ghost use Rattle.std.specs.Prelude.{IfOk};
ghost use Rattle.serde_json.specs.View.{members_view};
ghost use Rattle.xs_json.specs.Parsing.{Gives};
ghost use Rattle.xs_scene.specs.Ranges.{IsShown};
ghost use Rattle.xs_scene_text.specs.SceneText.{shown_sheet_at, shown_drawing_at, shown_at};

use crate::element::Element;
use crate::fields::{
    flag_or_false, form, needed, number_needed, reference_if_there, reference_needed,
};
use serde_json::{Map, Value};
use std::alloc::Global;
use xs_base::limits::LAST_ROW;
use xs_fault::{Field, FieldFault, Path, Place};
use xs_json::{object, optional};
use xs_scene::{Column, Exposure, Shown};

/// The rows of a sheet that a cell shows.
#[tactic(auto, unfolding(xs_scene_text::specs::SceneText::shown_sheet_at))]
fn shown_sheet(alloc: Global, map: &Map<String, Value>, at: &Path) -> Result<Shown, FieldFault>
    ensures exact { Gives (λ s. s) result (shown_sheet_at at.now (members_view map.now.entries)) }
    ensures range { IfOk result IsShown }
{
    form(
        alloc,
        map,
        at,
        &[Field::Level, Field::Drawing],
        &[Field::Start],
    )?;
    Ok(Shown::Sheet {
        sheet: reference_needed(alloc, map, at, Field::Sheet)?,
        start: number_needed(alloc, map, at, Field::Start, 1, LAST_ROW)?,
    })
}

/// The drawing that a cell shows.
#[tactic(auto, unfolding(xs_scene_text::specs::SceneText::shown_drawing_at))]
fn shown_drawing(alloc: Global, map: &Map<String, Value>, at: &Path) -> Result<Shown, FieldFault>
    ensures exact { Gives (λ s. s) result (shown_drawing_at at.now (members_view map.now.entries)) }
    ensures range { IfOk result IsShown }
{
    form(
        alloc,
        map,
        at,
        &[Field::Start],
        &[Field::Level, Field::Drawing],
    )?;
    Ok(Shown::Drawing {
        level: reference_needed(alloc, map, at, Field::Level)?,
        index: reference_needed(alloc, map, at, Field::Drawing)?,
    })
}

/// What a cell shows, in the form that its keys have.
fn shown(alloc: Global, map: &Map<String, Value>, at: &Path) -> Result<Shown, FieldFault>
    ensures exact { Gives (λ s. s) result (shown_at at.now (members_view map.now.entries)) }
    ensures range { IfOk result IsShown }
{
    if optional(map, Field::Sheet).is_some() {
        shown_sheet(alloc, map, at)
    } else {
        shown_drawing(alloc, map, at)
    }
}

impl Element for Exposure {
    ghost use Rattle.xs_scene.specs.Ranges.{IsExposure};
    ghost use Rattle.xs_scene_text.specs.SceneText.{cell_at};

    ghost reading = { λ _. cell_at };

    ghost fits = { IsExposure };

    #[tactic(auto, unfolding(xs_scene_text::specs::SceneText::cell_at))]
    fn read(alloc: Global, _format: u32, v: &Value, place: &Place) -> Result<Self, FieldFault> {
        let at = place.path(alloc)?;
        let fields = [
            Field::From,
            Field::To,
            Field::Level,
            Field::Drawing,
            Field::Sheet,
            Field::Start,
        ];
        let map = object(alloc, v, &at, &fields, &[Field::From, Field::To])?;
        let from = number_needed(alloc, map, &at, Field::From, 1, LAST_ROW)?;
        let to = number_needed(alloc, map, &at, Field::To, from, LAST_ROW)?;
        let shown = shown(alloc, map, &at)?;
        Ok(Exposure { from, to, shown })
    }
}

impl Element for Column {
    ghost use Rattle.xs_scene.specs.InRange.{ColumnInRange};
    ghost use Rattle.xs_scene_text.specs.SceneText.{column_at};

    ghost reading = { λ _. column_at };

    ghost fits = { ColumnInRange };

    #[tactic(auto, unfolding(xs_scene_text::specs::SceneText::column_at))]
    fn read(alloc: Global, format: u32, v: &Value, place: &Place) -> Result<Self, FieldFault> {
        let at = place.path(alloc)?;
        let fields = [Field::Peg, Field::Off, Field::Cells];
        let map = object(alloc, v, &at, &fields, &[Field::Cells])?;
        Ok(Column {
            peg: reference_if_there(alloc, map, &at, Field::Peg)?,
            off: flag_or_false(alloc, map, &at, Field::Off)?,
            cells: needed(alloc, format, map, &at, Field::Cells)?,
        })
    }
}
