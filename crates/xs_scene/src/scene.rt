ghost use Rattle.std.specs.Prelude.{◌↔◌, IsTrue, All};
ghost use Rattle.xs_scene.specs.Ranges.{HasNoKey, HasNoLines, HasOldNodes, IsPlain};

use crate::colours::Colours;
use crate::in_range::{Ranged, each_in_range};
use crate::level::Level;
use crate::range::{is_reference_or_none, is_side};
use crate::sheet::Sheet;
use std::marker::Model;
use xs_base::List;

/// The part of the picture that is rendered: its sides in pixels, each 1 to 4096, and the peg of the
/// first sheet that it hangs on, if any.
#[derive(Clone, Copy, Debug, PartialEq, Eq)]
pub struct Camera {
    pub w: u32,
    pub h: u32,
    pub peg: Option<u32>,
}

impl Model for Camera {
    ghost use Rattle.xs_scene.specs.Records.{CameraRecord};

    ghost Value = { CameraRecord };

    ghost use Rattle.xs_scene.specs.Ranges.{IsCamera};

    ghost view = { λ c. record { w = c.w; h = c.h; peg = c.peg } };

    ghost invariant = { λ c. IsCamera (record { w = c.w; h = c.h; peg = c.peg }) };

    ghost inverse = { λ c. record { w = c.w; h = c.h; peg = c.peg } };
}

impl Camera {
    ghost use Rattle.std.specs.Option.{SomeIff};
    ghost use Rattle.xs_scene.specs.Records.{CameraRecord};
    ghost use Rattle.xs_scene.specs.Ranges.{IsCamera};

    /// The camera with these fields; None exactly where one is out of its range.
    pub fn new(w: u32, h: u32, peg: Option<u32>) -> Option<Camera>
        ensures { let camera : CameraRecord = record { w = w; h = h; peg = peg } in
            SomeIff result (IsCamera camera) camera }
    {
        if is_side(w) && is_side(h) && is_reference_or_none(peg) {
            Some(Camera { w, h, peg })
        } else {
            None
        }
    }
}

/// A scene: the camera, the palettes, the levels of drawings and the exposure sheets, of which the first
/// is rendered. A scene of format 1 has no palette key, no peg key with a line, and no node that blurs or
/// filters.
#[derive(Debug, Drop)]
pub struct Scene {
    pub format: u32,
    pub camera: Camera,
    pub palettes: List<Colours>,
    pub levels: List<Level>,
    pub sheets: List<Sheet>,
}

impl Model for Scene {
    ghost use Rattle.xs_scene.specs.Records.{SceneRecord};

    ghost Value = { SceneRecord };

    ghost use Rattle.xs_scene.specs.InRange.{IsInRange};

    ghost view = { λ s. record { format = s.format; camera = s.camera; palettes = s.palettes; levels = s.levels; sheets = s.sheets } };

    ghost invariant = { λ s. IsInRange (record { format = s.format; camera = s.camera; palettes = s.palettes; levels = s.levels; sheets = s.sheets }) };
}

fn have_no_keys(palettes: &List<Colours>) -> bool
    ensures { IsTrue result ↔ All HasNoKey palettes.now }
{
    palettes.items().iter().all(|palette| palette.has_no_key())
}

fn have_no_lines(sheets: &List<Sheet>) -> bool
    ensures { IsTrue result ↔ All HasNoLines sheets.now }
{
    sheets.items().iter().all(|sheet| sheet.has_no_lines())
}

fn have_old_nodes(sheets: &List<Sheet>) -> bool
    ensures { IsTrue result ↔ All HasOldNodes sheets.now }
{
    sheets.items().iter().all(|sheet| sheet.has_old_nodes())
}

fn is_plain(palettes: &List<Colours>, sheets: &List<Sheet>) -> bool
    ensures { IsTrue result ↔ IsPlain palettes.now sheets.now }
{
    have_no_keys(palettes) && have_no_lines(sheets) && have_old_nodes(sheets)
}

impl Scene {
    ghost use Rattle.std.specs.Prelude.{◌≡◌};
    ghost use Rattle.std.specs.Option.{SomeIff};
    ghost use Rattle.xs_scene.specs.Ranges.{IsScene};
    ghost use Rattle.xs_scene.specs.InRange.{IsInRange};

    /// The scene with these fields; None exactly where the format is neither 1 nor 2, or it is 1 and the
    /// scene has something that came with format 2.
    pub fn new(
        format: u32,
        camera: Camera,
        palettes: List<Colours>,
        levels: List<Level>,
        sheets: List<Sheet>,
    ) -> Option<Scene>
        ensures { SomeIff result (IsScene format palettes sheets)
            (record { format = format; camera = camera; palettes = palettes; levels = levels; sheets = sheets }) }
    {
        if format == 2 || format == 1 && is_plain(&palettes, &sheets) {
            camera.in_range();
            each_in_range(&palettes);
            each_in_range(&levels);
            each_in_range(&sheets);
            Some(Scene {
                format,
                camera,
                palettes,
                levels,
                sheets,
            })
        } else {
            None
        }
    }

    /// The same scene in format 2. Takes no memory.
    pub fn migrated(mut self) -> Scene
        ensures { result ≡ record self { format = 2 } }
    {
        self.format = 2;
        self
    }

    /// Each number of the scene is in its range, at every level: the type keeps it. Nothing is done but to
    /// tell it to contracts, which see a scene as a record of plain numbers.
    pub fn in_range(&self)
        ensures { IsInRange self.now }
    {
        // to look at a field brings what the type keeps
        let _ = &self.format;
    }
}
