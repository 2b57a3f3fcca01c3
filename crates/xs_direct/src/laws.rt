//! Laws of drawings, each on a function that does nothing: its contract is the law.

ghost use Rattle.std.specs.Prelude.{◌≡◌, ℕ, List, Option, Some, IfSome};
ghost use Rattle.xs_pixel.specs.Channels.{Channels};
ghost use Rattle.xs_pixel.specs.Picture.{Pictures, HoldsPixels, pixel_at};
ghost use Rattle.xs_pixel.specs.Points.{Point};
ghost use Rattle.xs_rawfile.specs.Held.{Held, content_of, picture_of};
ghost use Rattle.xs_rawfile.specs.Raw.{Raw, Fills};
ghost use Rattle.xs_rawfile.specs.declared.drawing.RawKind.{RawKind};
ghost use Rattle.xs_scene.specs.Records.{SceneRecord};
ghost use Rattle.xs_meaning.specs.Drawings.{drawing_pixel, level_of, written_colouring, AreColouredAsWritten};
ghost use Rattle.xs_direct.specs.Coloured.{AreAsWritten, IsOfLevel, IsOfScene};
ghost use Rattle.xs_direct.specs.Pictures.{pictures_in};

/// What the bytes of a drawing of a file hold is pixels, where they are not words.
pub fn drawings_hold_pixels()
    ensures { (kind : RawKind) (bytes : List ℕ) → Fills kind bytes → HoldsPixels (content_of kind bytes) }
{}

/// Where pictures are coloured as their palettes are written, a drawing shows at each point the pixel of
/// its picture.
pub fn coloured_pictures_show_their_pixels()
    ensures { (s : SceneRecord) (pictures : Pictures) → AreColouredAsWritten s pictures → (d : ℕ) (p : Point)
        → IfSome (pictures d) (λ q. drawing_pixel (pictures d) (written_colouring s d) p ≡ pixel_at q p.x p.y) }
{}

/// The picture of a file of the kind of its level, under palettes as they are written, is coloured as
/// its palette is written: it shows at each point its pixel.
pub fn files_are_coloured_as_written()
    ensures { (s : SceneRecord) (palettes : List (List Channels)) (d : ℕ) (g : Raw) (palette : Option ℕ)
        → AreAsWritten palettes s → IsOfLevel (level_of s.levels d) g.kind palette → (p : Point)
        → drawing_pixel (Some (picture_of palettes g palette)) (written_colouring s d) p
        ≡ pixel_at (picture_of palettes g palette) p.x p.y }
{}

/// The pictures of drawings that are held are coloured as the palettes of a scene are written, where
/// each is of the kind of its level and the palettes are those of the scene.
pub fn held_drawings_are_coloured_as_written()
    ensures { (s : SceneRecord) (h : Held) → IsOfScene s h → AreColouredAsWritten s (pictures_in h) }
{}
