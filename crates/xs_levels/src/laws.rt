//! Laws of stocks and of the pictures of files, each on a function that does nothing: its contract is the law.

ghost use Rattle.std.specs.Prelude.{◌≡◌, ℕ, Option, Some};
ghost use Rattle.xs_rawfile.specs.Raw.{Raw};
ghost use Rattle.xs_rawfile.specs.Held.{Held, IsHeld, IsIn, picture_of};
ghost use Rattle.xs_pixel.specs.Picture.{ArePixels};
ghost use Rattle.xs_scene.specs.Records.{SceneRecord};
ghost use Rattle.xs_meaning.specs.Drawings.{AreColouredAsWritten};
ghost use Rattle.xs_levels.specs.Table.{TableRecord, table_of};
ghost use Rattle.xs_levels.specs.Films.{Files, film_of, pictures_of};

use xs_rawfile::laws::files_without_fault_hold_drawings;

/// Where a library tells its files, and a film shows their pictures, each drawing that is held is its picture.
pub fn drawings_are_held_as_their_pictures()
    ensures { (files : Files) (t : TableRecord) (h : Held) → IsHeld (film_of (Some files) t) h
        → (d : ℕ) (g : Raw) (palette : Option ℕ) → IsIn h d g palette
        → pictures_of files t d ≡ Some (picture_of h.palettes g palette) }
{}

/// The pictures of a table's files hold pixels where they are no words; those of a scene's table are coloured as the
/// scene's palettes are written.
pub fn pictures_of_files_are_coloured_as_written()
    ensures pixels { (files : Files) (t : TableRecord) → ArePixels (pictures_of files t) }
    ensures coloured { (files : Files) (s : SceneRecord) → AreColouredAsWritten s (pictures_of files (table_of s)) }
{
    files_without_fault_hold_drawings();
}
