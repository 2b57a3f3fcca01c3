//! Laws of the drawings that a render asks for.
ghost use Rattle.std.specs.Prelude.{◌≡◌, ◌≤◌, ◌<◌, ◌↔◌, ◌++◌, ◌∷◌, [], ℕ, List, None, map};
ghost use Rattle.xs_base.specs.Once.{each_once};
ghost use Rattle.xs_base.specs.Sections.{rows_of};
ghost use Rattle.xs_check.specs.Passes.{first_fault};
ghost use Rattle.xs_meaning.specs.Expressions.{needed};
ghost use Rattle.xs_rawfile.specs.declared.fault.LevelCode.{LevelCode};
ghost use Rattle.xs_scene.specs.Records.{SceneRecord};
ghost use Rattle.xs_top.specs.declared.status.Status.TheVariants as answers;
ghost use Rattle.xs_top.specs.Trace.{Event, Ask, asks, puts};
ghost use Rattle.xs_levels.specs.Films.{Files};
ghost use Rattle.xs_top.specs.Finished.{Says, IsAccepted};
ghost use Rattle.xs_dryrun.specs.declared.limits.What.TheVariants as what;
ghost use Rattle.xs_top.specs.declared.limits.TheConstants.{MOST_SECTION_BYTES};
ghost use Rattle.xs_top.specs.Demand.{limit_in};
ghost use Rattle.xs_top.specs.Drawings.{file_of};
ghost use Rattle.xs_top.specs.Loads.{loads, StopsAt};
ghost use Rattle.xs_top.specs.Refused.{IsRefused, IsAskedBehind};
ghost use Rattle.xs_top.specs.Outcome.{rendering};

use xs_base::laws::each_number_is_taken_once;

/// The scene is asked for first. Then each drawing is asked for when exactly the frames of the sections before
/// the first one that needs it stand on the shelf.
pub fn drawings_are_asked_for_in_their_section()
    ensures scene { (files : Files) (name base : List ℕ) (from to : ℕ)
        → (events : List Event) × ((rendering files name from to base).work ≡ Ask name ∷ events) }
    ensures drawing { (files : Files) (name base : List ℕ) (s : SceneRecord) (from to : ℕ)
        → Says files name s → (done rest : List Event) (asked : List ℕ)
        → (rendering files name from to base).work ≡ Ask name ∷ (done ++ Ask asked ∷ rest)
        → IsAskedBehind files s base from to asked (puts done) }
{}

/// A drawing is told exactly where its file is refused, with its own number and code, and each one before it, in the
/// order in which they are asked for, is loaded. Then the scene was asked for and the drawings up to this one, each once.
pub fn the_first_refused_drawing_is_told()
    ensures told { (files : Files) (name base : List ℕ) (s : SceneRecord) (from to d : ℕ) (code : LevelCode)
        → Says files name s → first_fault s ≡ None → limit_in s from to ≡ None
        → ((rendering files name from to base).status ≡ answers.Level d code)
        ↔ ((bytes : ℕ) × StopsAt files s from to (d, bytes) × IsRefused files s d code) }
    ensures asked { (files : Files) (name base : List ℕ) (s : SceneRecord) (from to d : ℕ) (code : LevelCode)
        → Says files name s → first_fault s ≡ None → limit_in s from to ≡ None
        → (rendering files name from to base).status ≡ answers.Level d code → (bytes : ℕ) × (stops : StopsAt files s from to (d, bytes))
        × (asks (rendering files name from to base).work ≡ name ∷ map (file_of s) (map (λ load. load.0) stops.before ++ d ∷ [])) }
{}

/// That a section has too many bytes is told exactly where a drawing is accepted with which it has more than it may
/// hold, and each one before it is loaded.
pub fn the_first_drawing_past_the_limit_is_told()
    ensures { (files : Files) (name base : List ℕ) (s : SceneRecord) (from to limit : ℕ)
        → Says files name s → first_fault s ≡ None → limit_in s from to ≡ None
        → ((rendering files name from to base).status ≡ answers.Limit what.SectionBytes limit)
        ↔ ((limit ≡ MOST_SECTION_BYTES) × ((load : ℕ × ℕ) × StopsAt files s from to load × IsAccepted files s load.0
        × (MOST_SECTION_BYTES < load.1))) }
{}

/// The drawings that rows load are those that they need, each once, in the order in which the rows need them.
pub fn the_drawings_of_rows_are_loaded_once()
    ensures { (files : Files) (s : SceneRecord) (from to : ℕ) → from ≤ to
        → map (λ load. load.0) (loads files s from to) ≡ each_once (needed s (rows_of from to)) }
{
    each_number_is_taken_once();
}
