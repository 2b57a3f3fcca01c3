ghost use Rattle.std.specs.Prelude.{◌≡◌, ◌<◌, Some, length, slice_get};
ghost use Rattle.xs_levels.specs.Table.{TableRecord, IsTable, file_of, kind_of};

use xs_scene::{Colours, Kind};

/// Drawings by their numbers, from 0: the names of their files and their kinds, and the palettes under
/// which CM32 drawings are seen.
pub trait FileTable {
    /// The table as contracts see it.
    ghost told: { Self → TableRecord };

    /// How many drawings there are; and what may be relied on in a table.
    fn drawings(&self) -> u32
        ensures count { result ≡ length (told self.now).files }
        ensures sound { IsTable (told self.now) };

    /// The name of a drawing's file.
    fn file(&self, d: u32) -> &str
        requires { d < length (told self.now).files }
        ensures { result.now ≡ file_of (told self.now) d };

    /// The kind of a drawing, with the number of its palette, if it is one of CM32.
    fn kind(&self, d: u32) -> Kind
        requires { d < length (told self.now).files }
        ensures { result ≡ kind_of (told self.now) d };

    /// How many palettes there are.
    fn palettes(&self) -> usize
        ensures count { result ≡ length (told self.now).palettes }
        ensures sound { IsTable (told self.now) };

    /// A palette by its number, from 0.
    fn palette(&self, i: usize) -> &Colours
        requires { i < length (told self.now).palettes }
        ensures { slice_get (told self.now).palettes i ≡ Some result.now };
}
