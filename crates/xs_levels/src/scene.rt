//! A checked scene is a table of its drawings.
ghost use Rattle.std.specs.Prelude.{◌≡◌, ℕ};
ghost use Rattle.xs_check.specs.Good.{IsGood, files_of};
ghost use Rattle.xs_meaning.specs.Drawings.{level_of};
ghost use Rattle.xs_scene.specs.Records.{SceneRecord};
ghost use Rattle.xs_levels.specs.Table.{IsTable, table_of, kind_of, kind_by};

use crate::table::FileTable;
use xs_check::GoodScene;
use xs_scene::{Colours, Kind};

impl FileTable for GoodScene {
    ghost use Rattle.xs_levels.specs.Table.{table_of};

    ghost told = { λ g. table_of g };

    fn drawings(&self) -> u32 {
        a_scene_tells_its_drawings();
        let _scene = self.scene();
        GoodScene::drawings(self)
    }

    fn file(&self, d: u32) -> &str {
        a_scene_tells_its_drawings();
        GoodScene::file(self, d).text()
    }

    fn kind(&self, d: u32) -> Kind {
        a_scene_tells_its_drawings();
        GoodScene::kind(self, d)
    }

    fn palettes(&self) -> usize {
        a_scene_tells_its_drawings();
        self.scene().palettes.items().len()
    }

    fn palette(&self, i: usize) -> &Colours {
        a_scene_tells_its_drawings();
        &self.scene().palettes.items()[i]
    }
}

/// The table of a scene has the files of its drawings by their numbers, the kinds of their levels, and the
/// scene's palettes; that of a good scene is sound.
pub fn a_scene_tells_its_drawings()
    ensures files { (s : SceneRecord) → (table_of s).files ≡ files_of s.levels }
    ensures kinds { (s : SceneRecord) (d : ℕ) → kind_of (table_of s) d ≡ kind_by (level_of s.levels d) }
    ensures palettes { (s : SceneRecord) → (table_of s).palettes ≡ s.palettes }
    ensures sound { (s : SceneRecord) → IsGood s → IsTable (table_of s) }
{}
