ghost use Rattle.std.specs.Prelude.{◌≡◌, IfOk, length};
ghost use Rattle.xs_random.specs.declared.files.TheConstants.{MOST};

use crate::drawing::drawing;
use crate::failure::Failure;
use crate::random::Random;
use std::alloc::Global;
use std::marker::Brand;
use xs_base::List;
use xs_outside::Object;
use xs_palette::Palette;
use xs_rawfile::{Drawing, Drawings, RawKind, write_level};
use xs_scene::{Kind, Level, Name, Scene};

/// The most drawings of a scene.
const MOST: u32 = 6;

/// One palette without styles. The plain evaluator colours words by the palettes of the scene, whatever palette their
/// drawing is held with.
fn no_styles(alloc: Global) -> Result<List<Palette>, Failure>
    ensures { IfOk result (λ list. length list ≡ 1) }
{
    let Ok(palette) = Palette::from_styles(alloc, &[]) else {
        return Err(Failure::Memory);
    };
    Ok(List::of(vec![in alloc; palette]?))
}

/// The drawings of a scene, each as a file and as it is held.
#[derive(Drop)]
pub struct Stock {
    files: Vec<Object>,
    drawings: Drawings<Brand>,
    count: u32,
    ghost slots: { length drawings.slots ≡ MOST },
    ghost palettes: { length drawings.palettes ≡ 1 },
}

impl Stock {
    /// No drawing yet.
    fn new(alloc: Global) -> Result<Stock, Failure> {
        let palettes = no_styles(alloc)?;
        let drawings = Drawings::<Brand>::new(alloc, MOST, palettes)?;
        Ok(Stock {
            files: Vec::new(alloc),
            drawings,
            count: 0,
        })
    }

    /// Puts a drawing behind the others.
    fn put(&mut self, alloc: Global, name: &Name, drawing: Drawing) -> Result<(), Failure> {
        if self.count >= MOST {
            return Err(Failure::OutOfRange);
        }
        let bytes = write_level(alloc, &drawing)?;
        let file = Object::new(alloc, name.text(), bytes.as_slice())?;
        self.files.push(file)?;
        self.drawings.set(self.count, drawing, Some(0));
        self.count += 1;
        Ok(())
    }

    /// Draws the drawings of a level.
    fn draw_level(
        &mut self,
        alloc: Global,
        random: &mut Random,
        level: &Level,
    ) -> Result<(), Failure> {
        let kind = match level.kind {
            Kind::Colour => RawKind::Colour,
            Kind::Cm32(_) => RawKind::Cm32,
        };
        for name in level.drawings.items() {
            let drawing = drawing(alloc, random, kind)?;
            self.put(alloc, name, drawing)?;
        }
        Ok(())
    }

    /// Draws the drawings of a scene.
    pub fn draw(alloc: Global, random: &mut Random, scene: &Scene) -> Result<Stock, Failure> {
        let mut stock = Stock::new(alloc)?;
        for level in scene.levels.items() {
            stock.draw_level(alloc, random, level)?;
        }
        Ok(stock)
    }

    /// The files, and the drawings that are held.
    pub fn into_parts(self) -> (Vec<Object>, Drawings<Brand>) {
        let Stock {
            files,
            drawings,
            count: _,
        } = self;
        (files, drawings)
    }
}
