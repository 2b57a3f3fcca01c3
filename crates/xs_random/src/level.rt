use crate::failure::Failure;
use crate::made::made;
use crate::random::Random;
use std::alloc::Global;
use xs_base::List;
use xs_scene::{Colours, Kind, Level, Name};

/// The names of the files of one or two drawings of a level.
fn names(alloc: Global, random: &mut Random, level: u32) -> Result<List<Name>, Failure> {
    let mut names = Vec::new(alloc);
    for number in 0..random.from_to(1, 2) {
        let name = format!(in alloc; "{level}-{number}.xrl")?;
        names.push(made(Name::new(name))?)?;
    }
    Ok(List::of(names))
}

/// What the drawings of a level hold.
fn kind(random: &mut Random, palettes: &List<Colours>, words_alone: bool) -> Kind {
    if words_alone || random.one_in(2) {
        Kind::Cm32(random.one_of(palettes.items()))
    } else {
        Kind::Colour
    }
}

/// One to three levels, of colour or of CM32 drawings.
pub fn levels(
    alloc: Global,
    random: &mut Random,
    palettes: &List<Colours>,
    words_alone: bool,
) -> Result<List<Level>, Failure> {
    let mut levels = Vec::new(alloc);
    for number in 0..random.from_to(1, 3) {
        let kind = kind(random, palettes, words_alone);
        let names = names(alloc, random, number)?;
        levels.push(made(Level::new(kind, names))?)?;
    }
    Ok(List::of(levels))
}
