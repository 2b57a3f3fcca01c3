ghost use Rattle.std.specs.Prelude.{◌≡◌};
ghost use Rattle.xs_scene_text.specs.SceneText.{work_of};
ghost use Rattle.xs_scene_text.specs.SceneData.{op_word};

use xs_pixel::Op;

/// What a node does with its inputs, as the word at its `op` says.
#[derive(Clone, Copy, Debug)]
pub enum Work {
    /// It composes two inputs by the operation.
    Pair(Op),
    /// It shows one style everywhere.
    Card,
    /// It shows its input at other rows.
    Shuffle,
    /// It takes the mean of its input over squares.
    Blur,
    /// It shows its input without the styles that are not listed.
    Keep,
    /// It shows its input without the listed styles.
    Delete,
}

/// The work that a word means in a text of this format, 1 or 2; None for a word that means none there.
pub fn work_named(format: u32, word: &str) -> Option<Work>
    ensures { result ≡ work_of format word.now }
{
    match word {
        "over" => Some(Work::Pair(Op::Over)),
        "add" => Some(Work::Pair(Op::Add)),
        "sub" => Some(Work::Pair(Op::Sub)),
        "mult" => Some(Work::Pair(Op::Mult)),
        "min" => Some(Work::Pair(Op::Min)),
        "max" => Some(Work::Pair(Op::Max)),
        "in" => Some(Work::Pair(Op::MatteIn)),
        "out" => Some(Work::Pair(Op::MatteOut)),
        "card" => Some(Work::Card),
        "shuffle" => Some(Work::Shuffle),
        _ if format != 2 => None,
        "blur" => Some(Work::Blur),
        "keep" => Some(Work::Keep),
        "delete" => Some(Work::Delete),
        _ => None,
    }
}

/// The word of an operation.
pub fn op_word(op: Op) -> &'static str
    ensures { result.now ≡ op_word op }
{
    match op {
        Op::Over => "over",
        Op::Add => "add",
        Op::Sub => "sub",
        Op::Mult => "mult",
        Op::Min => "min",
        Op::Max => "max",
        Op::MatteIn => "in",
        Op::MatteOut => "out",
    }
}
