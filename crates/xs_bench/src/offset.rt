ghost use Rattle.xs_plan.specs.Valid.{IsOffset};

/// How far a drawing is moved.
#[derive(Clone, Copy)]
pub(crate) struct Offset {
    /// To the right.
    pub(crate) x: i32,
    /// Up.
    pub(crate) y: i32,
    ghost near_x: { IsOffset x },
    ghost near_y: { IsOffset y },
}
