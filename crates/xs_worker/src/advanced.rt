/// How far a worker came.
#[derive(Clone, Copy, Debug, PartialEq, Eq)]
pub enum Advanced {
    /// Every target is known to be ready.
    Finished,
    /// Another seat has this alias claimed, or was taking its tile just then.
    Blocked(u32),
    /// This alias was given up, so the targets can't be led to ready.
    Lost(u32),
}
