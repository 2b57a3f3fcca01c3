use xs_scene::Name;

/// What the program is asked to do. Rows are from 1 to 9999, the last at most 4095 after the first, and
/// workers are threads, from 1 to 64.
#[derive(Debug, Drop)]
pub enum Command {
    /// Render rows `from` to `to` of a scene into frames whose names begin with `base`.
    Render {
        scene: Name,
        from: u32,
        to: u32,
        workers: u32,
        base: Name,
    },
    /// Print what rendering these rows takes, and render nothing.
    Dry {
        scene: Name,
        from: u32,
        to: u32,
    },
    /// Print the scene in its canonical form.
    Show {
        scene: Name,
    },
    /// Render the first rows, 1 to 240, of a scene that is generated from a number below 1,000,000,000.
    Make {
        seed: u32,
        rows: u32,
        workers: u32,
    },
    /// Render these rows, the last at most 2047 after the first, of one scene, and then of another over
    /// the tiles that it shares with the first.
    Again {
        old: Name,
        new: Name,
        from: u32,
        to: u32,
        workers: u32,
        base: Name,
    },
}
