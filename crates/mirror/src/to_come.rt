// What of a frame is still to come.
ghost use Rattle.std.specs.Prelude.{◌≡◌, length};

/// The groups of a frame that are still to come.
#[derive(Clone, Copy)]
pub(crate) struct Groups {
    pub count: u16,
    /// The least number that the next may have.
    pub low: u8,
}

/// The parts of a group that are still to come.
#[derive(Clone, Copy)]
pub(crate) struct Parts {
    pub count: u16,
    /// How many parts of the group each logger has.
    pub held: [u16; 8],
    /// The groups behind them.
    pub behind: Groups,
    ghost loggers: { length held ≡ 8 },
}
