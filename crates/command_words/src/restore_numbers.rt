// The numbers of an array that is restored.
ghost use Rattle.std.specs.Prelude.{◌≤◌};

/// The numbers of the array, whether in range or not, but for the pairs. Those that are not said follow from the records.
#[derive(Clone, Copy, Debug, PartialEq, Eq)]
pub struct RestoreNumbers {
    /// Loggers.
    pub loggers: Option<u16>,
    /// Transaction numbers.
    pub numbers: u16,
    /// Log entries per transaction number and logger.
    pub entries: u16,
    /// Pages of 512 bytes per logger.
    pub pages: Option<u16>,
    /// Pairs in a page of an index, 15 to 30.
    pub fill: u8,
    ghost filled: { (15 ≤ fill) × (fill ≤ 30) },
}
