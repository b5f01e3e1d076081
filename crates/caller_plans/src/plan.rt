// What a caller plans.
use history::{Key, TableCall};
use mars_base::Listed;

/// The calls within a transaction, in the order in which a caller makes them.
pub type Asked = Listed<TableCall>;

/// Keys in the order in which a reader asks for them.
pub type Keys = Listed<Key>;

/// The transactions of a caller, in the order of the script.
pub type Plans = Listed<Plan>;

/// How a planned transaction ends.
#[derive(Clone, Copy, Debug, PartialEq, Eq)]
pub enum PlanEnd {
    Commit,
    Abort,
    /// It is offered, and then settled.
    Offer,
    /// The script ends within it.
    Unended,
}

/// A transaction as a script has it: the calls between begin and end, and how it ends.
#[derive(Debug, Drop)]
pub struct Plan {
    pub calls: Asked,
    pub end: PlanEnd,
}
