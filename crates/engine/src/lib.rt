// What the engine of one rank is asked and answers. What each call does and answers stands in specs/: `Steps` (one access),
// `Ladder` (the refusals) and `Calls` (the five calls). The code that meets it: crates `ladder`, `verdict`, `seek`,
// `settle`, `epoch`, `look` and `access`. A refusal is a `Refusal` in the code and its number in the definitions.
#![tactic(auto)]

use geometry::{PhysicalRow, Slot, VisibleRow};

// What is asked of a row.
#[derive(Clone, Copy)]
pub struct Asked {
    // the row, whatever its number
    pub row: u32,
    // whether its span is off, by which the calls differ
    pub off: bool,
}

// Where an accepted access left its row.
#[derive(Clone, Copy)]
pub enum Move {
    // where it was
    Stayed,
    // in an empty slot
    ToSlot(Slot),
    // in a slot whose row was sent home
    OverSlot(Slot, VisibleRow),
}

// The answer of an accepted read or write.
#[derive(Clone, Copy)]
pub struct Served {
    // the place that the row had
    pub place: PhysicalRow,
    // the tracker's estimate after the access, 0 for none
    pub estimate: u32,
    // where the row was left
    pub moved: Move,
}
