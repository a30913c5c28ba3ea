// The engine's answers in numbers, for callers that cannot take an enum or a slice: what the C functions answer.
#![tactic(auto)]

ghost use Rattle.std.specs.Prelude.{◌≡◌};
ghost use Rattle.refusals.specs.Refusals.{numbered};
ghost use Rattle.figures.specs.Outcome.{outcome_of};
ghost use Rattle.figures.specs.Sum.{sum_of};

use engine::{Move, Served};
use refusals::Refusal;

// The mark for none in an answer.
const NONE: u32 = 65535;

// The answer of a read or a write, in numbers.
#[repr(C)]
#[derive(Clone, Copy)]
pub struct Outcome {
    // the refusal's number, 0 where the access was accepted
    pub number: u32,
    // the slot moved to, 65535 for none
    pub slot: u32,
    // the row sent home, 65535 for none
    pub row: u32,
    // the tracker's estimate after the access, 0 for none and in a refusal
    pub estimate: u32,
    // the place that the row had, 0 in a refusal
    pub place: u64,
}

// A refused access has none, and 0 in every other figure but the number.
impl From<Result<Served, Refusal>> for Outcome {
    ghost from_gives = { λ reply outcome. outcome ≡ outcome_of (numbered reply) };

    fn from(reply: Result<Served, Refusal>) -> Outcome {
        match reply {
            Ok(served) => {
                let (slot, row) = match served.moved {
                    Move::Stayed => (NONE, NONE),
                    Move::ToSlot(slot) => (slot.0 as u32, NONE),
                    Move::OverSlot(slot, row) => (slot.0 as u32, row.0 as u32),
                };
                Outcome {
                    number: 0,
                    slot,
                    row,
                    estimate: served.estimate,
                    place: served.place.0,
                }
            }
            Err(refusal) => Outcome {
                number: refusal.number(),
                slot: NONE,
                row: NONE,
                estimate: 0,
                place: 0,
            },
        }
    }
}

// Where inspect's part lies in the store, for callers that cannot take a slice.
#[repr(C)]
#[derive(Clone, Copy)]
pub struct Span {
    pub start: usize,
    pub length: usize,
}

// The answer of a sizing sum, in numbers.
#[repr(C)]
#[derive(Clone, Copy)]
pub struct Sum {
    // 1 where an argument is outside its range, else 0
    pub number: u32,
    // 0 in a refusal
    pub value: u64,
}

// A refused sum has the value 0.
impl From<Result<u64, Refusal>> for Sum {
    ghost from_gives = { λ answer sum. sum ≡ sum_of answer };

    fn from(answer: Result<u64, Refusal>) -> Sum {
        match answer {
            Ok(value) => Sum { number: 0, value },
            Err(refusal) => Sum {
                number: refusal.number(),
                value: 0,
            },
        }
    }
}
