// The lines that a trace prints (document 01, 'Trace program'): from an answer to a line.
#![tactic(auto)]

ghost use Rattle.std.specs.Prelude.{◌≡◌};
ghost use Rattle.lines.specs.Lines.{bare, figure_of, line_of_access};

use figures::Outcome;

// The mark for none in an answer. Kept: `Outcome` has the numbers of the C interface, and `line_of_access` speaks of them.
const NONE: u32 = 65535;

// What a line has after the step; None where it has `-`.
#[derive(Clone, Copy)]
pub struct Line {
    // the refusal's number, or 0
    pub number: u32,
    pub place: Option<u64>,
    // the slot moved to
    pub slot: Option<u64>,
    // the row sent home
    pub row: Option<u64>,
}

impl Line {
    // The line of a tick or a refusal.
    pub fn bare(number: u32) -> Line
        ensures { result ≡ bare number }
    {
        Line {
            number,
            place: None,
            slot: None,
            row: None,
        }
    }
}

// The figure of a slot or a row.
fn figure_of(x: u32) -> Option<u64>
    ensures { result ≡ figure_of x }
{
    if x == NONE { None } else { Some(x as u64) }
}

// The line of a read.
impl From<Outcome> for Line {
    ghost from_gives = { λ outcome line. line ≡ line_of_access outcome };

    fn from(outcome: Outcome) -> Line {
        if outcome.number != 0 {
            return Line::bare(outcome.number);
        }
        Line {
            number: 0,
            place: Some(outcome.place),
            slot: figure_of(outcome.slot),
            row: figure_of(outcome.row),
        }
    }
}
