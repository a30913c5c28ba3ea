// The form of a trace file (document 01, 'Trace program'; document 02, Ask 5): from its numbers to settings and steps. A file
// without numbers is an empty trace (document 02, Ask 1). The public functions answer for any text.
#![tactic(auto)]

ghost use Rattle.std.specs.Prelude.{◌≡◌, ◌≤◌, length};
ghost use Rattle.trace_file.specs.Form.{form_of, form_within, is_empty_trace, recorded, trace_within};
ghost use Rattle.trace_file.specs.Trace.{counted};

use geometry::Settings;
use std::ops::Range;

// What a trace file says: its settings, and the places in the lent list where its steps stand. Places, and not a slice of the
// list: the promise `said` on what stands in the list is proved where the result does not borrow from it. Two numbers, and not
// a `Range`, which is not `Copy`.
#[derive(Clone, Copy)]
pub struct Trace {
    pub settings: Settings,
    // where the steps begin, and where they end
    pub start: usize,
    pub end: usize,
}

impl Trace {
    // Returns the places of the steps.
    pub fn steps(self) -> Range<usize>
        ensures start { result.start ≡ self.start }
        ensures end { result.end ≡ self.end }
    {
        self.start..self.end
    }
}

// The longest trace file, in bytes.
const MOST_BYTES: usize = 65536;

// The numbers of the longest trace.
pub const MOST_NUMBERS: usize = 4105;

// The trace with these settings, and steps at these places, if the second count is theirs.
fn with_steps(settings: Settings, count: u32, steps: Range<usize>) -> Option<Trace>
    ensures { result ≡ counted settings count steps }
{
    let whole = (count <= 4096) & (steps.len() == count as usize);
    if !whole {
        return None;
    }
    Some(Trace {
        settings,
        start: steps.start,
        end: steps.end,
    })
}

// The sections of a trace of these numbers. It has one bank where the first count is 6, and as many as the seventh setting says
// where it is 7.
#[tactic(auto, using(crate::proofs::Sections::six_form, crate::proofs::Sections::seven_form, crate::proofs::Sections::other_form))]
fn sections_of(numbers: &[u32]) -> Option<Trace>
    ensures { result ≡ form_of numbers.now }
{
    match *numbers {
        [6, n, q, w, k, a, l, count, ..] => {
            with_steps(
                Settings {
                    n,
                    q,
                    w,
                    k,
                    a,
                    l,
                    b: 1,
                },
                count,
                8..numbers.len(),
            )
        }
        [7, n, q, w, k, a, l, banks, count, ..] => {
            with_steps(
                Settings {
                    n,
                    q,
                    w,
                    k,
                    a,
                    l,
                    b: banks,
                },
                count,
                9..numbers.len(),
            )
        }
        _ => None,
    }
}

// The trace that a file's bytes are. The lent list takes the numbers: two counts, at most seven settings and at most 4,096
// steps.
pub fn parse(text: &[u8], numbers: &mut [u32]) -> Option<Trace>
    ensures form { result ≡ form_within (length numbers.old) text.now }
    ensures said { recorded result numbers.new ≡ trace_within (length numbers.old) text.now }
{
    if numbers.len() < MOST_NUMBERS {
        return None;
    }
    if MOST_BYTES < text.len() {
        return None;
    }
    let count = number_text::read_numbers(text, numbers)?;
    sections_of(&numbers[..count])
}

// Tells whether a file is an empty trace: within the length of a file, it has no bytes, or blanks and newlines alone.
#[tactic(auto, unfolding(crate::specs::Form::is_empty_trace))]
pub fn is_empty_trace(text: &[u8]) -> bool
    ensures { result ≡ is_empty_trace text.now }
{
    let blank = number_text::is_blank(text);
    (text.len() <= MOST_BYTES) & blank
}
