// The calls that only look at a row, with the control record by value: inspect. Each answers for any settings, row and lent
// memory, and writes nothing. The parameters are those of the C functions.
#![tactic(auto)]

ghost use Rattle.std.specs.Prelude.{◌≡◌, IfOk};
ghost use Rattle.refusals.specs.Refusals.{number_in};
ghost use Rattle.geometry.specs.Numbering.{physical};
ghost use Rattle.engine.specs.State.{entering};
ghost use Rattle.engine.specs.Steps.{place};
ghost use Rattle.engine.specs.Ladder.{inspect_number};
ghost use Rattle.figures.specs.Promises.{InspectSpanPromise, InspectPartPromise};

use figures::Span;
use geometry::{Control, PhysicalRow, Settings, VisibleRow};
use refusals::Refusal;

// Refuses with the first number that applies to an inspect of a row. It is inlined, as the call of it would copy the
// record of 136 bytes on the stack.
#[tactic(auto, using(ladder::proofs::Rules::rungs, crate::proofs::Serves::rows_few), unfolding(engine::specs::Ladder::inspect_number))]
#[inline(always)]
pub fn check_inspect(
    control: Control,
    s: Settings,
    row: u32,
    store: &[u8],
    forward: &[u16],
    reverse: &[u16],
    rows: &[u16],
    counts: &[u32],
) -> Result<(), Refusal>
    ensures { number_in result ≡ inspect_number s (entering store forward reverse rows counts control) row }
{
    let lengths = geometry::lengths_of(store, forward, reverse, rows, counts);
    ladder::check_control(s, lengths, control, counts)?;
    ladder::check_row(s, ladder::look_asked(row), forward, reverse)
}

// Returns the place of a row (step 1) where an inspect of it is not refused.
#[tactic(auto, using(crate::proofs::Serves::places))]
#[inline(always)]
fn place_of(
    control: Control,
    s: Settings,
    row: u32,
    store: &[u8],
    forward: &[u16],
    reverse: &[u16],
    rows: &[u16],
    counts: &[u32],
) -> Result<PhysicalRow, Refusal>
    ensures number { number_in result ≡ inspect_number s (entering store forward reverse rows counts control) row }
    ensures place { let lent = entering store forward reverse rows counts control in
        IfOk result (λ p. p ≡ physical (place s lent row)) }
{
    check_inspect(control, s, row, store, forward, reverse, rows, counts)?;
    Ok(geometry::place(s, VisibleRow(row as u16), ladder::forward_of(forward, row)))
}

// Returns inspect's part: the row's bytes where they lie in the store, none of them where it is refused.
pub fn inspect_part<'a>(
    control: Control,
    s: Settings,
    row: u32,
    store: &'a [u8],
    forward: &[u16],
    reverse: &[u16],
    rows: &[u16],
    counts: &[u32],
) -> &'a [u8]
    ensures { let lent = entering store forward reverse rows counts control in
        InspectPartPromise s lent row store.entry.ref_ptr result.now result.ref_ptr }
{
    match place_of(control, s, row, store, forward, reverse, rows, counts) {
        Ok(place) => row_bytes::row_part(store, s.w as usize, place),
        Err(_) => &store[..0],
    }
}

// Returns where inspect's part lies in the store.
pub fn inspect_span(
    control: Control,
    s: Settings,
    row: u32,
    store: &[u8],
    forward: &[u16],
    reverse: &[u16],
    rows: &[u16],
    counts: &[u32],
) -> Span
    ensures { InspectSpanPromise s (entering store forward reverse rows counts control) row result }
{
    match place_of(control, s, row, store, forward, reverse, rows, counts) {
        Ok(place) => {
            let w = s.w as usize;
            Span {
                start: place.0 as usize * w,
                length: w,
            }
        }
        Err(_) => Span {
            start: 0,
            length: 0,
        },
    }
}
