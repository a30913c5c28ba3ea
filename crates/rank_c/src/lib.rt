// What C links (see include/aqua.h): the functions of crate `rank` by their C names, each with the promise of its function.
#![tactic(auto)]

ghost use Rattle.engine.specs.State.{state_of, entering};
ghost use Rattle.figures.specs.Promises.{SetUpPromise, ReadPromise, WritePromise, TickPromise};
ghost use Rattle.figures.specs.Promises.{InspectNumberPromise, InspectSpanPromise};

use figures::{Outcome, Span};
use geometry::{Control, Settings};

mod sums;

// Begins a new history, and returns the number.
#[unsafe(no_mangle)]
pub extern "C" fn aqua_set_up(
    control: &mut Control,
    s: Settings,
    store: &[u8],
    forward: &mut [u16],
    reverse: &mut [u16],
    rows: &mut [u16],
    counts: &mut [u32],
) -> u32
    ensures { let before = state_of store.now forward.old reverse.old rows.old counts.old control.old in
        let after = state_of store.now forward.new reverse.new rows.new counts.new control.new in
        SetUpPromise s before after result }
{
    rank::aqua_set_up(control, s, store, forward, reverse, rows, counts)
}

// Reads a row: returns the answer in numbers, and fills the buffer where the number is 0.
#[unsafe(no_mangle)]
pub extern "C" fn aqua_read(
    control: &mut Control,
    s: Settings,
    row: u32,
    buffer: &mut [u8],
    store: &mut [u8],
    forward: &mut [u16],
    reverse: &mut [u16],
    rows: &mut [u16],
    counts: &mut [u32],
) -> Outcome
    ensures { let before = state_of store.old forward.old reverse.old rows.old counts.old control.old in
        let after = state_of store.new forward.new reverse.new rows.new counts.new control.new in
        ReadPromise s before row buffer.old after result buffer.new }
{
    rank::aqua_read(
        control, s, row, buffer, store, forward, reverse, rows, counts,
    )
}

// Writes bytes into a row from a column on, and returns the answer in numbers.
#[unsafe(no_mangle)]
pub extern "C" fn aqua_write(
    control: &mut Control,
    s: Settings,
    row: u32,
    column: usize,
    bytes: &[u8],
    store: &mut [u8],
    forward: &mut [u16],
    reverse: &mut [u16],
    rows: &mut [u16],
    counts: &mut [u32],
) -> Outcome
    ensures { let before = state_of store.old forward.old reverse.old rows.old counts.old control.old in
        let after = state_of store.new forward.new reverse.new rows.new counts.new control.new in
        WritePromise s before row column bytes.now after result }
{
    rank::aqua_write(
        control, s, row, column, bytes, store, forward, reverse, rows, counts,
    )
}

// Ends the epoch, and returns the number.
#[unsafe(no_mangle)]
pub extern "C" fn aqua_tick(
    control: &mut Control,
    s: Settings,
    store: &[u8],
    forward: &[u16],
    reverse: &[u16],
    rows: &mut [u16],
    counts: &mut [u32],
) -> u32
    ensures { let before = state_of store.now forward.now reverse.now rows.old counts.old control.old in
        let after = state_of store.now forward.now reverse.now rows.new counts.new control.new in
        TickPromise s before after result }
{
    rank::aqua_tick(control, s, store, forward, reverse, rows, counts)
}

// Inspect, by its first call: returns the number.
#[unsafe(no_mangle)]
pub extern "C" fn aqua_inspect_number(
    control: &Control,
    s: Settings,
    row: u32,
    store: &[u8],
    forward: &[u16],
    reverse: &[u16],
    rows: &[u16],
    counts: &[u32],
) -> u32
    ensures { let lent = entering store forward reverse rows counts control.now in
        InspectNumberPromise s lent row result }
{
    rank::aqua_inspect_number(control, s, row, store, forward, reverse, rows, counts)
}

// Inspect, by its second call, for C: returns where that part lies, and 0 and 0 where the number is not 0.
#[unsafe(no_mangle)]
pub extern "C" fn aqua_inspect_span(
    control: &Control,
    s: Settings,
    row: u32,
    store: &[u8],
    forward: &[u16],
    reverse: &[u16],
    rows: &[u16],
    counts: &[u32],
) -> Span
    ensures { let lent = entering store forward reverse rows counts control.now in
        InspectSpanPromise s lent row result }
{
    rank::aqua_inspect_span(control, s, row, store, forward, reverse, rows, counts)
}
