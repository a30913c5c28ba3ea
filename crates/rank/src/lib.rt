// The face of the engine: thin entry functions over a control record that the caller lends; crate `rank_c` exports them to C
// (see include/aqua.h). They answer for any settings, arguments and lent memory; a refusal leaves everything as it was.
// What each promises is one definition of crate `figures` (specs/Promises.antt); the theorem about them (crate `served`)
// supposes these and nothing else. Rattle code may hold the record by value and call the crates `epoch`, `look` and
// `access` instead. The two sizing sums, which need no record, stand in `sums`. Kept, for the C interface: numbers for refusals,
// each slice a parameter, and functions of one shape, here and in `rank_c`.
#![tactic(auto)]

ghost use Rattle.std.specs.Prelude.{◌≡◌, ◌<◌, IfOk};
ghost use Rattle.refusals.specs.Refusals.{number_in};
ghost use Rattle.banks.specs.Banks.{most_banks};
ghost use Rattle.engine.specs.State.{state_of, entering};
ghost use Rattle.epoch.specs.After.{control_after};
ghost use Rattle.access.specs.Answers.{reply_of, control_after as accessed_after};
ghost use Rattle.figures.specs.Outcome.{outcome_of};
ghost use Rattle.figures.specs.Promises.{SetUpPromise, ReadPromise, WritePromise, TickPromise};
ghost use Rattle.figures.specs.Promises.{InspectNumberPromise, InspectSpanPromise, InspectPartPromise};

use access::Accepted;
use figures::{Outcome, Span};
use geometry::{Control, Settings};
use refusals::Refusal;
pub use sums::{aqua_least_size, aqua_most_activations};

mod sums;

// Puts the record that a set-up or a tick answers in the place of the one before, and returns the number.
fn take_over(control: &mut Control, answer: Result<Control, Refusal>) -> u32
    ensures control { control.new ≡ control_after control.old answer }
    ensures number { result ≡ number_in answer }
{
    match answer {
        Ok(next) => {
            *control = next;
            0
        }
        Err(refusal) => refusal.number(),
    }
}

// Puts what an accepted access changes into the record, and returns the answer in numbers. To copy the whole record back was
// a tenth of an access.
#[inline(always)]
fn put_back(control: &mut Control, answer: Result<Accepted, Refusal>) -> Outcome
    requires { IfOk answer (λ a. a.bank.index < most_banks) }
    ensures control { control.new ≡ accessed_after control.old answer }
    ensures outcome { result ≡ outcome_of (reply_of answer) }
{
    match answer {
        Ok(accepted) => {
            let bank = accepted.bank;
            control.head = accepted.ring.head;
            control.passed = accepted.ring.passed;
            control.spill[bank.index] = bank.spill;
            control.acts[bank.index] = bank.acts;
            Outcome::from(Ok(accepted.served))
        }
        Err(refusal) => Outcome::from(Err(refusal)),
    }
}

// Begins a new history, and returns the number.
pub fn aqua_set_up(
    control: &mut Control,
    s: Settings,
    store: &[u8],
    forward: &mut [u16],
    reverse: &mut [u16],
    rows: &mut [u16],
    counts: &mut [u32],
) -> u32
    ensures { let before = state_of store.now forward.old reverse.old rows.old counts.old control.old in
        let after = state_of store.now forward.new reverse.new rows.new counts.new control.new in
        SetUpPromise s before after result }
{
    let answer = epoch::set_up(*control, s, store, forward, reverse, rows, counts);
    take_over(control, answer)
}

// Reads a row: returns the answer in numbers, and fills the buffer where the number is 0.
pub fn aqua_read(
    control: &mut Control,
    s: Settings,
    row: u32,
    buffer: &mut [u8],
    store: &mut [u8],
    forward: &mut [u16],
    reverse: &mut [u16],
    rows: &mut [u16],
    counts: &mut [u32],
) -> Outcome
    ensures { let before = state_of store.old forward.old reverse.old rows.old counts.old control.old in
        let after = state_of store.new forward.new reverse.new rows.new counts.new control.new in
        ReadPromise s before row buffer.old after result buffer.new }
{
    let answer = access::read(
        *control, s, row, buffer, store, forward, reverse, rows, counts,
    );
    put_back(control, answer)
}

// Writes bytes into a row from a column on, and returns the answer in numbers.
pub fn aqua_write(
    control: &mut Control,
    s: Settings,
    row: u32,
    column: usize,
    bytes: &[u8],
    store: &mut [u8],
    forward: &mut [u16],
    reverse: &mut [u16],
    rows: &mut [u16],
    counts: &mut [u32],
) -> Outcome
    ensures { let before = state_of store.old forward.old reverse.old rows.old counts.old control.old in
        let after = state_of store.new forward.new reverse.new rows.new counts.new control.new in
        WritePromise s before row column bytes.now after result }
{
    let answer = access::write(
        *control, s, row, column, bytes, store, forward, reverse, rows, counts,
    );
    put_back(control, answer)
}

// Ends the epoch, and returns the number.
pub fn aqua_tick(
    control: &mut Control,
    s: Settings,
    store: &[u8],
    forward: &[u16],
    reverse: &[u16],
    rows: &mut [u16],
    counts: &mut [u32],
) -> u32
    ensures { let before = state_of store.now forward.now reverse.now rows.old counts.old control.old in
        let after = state_of store.now forward.now reverse.now rows.new counts.new control.new in
        TickPromise s before after result }
{
    let answer = epoch::tick(*control, s, store, forward, reverse, rows, counts);
    take_over(control, answer)
}

// Inspect, by its first call: returns the number.
pub fn aqua_inspect_number(
    control: &Control,
    s: Settings,
    row: u32,
    store: &[u8],
    forward: &[u16],
    reverse: &[u16],
    rows: &[u16],
    counts: &[u32],
) -> u32
    ensures { let lent = entering store forward reverse rows counts control.now in
        InspectNumberPromise s lent row result }
{
    match look::check_inspect(*control, s, row, store, forward, reverse, rows, counts) {
        Ok(()) => 0,
        Err(refusal) => refusal.number(),
    }
}

// Inspect, by its second call: returns the part of the store that holds the row, of length 0 where the number is not 0.
pub fn inspect_part<'a>(
    control: &Control,
    s: Settings,
    row: u32,
    store: &'a [u8],
    forward: &[u16],
    reverse: &[u16],
    rows: &[u16],
    counts: &[u32],
) -> &'a [u8]
    ensures { let lent = entering store forward reverse rows counts control.now in
        InspectPartPromise s lent row store.entry.ref_ptr result.now result.ref_ptr }
{
    look::inspect_part(*control, s, row, store, forward, reverse, rows, counts)
}

// Inspect, by its second call, for C: returns where that part lies, and 0 and 0 where the number is not 0.
pub fn aqua_inspect_span(
    control: &Control,
    s: Settings,
    row: u32,
    store: &[u8],
    forward: &[u16],
    reverse: &[u16],
    rows: &[u16],
    counts: &[u32],
) -> Span
    ensures { let lent = entering store forward reverse rows counts control.now in
        InspectSpanPromise s lent row result }
{
    look::inspect_span(*control, s, row, store, forward, reverse, rows, counts)
}
