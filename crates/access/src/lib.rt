// Read and write. Each answers for any settings, arguments and lent memory; where it refuses, nothing lent is written. The
// control record comes by value, and what an accepted access changes in it is given back as numbers: the ring, and one bank
// with its numbers; `record_after` tells the record after any answer. Both judge the access, then serve the bytes, then finish
// it: they stay two, as their parameters and promises differ. The lent slices stay parameters, as the C functions take them.
#![tactic(auto)]

ghost use Rattle.std.specs.Prelude.{◌≡◌, ◌<◌, Ok, IfOk};
ghost use Rattle.refusals.specs.Refusals.{numbered};
ghost use Rattle.banks.specs.Banks.{most_banks, with_bank};
ghost use Rattle.engine.specs.State.{state_of, ring_of};
ghost use Rattle.engine.specs.Steps.{state_after};
ghost use Rattle.engine.specs.Ladder.{look_asked};
ghost use Rattle.engine.specs.Calls.{served};
ghost use Rattle.figures.specs.Outcome.{outcome_of};
ghost use Rattle.figures.specs.Promises.{ReadPromise, WritePromise};
ghost use Rattle.access.specs.Answers.{reply_of, control_after};
ghost use Rattle.access.specs.Judging.{judged, done_of};

use banks::Bank;
use engine::{Asked, Move, Served};
use geometry::{Control, Ring, Settings, VisibleRow};
use refusals::Refusal;
use verdict::{Destination, Found};

// What an accepted access answers, and what it leaves in the control record: the ring, and a bank's numbers.
#[derive(Clone, Copy)]
pub struct Accepted {
    pub served: Served,
    pub ring: Ring,
    pub bank: Bank,
}

// What is found and decided of an access that is accepted, before the bytes.
#[derive(Clone, Copy)]
struct Judged {
    found: Found,
    // where the row goes, if it is quarantined
    goes: Option<Destination>,
}

// Returns where the quarantine stands.
fn ring_of(control: Control) -> Ring
    ensures { result ≡ ring_of control }
{
    Ring {
        head: control.head,
        passed: control.passed,
    }
}

// Judges an access: it is refused by the first row of the table of refusals that applies, if one does.
#[inline(always)]
fn judge(
    control: Control,
    s: Settings,
    asked: Asked,
    store: &[u8],
    forward: &[u16],
    reverse: &[u16],
    rows: &[u16],
    counts: &[u32],
) -> Result<Judged, Refusal>
    ensures { numbered result
        ≡ judged s (state_of store.now forward.now reverse.now rows.now counts.now control) asked }
{
    let lengths = geometry::lengths_of(store, forward, reverse, rows, counts);
    ladder::check_control(s, lengths, control, counts)?;
    ladder::check_row(s, asked, forward, reverse)?;
    let row = VisibleRow(asked.row as u16);
    let entry = ladder::forward_of(forward, asked.row);
    let place = geometry::place(s, row, entry);
    let bank = banks::bank_at(s, control, place);
    if verdict::is_full(s, bank.acts) {
        return Err(Refusal::Epoch);
    }
    let entry_changed = tracker::find(place, s.k as usize, bank, rows, counts);
    let update = tracker::update_of(entry_changed, counts);
    let found = Found {
        row,
        entry,
        place,
        bank,
        update,
    };
    match update {
        Some(u) if verdict::is_due(s, u.estimate) => {
            let ring = ring_of(control);
            let d = verdict::decide(s, ring, entry, u.entry, forward, reverse, rows, counts)?;
            Ok(Judged {
                found,
                goes: Some(d),
            })
        }
        _ => Ok(Judged { found, goes: None }),
    }
}

// Returns what an accepted access gives back: the bank's `spill` is as step 2 leaves it, and its `acts` has risen by 1 (step
// 3).
fn done(f: Found, ring: Ring, moved: Move) -> Accepted
    requires { (f.bank.spill < 65536) × (f.bank.acts < 1360000) }
    ensures { result ≡ done_of f ring moved }
{
    Accepted {
        served: Served {
            place: f.place,
            estimate: tracker::estimate_of(f.update),
            moved,
        },
        ring,
        bank: Bank {
            index: f.bank.index,
            spill: tracker::spill_after(f.update, f.bank.spill),
            acts: f.bank.acts + 1,
        },
    }
}

// What comes after the bytes: step 2 is followed, and the row goes to its destination, if it is quarantined.
#[inline(always)]
fn finish(
    control: Control,
    s: Settings,
    j: Judged,
    store: &mut [u8],
    forward: &mut [u16],
    reverse: &mut [u16],
    rows: &mut [u16],
    counts: &mut [u32],
) -> Accepted
    requires { let before = state_of store.old forward.old reverse.old rows.old counts.old control in
        Ok j ≡ judged s before (look_asked j.found.row.0) }
    ensures bank { result.bank.index < most_banks }
    ensures served { let before = state_of store.old forward.old reverse.old rows.old counts.old control in
        result.served ≡ served s before j.found.row.0 }
    ensures state { let before = state_of store.old forward.old reverse.old rows.old counts.old control in
        let control_after = with_bank control result.ring result.bank in
        state_of store.new forward.new reverse.new rows.new counts.new control_after
        ≡ state_after s before j.found.row.0 store.old }
{
    let f = j.found;
    tracker::follow(f.update, f.place, rows, counts);
    match j.goes {
        None => done(f, ring_of(control), Move::Stayed),
        Some(d) => {
            let ring = settle::relocate(s, ring_of(control), f, d, store, forward, reverse);
            done(f, ring, Move::from(d))
        }
    }
}

// Read: the row's bytes go into the buffer where it is accepted.
pub fn read(
    control: Control,
    s: Settings,
    row: u32,
    buffer: &mut [u8],
    store: &mut [u8],
    forward: &mut [u16],
    reverse: &mut [u16],
    rows: &mut [u16],
    counts: &mut [u32],
) -> Result<Accepted, Refusal>
    ensures bank { IfOk result (λ a. a.bank.index < most_banks) }
    ensures promise { let before = state_of store.old forward.old reverse.old rows.old counts.old control in
        let control_after = control_after control result in
        let after = state_of store.new forward.new reverse.new rows.new counts.new control_after in
        ReadPromise s before row buffer.old after (outcome_of (reply_of result)) buffer.new }
{
    let asked = ladder::read_asked(s, row, buffer.len());
    let j = judge(control, s, asked, store, forward, reverse, rows, counts)?;
    row_bytes::read_row(store, s.w as usize, j.found.place, buffer);
    Ok(finish(control, s, j, store, forward, reverse, rows, counts))
}

// Write: the bytes go into the row from a column on where it is accepted.
pub fn write(
    control: Control,
    s: Settings,
    row: u32,
    column: usize,
    bytes: &[u8],
    store: &mut [u8],
    forward: &mut [u16],
    reverse: &mut [u16],
    rows: &mut [u16],
    counts: &mut [u32],
) -> Result<Accepted, Refusal>
    ensures bank { IfOk result (λ a. a.bank.index < most_banks) }
    ensures promise { let before = state_of store.old forward.old reverse.old rows.old counts.old control in
        let control_after = control_after control result in
        let after = state_of store.new forward.new reverse.new rows.new counts.new control_after in
        WritePromise s before row column bytes.now after (outcome_of (reply_of result)) }
{
    let asked = ladder::write_asked(s, row, column, bytes.len());
    let j = judge(control, s, asked, store, forward, reverse, rows, counts)?;
    row_bytes::write_row(store, s.w as usize, j.found.place, column, bytes);
    Ok(finish(control, s, j, store, forward, reverse, rows, counts))
}

// Returns the control record after an access, from the one before it and what the access answered: a refusal leaves it.
pub fn record_after(control: Control, answer: Result<Accepted, Refusal>) -> Control
    requires { IfOk answer (λ a. a.bank.index < most_banks) }
    ensures { result ≡ control_after control answer }
{
    match answer {
        Ok(accepted) => banks::with_bank(control, accepted.ring, accepted.bank),
        Err(_) => control,
    }
}
