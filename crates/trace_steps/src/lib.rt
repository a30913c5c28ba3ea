// The steps of a trace, run on the engine, each with its line (document 01, 'Trace program').
#![tactic(auto)]

ghost use Rattle.std.specs.Prelude.{◌≡◌, ◌*◌, ◌≤◌, length, take};
ghost use Rattle.engine.specs.State.{state_of, new_control};
ghost use Rattle.trace_steps.specs.Steps.{widest, line_room, stepped_of, stepped, run_lines};
ghost use Rattle.trace_steps.specs.Step.{step_of};

use figures::Outcome;
use geometry::{Control, Settings};
use lines::Line;

// The step that is a tick, as a trace file has it.
const TICK: u32 = 65535;

// The widest row, in bytes.
const WIDEST: usize = 8192;

// A step of a trace: a tick, or a row to read.
#[derive(Clone, Copy)]
enum Step {
    Tick,
    Read(u32),
}

impl From<u32> for Step {
    ghost from_gives = { λ x step. step ≡ step_of x };

    fn from(x: u32) -> Step {
        if x == TICK { Step::Tick } else { Step::Read(x) }
    }
}

// What a step shows: its line, and the control record after it.
#[derive(Clone, Copy)]
struct Stepped {
    line: Line,
    control: Control,
}

// Makes one step: a tick, or a read of a row into a buffer of its own. The lent slices stay parameters, as the calls take them.
fn make_step(
    control: Control,
    s: Settings,
    x: u32,
    store: &mut [u8],
    forward: &mut [u16],
    reverse: &mut [u16],
    rows: &mut [u16],
    counts: &mut [u32],
) -> Stepped
    requires { s.w ≤ widest }
    ensures { let before = state_of store.old forward.old reverse.old rows.old counts.old control in
        let after = state_of store.new forward.new reverse.new rows.new counts.new result.control in
        stepped_of after result.line ≡ stepped s before x }
{
    match Step::from(x) {
        Step::Tick => {
            match epoch::tick(control, s, store, forward, reverse, rows, counts) {
                Ok(next) => Stepped {
                    line: Line::bare(0),
                    control: next,
                },
                Err(refusal) => Stepped {
                    line: Line::bare(refusal.number()),
                    control,
                },
            }
        }
        Step::Read(row) => {
            let mut buffer = [0u8; WIDEST];
            let w = s.w as usize;
            let read = access::read(
                control,
                s,
                row,
                &mut buffer[..w],
                store,
                forward,
                reverse,
                rows,
                counts,
            );
            Stepped {
                line: Line::from(Outcome::from(read.map(|accepted| accepted.served))),
                control: access::record_after(control, read),
            }
        }
    }
}

// Makes set-up and then every step in turn, and prints the line of each after the last. Returns how many bytes were
// printed.
pub fn run(
    s: Settings,
    steps: &[u32],
    store: &mut [u8],
    forward: &mut [u16],
    reverse: &mut [u16],
    rows: &mut [u16],
    counts: &mut [u32],
    page: &mut [u8],
) -> usize
    requires { (s.w ≤ widest) × (line_room * length steps.now ≤ length page.old) }
    ensures short { result ≤ length page.old }
    ensures printed { let lent = state_of store.old forward.old reverse.old rows.old counts.old new_control in
        take result page.new ≡ run_lines s lent steps.now }
{
    let set_up = epoch::set_up(geometry::NEW, s, store, forward, reverse, rows, counts);
    let mut last = set_up.unwrap_or(geometry::NEW);
    let mut at: usize = 0;
    for (i, x) in steps.iter().enumerate() {
        let done = make_step(last, s, *x, store, forward, reverse, rows, counts);
        last = done.control;
        at = line_text::put_line(page, at, i + 1, done.line);
    }
    at
}
