// A trace file replayed on the engine: from the file's bytes to the bytes printed (document 01, 'Trace program'; document
// 02, Asks 1 and 5). The memory on which it is played is `new_memory`.
#![tactic(auto)]

ghost use Rattle.std.specs.Prelude.{◌≡◌, ◌+◌, ◌*◌, ◌≤◌, length, take};
ghost use Rattle.trace_steps.specs.Steps.{line_room};
ghost use Rattle.replay.specs.Replay.{refused_line, played, printed_on};

use geometry::Settings;
use lines::Line;

mod new_memory;

// The largest store of a trace, in bytes.
const MOST_STORE: usize = 32768;

// The most tracker entries of a trace, of all banks together.
const MOST_ENTRIES: usize = 4096;

// The most steps of a trace.
const MOST_STEPS: usize = 4096;

// The longest line, in bytes.
const LONGEST_LINE: usize = 105;

// The length of a page that has room for what any file prints.
pub const PAGE: usize = LONGEST_LINE * (MOST_STEPS + 1);

// Puts the line for a trace that is refused.
pub fn put_refused(page: &mut [u8]) -> usize
    requires { length refused_line ≤ length page.old }
    ensures short { result ≤ length page.old }
    ensures printed { take result page.new ≡ refused_line }
{
    page::put_bytes(page, 0, b"trace refused\n")
}

// Plays a trace: its settings are judged, then the store's size and the number of tracker entries, and then every step is
// made.
#[tactic(auto, using(crate::proofs::Judging::played_refused))]
fn play(s: Settings, steps: &[u32], page: &mut [u8]) -> usize
    requires { line_room + line_room * length steps.now ≤ length page.old }
    ensures short { result ≤ length page.old }
    ensures printed { take result page.new ≡ played s steps.now }
{
    if let Err(refusal) = ladder::check_settings(s) {
        return line_text::put_line(page, 0, 0, Line::bare(refusal.number()));
    }
    let size = ((s.n as usize) + (s.q as usize)) * (s.w as usize);
    let entries = (s.b as usize) * (s.k as usize);
    let fits = (size <= MOST_STORE) & (entries <= MOST_ENTRIES);
    if !fits {
        return put_refused(page);
    }
    new_memory::on_new_memory(s, size, entries, steps, page)
}

// Replays a trace file: prints on the page, and returns how many bytes were printed.
pub fn replay(text: &[u8], page: &mut [u8]) -> usize
    ensures short { result ≤ length page.new }
    ensures printed { take result page.new ≡ printed_on (length page.old) text.now }
{
    if page.len() < PAGE {
        return 0;
    }
    if trace_file::is_empty_trace(text) {
        return 0;
    }
    let mut numbers = [0u32; trace_file::MOST_NUMBERS];
    match trace_file::parse(text, &mut numbers) {
        None => put_refused(page),
        Some(trace) => play(trace.settings, &numbers[trace.steps()], page),
    }
}
