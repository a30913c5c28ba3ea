// New memory for a trace: buffers of zeros, of which as much is lent as the settings ask.
ghost use Rattle.std.specs.Prelude.{◌≡◌, true, ◌*◌, ◌≤◌, length, take};
ghost use Rattle.conditions.specs.Conditions.{ranges_hold};
ghost use Rattle.trace_steps.specs.Steps.{line_room, run_lines};
ghost use Rattle.replay.specs.Memory.{store_bytes, tracker_entries, lent, memory_fits};

use crate::{MOST_ENTRIES, MOST_STORE};
use geometry::Settings;

// The most visible rows and slots that the settings allow.
const MOST_ROWS: usize = 60000;

const MOST_SLOTS: usize = 5500;

// Makes set-up and every step on new memory with a store of `size` bytes and so many tracker entries, and prints their
// lines.
pub fn on_new_memory(
    s: Settings,
    size: usize,
    entries: usize,
    steps: &[u32],
    page: &mut [u8],
) -> usize
    requires { (ranges_hold s ≡ true) × (memory_fits s ≡ true) × (size ≡ store_bytes s) × (entries ≡ tracker_entries s)
        × (line_room * length steps.now ≤ length page.old) }
    ensures short { result ≤ length page.old }
    ensures printed { take result page.new ≡ run_lines s (lent s) steps.now }
{
    let mut store = [0u8; MOST_STORE];
    let mut forward = [0u16; MOST_ROWS];
    let mut reverse = [0u16; MOST_SLOTS];
    let mut rows = [0u16; MOST_ENTRIES];
    let mut counts = [0u32; MOST_ENTRIES];
    let n = s.n as usize;
    let q = s.q as usize;
    trace_steps::run(
        s,
        steps,
        &mut store[..size],
        &mut forward[..n],
        &mut reverse[..q],
        &mut rows[..entries],
        &mut counts[..entries],
        page,
    )
}
