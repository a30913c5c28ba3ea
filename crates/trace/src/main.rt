// Replays the trace file on standard input, and prints its lines on standard output (document 01, 'Trace program'; document
// 02, Asks 1 and 5). What cannot be read or written is said on standard error, and the exit status is 0 then too.
#![tactic(auto)]

ghost use Rattle.std.specs.Prelude.{◌≡◌, ◌≤◌, length, take};
ghost use Rattle.input.specs.Input.{bytes_read};
ghost use Rattle.replay.specs.Replay.{page_room};
ghost use Rattle.trace.specs.Trace.{printed_for};

use std::io;
use std::io::{Cursor, Write};

// The buffer for the text has one byte more than the longest file, so that a longer one is seen to be longer.
const TEXT: usize = 65537;

// The system's words of an error, without the number that stands behind them.
fn system_words(text: &str) -> &str {
    match text.split_once(" (os error ") {
        Some((words, _)) => words,
        None => text,
    }
}

// Writes a line to standard error: what failed, a colon and why, in the system's words.
fn fail(rt: &impl Eprint, what: &str, error: io::Error) {
    let mut said = Cursor::new([0u8; 256]);
    let _ = write!(said, "{error}");
    let end = said.position().min(256) as usize;
    let bytes = said.into_inner();
    let text = std::str::from_utf8(&bytes[..end]).unwrap_or("");
    let words = system_words(text);
    let _ = eprintln!(rt; "{what}: {words}");
}

// Prints on the page, and returns how many bytes were printed. Says why where a read failed.
fn put_lines(rt: &impl Eprint, got: io::Result<usize>, text: &[u8], page: &mut [u8]) -> usize
    requires { (bytes_read got ≤ length text.now) × (page_room ≤ length page.old) }
    ensures short { result ≤ length page.new }
    ensures printed { take result page.new ≡ printed_for got text.now }
{
    match got {
        Ok(count) => replay::replay(&text[..count], page),
        Err(error) => {
            fail(rt, "trace: standard input", error);
            replay::put_refused(page)
        }
    }
}

// Writes the page out. Says why where a write failed.
fn write_out(rt: &(impl Print + Eprint), page: &[u8]) {
    if let Err(error) = rt.write_all(page) {
        fail(rt, "trace: standard output", error);
    }
}

fn main(rt: HostRuntime) {
    let mut text = [0u8; TEXT];
    let mut stdin = rt.stdin();
    let got = input::read_all(&mut stdin, &mut text);
    // what any file prints fits the page
    let mut page = [0u8; replay::PAGE];
    let printed = put_lines(&rt, got, &text, &mut page);
    write_out(&rt, &page[..printed]);
}
