// Runs a script of cases on the engine, and prints what differs, by the line of the script. The script that stands
// beside this program, `stdin`, has the cases of documents 01 and 02, and says how a script is written.
#![tactic(auto)]

ghost use Rattle.std.specs.Prelude.{◌≤◌, length};

use fault::Fault;
use report::Report;
use script::{Numbers, Sentence};
use session::Session;
use std::io::Read;

mod bench;
mod expect;
mod fault;
mod memory;
mod order;
mod report;
mod script;
mod session;

// A script has at most so many bytes.
const MOST: usize = 262144;

// The buffer for it has one byte more, so that a longer one is seen to be longer.
const TEXT: usize = MOST + 1;

// Reads until the buffer is full, the script ends or a read fails, and returns how many bytes stand in the buffer.
fn read_script(mut input: impl Read + Drop, text: &mut [u8]) -> usize
    ensures { result ≤ length text.new }
{
    let mut done: usize = 0;
    // It counts bytes that came, and no index.
    while done < text.len() {
        match input.read(&mut text[done..]) {
            Ok(0) | Err(_) => break,
            Ok(count) => done += count,
        }
    }
    done
}

// A line of the script is done.
fn run_line<'a>(
    session: &mut Session<'a>,
    numbers: &mut Numbers,
    line: &'a [u8],
) -> Result<(), Fault> {
    if let Some(name) = script::group_name(line) {
        session.report.begin_group(name);
        return Ok(());
    }
    match Sentence::read(line, numbers)? {
        None => Ok(()),
        Some(sentence) => session.line(sentence.line(numbers)?),
    }
}

// Every line, to the end of the script or to one that is refused.
fn run<'a>(session: &mut Session<'a>, text: &'a [u8]) -> Result<(), Fault> {
    let mut numbers = [0; 512];
    for line in text.split(|byte| *byte == b'\n') {
        run_line(session, &mut numbers, line)?;
        session.report.next_line();
    }
    if text.len() > MOST {
        return Err(Fault::TooLong);
    }
    Ok(())
}

fn main(rt: HostRuntime) {
    let mut text = [0u8; TEXT];
    let count = read_script(rt.stdin(), &mut text);
    let mut session = Session::new(Report::new(rt.stdout()));
    match run(&mut session, &text[..count]) {
        Ok(()) => session.report.end(),
        Err(fault) => session.report.refuse(fault),
    }
}
