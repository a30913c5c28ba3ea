// Reads all that a reader gives, and distinguishes a read that fails from the end of the input. No contract can say what a
// read of the system answers, nor which bytes come from outside; what follows from an answer is `next_of`. What the reader
// has yet to give is its `remaining`, where that is known.
#![tactic(auto)]

ghost use Rattle.std.specs.Prelude.{◌≡◌, ◌<◌, ◌≤◌, length, take, IfOk};
ghost use Rattle.std.specs.Io.KnownBytes.{Consumes, IsAtEnd};
ghost use Rattle.input.specs.Input.{next_of, bytes_read};

use std::io;
use std::io::Read;
use std::ops::ControlFlow;

// What follows a read that gave this answer, where `done` bytes came before it: reading is over, with what it answers, or so
// many bytes more stand in the buffer.
#[tactic(auto, unfolding(crate::specs::Input::next_of))]
fn next(done: usize, answer: io::Result<usize>) -> ControlFlow<io::Result<usize>, usize>
    ensures { result ≡ next_of done answer }
{
    match answer {
        Err(error) => ControlFlow::Break(Err(error)),
        Ok(0) => ControlFlow::Break(Ok(done)),
        Ok(taken) => ControlFlow::Continue(taken),
    }
}

// Reads until the buffer is full, the input ends or a read fails, and returns how many bytes stand at the start of the buffer:
// those that came.
#[tactic(auto, unfolding(crate::specs::Input::next_of))]
pub fn read_all<R: Read>(reader: &mut R, buffer: &mut [u8]) -> io::Result<usize>
    ensures within { bytes_read result ≤ length buffer.new }
    ensures came { IfOk result (λ n. Consumes (R.remaining reader.old) (R.remaining reader.new) (take n buffer.new)) }
    ensures end { IfOk result (λ n. n < length buffer.new → IsAtEnd (R.remaining reader.new)) }
{
    let mut done: usize = 0;
    // Kept: it counts bytes that came, and no index. A `for` would count the reads, which nothing asks for.
    while done < buffer.len() {
        let answer = reader.read(&mut buffer[done..]);
        match next(done, answer) {
            ControlFlow::Break(read) => return read,
            ControlFlow::Continue(count) => done += count,
        }
    }
    Ok(done)
}
