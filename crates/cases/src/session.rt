// What each line of the script does.
use crate::bench::{Answer, Call, Kind};
use crate::expect::Last;
use crate::fault::Fault;
use crate::memory::{Memory, Part, ROOM, Room, in_room};
use crate::report::Report;
use crate::script::{Expectation, Line};
use crate::{bench, order};
use geometry::Settings;

// What the script has brought about so far.
#[derive(Clone, Copy)]
pub struct Session<'a> {
    pub report: Report<'a>,
    // the memory as the lines before left it
    memory: Memory,
    // whether a line has given it, by settings or by `undo`: before, lines neither lend to it nor call on it, but for
    // `order` and the sums
    given: bool,
    // the last call, where one was made on this memory
    last: Option<Last>,
}

// What stands in place of settings before the first.
const NO_SETTINGS: Settings = Settings {
    n: 0,
    q: 0,
    w: 0,
    k: 0,
    a: 0,
    l: 0,
    b: 0,
};

impl<'a> Session<'a> {
    pub fn new(report: Report<'a>) -> Session<'a> {
        Session {
            report,
            memory: Memory::new(NO_SETTINGS),
            given: false,
            last: None,
        }
    }

    // The memory is this, and no call was made on it.
    fn lend(&mut self, memory: Memory) {
        self.memory = memory;
        self.given = true;
        self.last = None;
    }

    // The memory that a line has given.
    fn memory(&mut self) -> Result<&mut Memory, Fault> {
        if self.given {
            Ok(&mut self.memory)
        } else {
            Err(Fault::NoSettings)
        }
    }

    // One of the five calls is made, on the memory.
    fn make(&mut self, call: Call<'_>) -> Result<(), Fault> {
        let last = Last::made(self.memory()?, call);
        self.last = Some(last);
        Ok(())
    }

    // Case: one of the five calls, made on a memory, answers this, and leaves this memory where it is accepted. What it
    // left is the memory now, of which a sum speaks also where no line has given one.
    pub fn judge_call(&mut self, memory: &Memory, call: Call<'_>, expected: Answer, left: &Memory) {
        self.memory = *memory;
        let last = Last::made(&mut self.memory, call);
        let difference = last.answers_and_leaves(&self.memory, expected, left);
        self.report.judge(difference);
        self.last = Some(last);
    }

    // A sum is answered. There may be no settings.
    fn answer(&mut self, answer: Answer) {
        self.last = Some(Last::told(&self.memory, answer));
    }

    // A part and its values.
    fn put(&mut self, part: Part, values: &[u64]) -> Result<(), Fault> {
        let memory = self.memory()?;
        if values.is_empty() || values.len() > ROOM {
            return Err(Fault::Values);
        }
        memory.put(part, values)?;
        self.last = None;
        Ok(())
    }

    // A read: the buffer has W bytes where the line has no other length.
    fn read(&mut self, row: u32, length: Option<u64>) -> Result<(), Fault> {
        let memory = self.memory()?;
        memory.buffer.lent = in_room(length.unwrap_or(u64::from(memory.settings.w)));
        self.make(Call::Read { row })
    }

    // A write. How many bytes there are counts modulo 257, since there is room for 256.
    fn write(&mut self, row: u32, column: usize, values: &[u64]) -> Result<(), Fault> {
        let mut bytes = Room::new([0; ROOM], values.len() % (ROOM + 1));
        for (byte, value) in bytes.part_mut().iter_mut().zip(values) {
            *byte = (*value % 256) as u8;
        }
        self.make(Call::Write {
            row,
            column,
            bytes: bytes.part(),
        })
    }

    // `from`: each call from one on is accepted, or refused with a number. Each is made on the memory as it is, which stays
    // so.
    fn attempts(&mut self, first: Kind, number: u64, row: u32) -> Result<(), Fault> {
        let memory = *self.memory()?;
        for kind in Kind::ALL.into_iter().filter(|kind| *kind >= first) {
            let call = match kind {
                Kind::SetUp => Call::SetUp,
                Kind::Tick => Call::Tick,
                Kind::Inspect => Call::Inspect { row },
                Kind::Read => Call::Read { row },
                Kind::Write => Call::Write {
                    row,
                    column: 0,
                    bytes: &[99],
                },
            };
            let mut after = memory;
            let last = Last::made(&mut after, call);
            self.report.judge(if number == 0 {
                last.is_accepted()
            } else {
                last.is_refused(&after, number)
            });
        }
        self.last = None;
        Ok(())
    }

    // A line is done.
    pub fn line(&mut self, line: Line<'_>) -> Result<(), Fault> {
        match line {
            Line::Settings(settings) => {
                self.lend(Memory::new(settings));
                Ok(())
            }
            Line::Lend {
                store,
                forward,
                reverse,
                rows,
                counts,
            } => {
                let memory = self.memory()?;
                memory.store.lent = store;
                memory.forward.lent = forward;
                memory.reverse.lent = reverse;
                memory.rows.lent = rows;
                memory.counts.lent = counts;
                self.last = None;
                Ok(())
            }
            Line::Put(part, values) => self.put(part, values),
            Line::SetUp => self.make(Call::SetUp),
            Line::Tick => self.make(Call::Tick),
            Line::Inspect { row } => self.make(Call::Inspect { row }),
            Line::Read { row, length } => self.read(row, length),
            Line::Write { row, column, bytes } => self.write(row, column, bytes),
            Line::Span { column, count } => {
                let settings = self.memory()?.settings;
                self.answer(bench::span(settings, column, count));
                Ok(())
            }
            Line::Size(times) => {
                self.answer(bench::least_size(times));
                Ok(())
            }
            Line::Most(times) => {
                self.answer(bench::most_activations(times));
                Ok(())
            }
            Line::From { first, number, row } => self.attempts(first, number, row),
            Line::Order => {
                order::run(self);
                Ok(())
            }
            Line::Expect(expected) => self.expect(expected),
            Line::Undo => self.undo(),
        }
    }

    // A line about the last call.
    fn expect(&mut self, expected: Expectation<'_>) -> Result<(), Fault> {
        let Some(last) = &mut self.last else {
            return Err(Fault::NoCall);
        };
        let difference = last.judge(&self.memory, expected)?;
        self.report.judge(difference);
        Ok(())
    }

    // The memory is again as before the last call.
    fn undo(&mut self) -> Result<(), Fault> {
        let Some(last) = &self.last else {
            return Err(Fault::NoCall);
        };
        let before = last.before;
        self.lend(before);
        Ok(())
    }
}
