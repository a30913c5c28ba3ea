// The last call: what it was made on and what it answered, and what an expectation of the script finds there and in the
// memory that it left.
use crate::bench;
use crate::bench::{Answer, Call};
use crate::fault::Fault;
use crate::memory::{Memory, Part, ROOM, Room, in_room};
use crate::script::{Expectation, MOST_NUMBERS, Numbers};
use std::fmt;

// A figure of an answer, or an element of a part, that is not as expected.
#[derive(Clone, Copy, Debug)]
pub struct Difference {
    name: &'static str,
    at: usize,
    expected: u64,
    answered: u64,
}

impl fmt::Display for Difference {
    fn fmt<W: fmt::Write>(&self, f: &mut fmt::Formatter<W>) -> fmt::Result {
        let name = self.name;
        let at = self.at;
        let expected = self.expected;
        let answered = self.answered;
        write!(
            f,
            "{name:>8} at {at}: expected {expected}, answered {answered}"
        )
    }
}

// The name of the bytes that inspect shows.
const SHOWN: &str = "part";

// How many parts there are.
const PARTS: usize = Part::ALL.len();

#[derive(Clone, Copy)]
pub struct Last {
    pub before: Memory,
    pub answer: Answer,
    // the bytes that an inspect shows
    shown: Room<[u8; ROOM]>,
    // how many an inspect shows where it is accepted
    length: u64,
    // by part, whether a line has said what the call left there
    said: [bool; PARTS],
}

// A part of the memory that a call left is as expected: where it is not, the first element.
fn changed(after: &Memory, expected: &Memory, part: Part) -> Option<Difference> {
    let at = after.changed(expected, part)?;
    Some(wrong(after, part, at, expected.element(part, at)))
}

fn wrong(after: &Memory, part: Part, at: usize, expected: u64) -> Difference {
    Difference {
        name: part.name(),
        at,
        expected,
        answered: after.element(part, at),
    }
}

// The memory is as expected, in every part.
fn leaves(after: &Memory, expected: &Memory) -> Option<Difference> {
    Part::ALL
        .iter()
        .find_map(|part| changed(after, expected, *part))
}

// The bytes of visible rows 0 to N - 1, as inspect shows them, are the first so many of the numbers.
fn rows_are(after: &Memory, numbers: &Numbers, count: usize) -> Result<Option<Difference>, Fault> {
    let settings = after.settings;
    let w = in_room(u64::from(settings.w));
    let mut from = 0usize;
    for row in 0..settings.n.min(ROOM as u32) {
        let (answer, shown) = bench::inspect(after, row);
        let hidden = (0..w).find(|i| {
            let byte = shown.get(*i).map_or(0, |byte| u64::from(*byte));
            byte != numbers[from.saturating_add(*i) % MOST_NUMBERS]
        });
        let refused = if answer.number == 0 { None } else { Some(0) };
        if let Some(i) = hidden.or(refused) {
            let at = from.saturating_add(i);
            if at < count {
                return Ok(Some(Difference {
                    name: SHOWN,
                    at,
                    expected: numbers[at % MOST_NUMBERS],
                    answered: u64::from(row),
                }));
            }
        }
        from = from.saturating_add(w);
    }
    if from != count || settings.n as usize > ROOM {
        return Err(Fault::Visible);
    }
    Ok(None)
}

impl Last {
    // One of the five calls, made on a memory, which then is as the call leaves it.
    pub fn made(memory: &mut Memory, call: Call<'_>) -> Last {
        let before = *memory;
        let (answer, shown) = bench::make(memory, call);
        let length = match call {
            Call::Inspect { .. } => u64::from(before.settings.w),
            _ => 0,
        };
        Last {
            before,
            answer,
            shown,
            length,
            said: [false; PARTS],
        }
    }

    // What is answered from the line alone, and leaves the memory as it is.
    pub fn told(memory: &Memory, answer: Answer) -> Last {
        Last {
            before: *memory,
            answer,
            shown: Room::new([0; ROOM], 0),
            length: 0,
            said: [false; PARTS],
        }
    }

    // The answer is this, whole.
    fn is_answer(&self, expected: Answer) -> Option<Difference> {
        let found = self.answer.figures();
        let (at, (expected, answered)) = expected
            .figures()
            .into_iter()
            .zip(found)
            .enumerate()
            .find(|(_, (expected, answered))| expected != answered)?;
        Some(Difference {
            name: "answer",
            at,
            expected,
            answered,
        })
    }

    // The call is accepted.
    pub fn is_accepted(&self) -> Option<Difference> {
        self.is_answer(Answer {
            number: 0,
            length: self.length,
            ..self.answer
        })
    }

    // The call is accepted, and answers this; how long an inspect's part is it has from the settings.
    fn answers(&self, expected: Answer) -> Option<Difference> {
        self.is_answer(Answer {
            length: self.length,
            ..expected
        })
    }

    // The call answers this, and leaves this memory where it is accepted, else the memory that it was made on.
    pub fn answers_and_leaves(
        &self,
        after: &Memory,
        expected: Answer,
        left: &Memory,
    ) -> Option<Difference> {
        let memory = if expected.number == 0 {
            left
        } else {
            &self.before
        };
        self.is_answer(expected).or_else(|| leaves(after, memory))
    }

    // The call is refused. Beside the number the answer holds nothing, and the memory is as it was.
    pub fn is_refused(&self, after: &Memory, number: u64) -> Option<Difference> {
        self.answers_and_leaves(after, Answer::of_number(number), &self.before)
    }

    // Each part of which no line has spoken is as it was before the call.
    fn rest_is_kept(&self, after: &Memory) -> Option<Difference> {
        Part::ALL
            .iter()
            .zip(&self.said)
            .filter(|(_, said)| !**said)
            .find_map(|(part, _)| changed(after, &self.before, *part))
    }

    // A part holds the values, and what lies behind it is as it was before the call.
    fn part_is(
        &mut self,
        after: &Memory,
        part: Part,
        values: &[u64],
    ) -> Result<Option<Difference>, Fault> {
        if values.len() != after.lent(part) {
            return Err(Fault::Lent);
        }
        self.said[part as usize] = true;
        for (i, value) in values.iter().enumerate() {
            if after.element(part, i) != *value {
                return Ok(Some(wrong(after, part, i, *value)));
            }
        }
        let behind = after.difference(&self.before, part, values.len());
        Ok(behind.map(|i| wrong(after, part, i, self.before.element(part, i))))
    }

    // Inspect shows the values.
    fn shows(&self, values: &[u64]) -> Option<Difference> {
        let length = values.len() as u64;
        if self.answer.length != length {
            return Some(Difference {
                name: "answer",
                at: 5,
                expected: length,
                answered: self.answer.length,
            });
        }
        let (at, (expected, answered)) = values
            .iter()
            .copied()
            .zip(self.shown.part().iter().map(|byte| u64::from(*byte)))
            .enumerate()
            .find(|(_, (expected, answered))| expected != answered)?;
        Some(Difference {
            name: SHOWN,
            at,
            expected,
            answered,
        })
    }

    // The first difference from an expectation, of the call or of the memory that it left; none is as expected.
    pub fn judge(
        &mut self,
        after: &Memory,
        expected: Expectation<'_>,
    ) -> Result<Option<Difference>, Fault> {
        match expected {
            Expectation::Accepted => Ok(self.is_accepted()),
            Expectation::Answers(answer) => Ok(self.answers(answer)),
            Expectation::Refused(number) => Ok(self.is_refused(after, number)),
            Expectation::Is(part, values) => self.part_is(after, part, values),
            Expectation::Shown(values) => Ok(self.shows(values)),
            Expectation::Visible(numbers, count) => rows_are(after, numbers, count),
            Expectation::RestKept => Ok(self.rest_is_kept(after)),
        }
    }
}
