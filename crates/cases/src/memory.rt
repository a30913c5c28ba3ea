// What a caller lends, as one value: the settings, the control record, and the room of each part.
ghost use Rattle.std.specs.Prelude.{◌≤◌};

use crate::fault::Fault;
use geometry::{Control, Settings};
use std::num::TryFromIntError;

// The room of a part, in elements.
pub const ROOM: usize = 256;

// The mark in the pointer tables and the tracker rows; in an answer, no slot and no row.
pub const MARK: u16 = 65535;

// So many elements behind what is lent are compared too.
const BEHIND: usize = 4;

// The parts. The control record has three: its fields, of the banks those of bank 0, and the places of all banks in
// `spill` and in `acts`.
#[derive(Clone, Copy, Debug, PartialEq, Eq)]
pub enum Part {
    Control,
    Store,
    Forward,
    Reverse,
    Rows,
    Counts,
    Buffer,
    Spill,
    Acts,
}

impl Part {
    pub const ALL: [Part; 9] = [
        Part::Control,
        Part::Store,
        Part::Forward,
        Part::Reverse,
        Part::Rows,
        Part::Counts,
        Part::Buffer,
        Part::Spill,
        Part::Acts,
    ];

    // The name in the script and in what is printed.
    pub fn name(self) -> &'static str {
        match self {
            Part::Control => "control",
            Part::Store => "store",
            Part::Forward => "forward",
            Part::Reverse => "reverse",
            Part::Rows => "rows",
            Part::Counts => "counts",
            Part::Buffer => "buffer",
            Part::Spill => "spill",
            Part::Acts => "acts",
        }
    }

    // The first element that `rest kept` speaks of: the places of bank 0 belong to the part `control`.
    fn first_kept(self) -> usize {
        match self {
            Part::Spill | Part::Acts => 1,
            _ => 0,
        }
    }
}

// Room for the elements of a part, an array A, of which the first are lent.
#[derive(Clone, Copy, Debug)]
pub struct Room<A> {
    elements: A,
    pub lent: usize,
}

impl<A> Room<A> {
    pub fn new(elements: A, lent: usize) -> Room<A> {
        Room { elements, lent }
    }

    // How many elements are lent, as far as there is room.
    pub fn lent(&self) -> usize
        ensures { result ≤ 256 }
    {
        self.lent.min(ROOM)
    }
}

impl<T: Copy> Room<[T; ROOM]> {
    // What is lent.
    pub fn part(&self) -> &[T] {
        &self.elements[..self.lent()]
    }

    // What is lent, to be written.
    pub fn part_mut(&mut self) -> &mut [T] {
        let end = self.lent();
        let elements = &mut self.elements;
        &mut elements[..end]
    }

    // Holds these values, as far as there is room, and lends them.
    pub fn hold(&mut self, values: &[T]) {
        for (element, value) in self.elements.iter_mut().zip(values) {
            *element = *value;
        }
        self.lent = values.len();
    }

    // Puts a value into element i.
    pub fn set(&mut self, i: usize, value: T) {
        if let Some(element) = self.elements.get_mut(i) {
            *element = value;
        }
    }
}

// Element i as a number, 0 past the end.
fn element_of<T: Copy + Into<u64>>(elements: &[T], i: usize) -> u64 {
    elements.get(i).map_or(0, |element| (*element).into())
}

// Puts values into the first elements.
fn put<T: TryFrom<u64, Error = TryFromIntError> + Drop>(
    elements: &mut [T],
    values: &[u64],
) -> Result<(), Fault> {
    for (element, value) in elements.iter_mut().zip(values) {
        *element = T::try_from(*value)?;
    }
    Ok(())
}

#[derive(Clone, Copy)]
pub struct Memory {
    pub settings: Settings,
    pub control: Control,
    pub store: Room<[u8; ROOM]>,
    pub forward: Room<[u16; ROOM]>,
    pub reverse: Room<[u16; ROOM]>,
    pub rows: Room<[u16; ROOM]>,
    pub counts: Room<[u32; ROOM]>,
    pub buffer: Room<[u8; ROOM]>,
}

// A number of elements, or as many as there is room for.
pub fn in_room(count: u64) -> usize
    ensures { result ≤ 256 }
{
    count.min(ROOM as u64) as usize
}

impl Memory {
    // A memory for the settings, as set-up leaves it. Each part is lent in its length, or as far as there is room. Byte
    // i of the store is i + 1, modulo 256, and the read buffer holds 200s.
    pub fn new(s: Settings) -> Memory {
        let homes = u64::from(s.n) * u64::from(s.w);
        let slots = u64::from(s.q) * u64::from(s.w);
        let entries = in_room(u64::from(s.k) * u64::from(s.b));
        let mut store = [0; ROOM];
        for (byte, value) in store.iter_mut().zip((1..=u8::MAX).chain(0..1)) {
            *byte = value;
        }
        Memory {
            settings: s,
            control: geometry::NEW,
            store: Room::new(store, in_room(homes.saturating_add(slots))),
            forward: Room::new([MARK; ROOM], in_room(u64::from(s.n))),
            reverse: Room::new([MARK; ROOM], in_room(u64::from(s.q))),
            rows: Room::new([MARK; ROOM], entries),
            counts: Room::new([0; ROOM], entries),
            buffer: Room::new([200; ROOM], in_room(u64::from(s.w))),
        }
    }

    // How many elements of a part are lent.
    pub fn lent(&self, part: Part) -> usize
        ensures { result ≤ 256 }
    {
        match part {
            Part::Control => 4,
            Part::Store => self.store.lent(),
            Part::Forward => self.forward.lent(),
            Part::Reverse => self.reverse.lent(),
            Part::Rows => self.rows.lent(),
            Part::Counts => self.counts.lent(),
            Part::Buffer => self.buffer.lent(),
            Part::Spill | Part::Acts => 16,
        }
    }

    // The fields of the control record; of the banks, those of bank 0.
    fn fields(&self) -> [u32; 4] {
        let c = self.control;
        [c.head, c.passed, c.spill[0], c.acts[0]]
    }

    // Element i of a part, 0 past its end.
    pub fn element(&self, part: Part, i: usize) -> u64 {
        match part {
            Part::Control => element_of(&self.fields(), i),
            Part::Store => element_of(&self.store.elements, i),
            Part::Forward => element_of(&self.forward.elements, i),
            Part::Reverse => element_of(&self.reverse.elements, i),
            Part::Rows => element_of(&self.rows.elements, i),
            Part::Counts => element_of(&self.counts.elements, i),
            Part::Buffer => element_of(&self.buffer.elements, i),
            Part::Spill => element_of(&self.control.spill, i),
            Part::Acts => element_of(&self.control.acts, i),
        }
    }

    // Puts values into the first elements of a part.
    pub fn put(&mut self, part: Part, values: &[u64]) -> Result<(), Fault> {
        match part {
            Part::Control => {
                let mut fields = self.fields();
                put(&mut fields, values)?;
                let [head, passed, spill, acts] = fields;
                self.control.head = head;
                self.control.passed = passed;
                self.control.spill[0] = spill;
                self.control.acts[0] = acts;
                Ok(())
            }
            Part::Store => put(&mut self.store.elements, values),
            Part::Forward => put(&mut self.forward.elements, values),
            Part::Reverse => put(&mut self.reverse.elements, values),
            Part::Rows => put(&mut self.rows.elements, values),
            Part::Counts => put(&mut self.counts.elements, values),
            Part::Buffer => put(&mut self.buffer.elements, values),
            Part::Spill => put(&mut self.control.spill, values),
            Part::Acts => put(&mut self.control.acts, values),
        }
    }

    // The first element of a part, from one on, that is not as in another memory, of those lent and of those behind.
    pub fn difference(&self, other: &Memory, part: Part, from: usize) -> Option<usize> {
        let end = self.lent(part).saturating_add(BEHIND);
        (from..end).find(|i| self.element(part, *i) != other.element(part, *i))
    }

    // The same of the elements that `rest kept` speaks of.
    pub fn changed(&self, other: &Memory, part: Part) -> Option<usize> {
        self.difference(other, part, part.first_kept())
    }
}
