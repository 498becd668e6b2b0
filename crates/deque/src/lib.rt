// Double-ended queues of row numbers, in fixed memory.
#![tactic(auto, unfolding(crate::specs::Deques::rows_in))]

ghost use Rattle.std.specs.Prelude.{◌≡◌, ◌+◌, ◌≤◌, ◌==◌, [], length, IsNone, OnErr};
ghost use Rattle.deque.specs.Deques.{room, slot, rows_in, push_answer, pushed};
ghost use Rattle.deque.specs.Queues.{bottom, above_bottom, top, below_top};

// The most rows in a deque: as many as a job has, of which this crate knows nothing. It is no
// parameter of the type: there is one such number, and calls would have to ask that it is a power of
// two, as `slot` needs it.
const ROOM: usize = 1024;

// Why a row was not put to a deque.
#[derive(Clone, Copy, PartialEq, Eq, Debug)]
pub enum PushError {
    // the deque has as many rows as it holds
    Full,
}

// A deque: its owner puts rows to its bottom and takes them from there, and others take from its
// top. The rows lie in a ring of slots, the bottom first: an `ArrayVec` would move all of them at
// each push to the bottom, and the library's circular buffer lies on the heap.
//
// Any numbers here are a deque: `bottom` counts round the ring, and a `len` above `ROOM` counts as
// `ROOM`. So nothing has to be kept true of them, neither by a ghost field nor by a model, and a
// deque is `Copy` and can be reached where it lies in an array of arrays.
#[derive(Clone, Copy, Debug)]
pub struct Deque {
    slots: [u16; ROOM],
    bottom: usize,
    len: usize,
}

// By hand, since an array of so many slots has none to derive it from.
impl Default for Deque {
    ghost use Rattle.std.specs.Prelude.{◌≡◌, []};
    ghost use Rattle.deque.specs.Deques.{rows_in};

    ghost is_default = { λ d. rows_in d ≡ [] };

    fn default() -> Deque {
        Deque::new()
    }
}

impl Deque {
    // A deque with no rows.
    pub fn new() -> Deque
        ensures { rows_in result ≡ [] }
    {
        Deque {
            slots: [0; ROOM],
            bottom: 0,
            len: 0,
        }
    }

    // Takes all rows out.
    pub fn clear(&mut self)
        ensures { rows_in self.new ≡ [] }
    {
        self.len = 0;
    }

    // How many rows there are.
    pub fn len(&self) -> usize
        ensures rows { result ≡ length (rows_in self.now) }
        ensures fits { result ≤ room }
    {
        self.len.min(ROOM)
    }

    // Whether there is no row.
    pub fn is_empty(&self) -> bool
        ensures { result ≡ (length (rows_in self.now) == 0) }
    {
        self.len == 0
    }

    // The slot so many steps round the ring from that of the bottom row. A sum that wraps falls on the
    // same slot, since `ROOM` is a power of two.
    fn slot(&self, steps: usize) -> usize
        ensures { result ≡ slot (self.now.bottom + steps) }
    {
        self.bottom.wrapping_add(steps) % ROOM
    }

    // The row at the bottom.
    pub fn bottom(&self) -> Option<u16>
        ensures { result ≡ bottom (rows_in self.now) }
    {
        if self.is_empty() {
            None
        } else {
            Some(self.slots[self.slot(0)])
        }
    }

    // Puts a row to the bottom, unless the deque is full.
    pub fn push_bottom(&mut self, row: u16) -> Result<(), PushError>
        ensures result { result ≡ push_answer (rows_in self.old) }
        ensures after { rows_in self.new ≡ pushed (rows_in self.old) row }
        ensures kept { OnErr result (self.new ≡ self.old) }
    {
        let len = self.len();
        if len == ROOM {
            return Err(PushError::Full);
        }
        self.bottom = self.slot(ROOM - 1);
        self.slots[self.bottom] = row;
        self.len = len + 1;
        Ok(())
    }

    // Takes the row at the bottom out.
    pub fn pop_bottom(&mut self) -> Option<u16>
        ensures result { result ≡ bottom (rows_in self.old) }
        ensures after { rows_in self.new ≡ above_bottom (rows_in self.old) }
        ensures kept { IsNone result → self.new ≡ self.old }
    {
        let row = self.bottom()?;
        self.bottom = self.slot(1);
        self.len = self.len() - 1;
        Some(row)
    }

    // Takes the row at the top out.
    pub fn pop_top(&mut self) -> Option<u16>
        ensures result { result ≡ top (rows_in self.old) }
        ensures after { rows_in self.new ≡ below_top (rows_in self.old) }
        ensures kept { IsNone result → self.new ≡ self.old }
    {
        if self.is_empty() {
            return None;
        }
        self.len = self.len() - 1;
        Some(self.slots[self.slot(self.len)])
    }
}
