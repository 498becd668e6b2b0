// One row of a job.
ghost use Rattle.std.specs.Prelude.{◌≡◌, ◌&&◌, ◌==◌};
ghost use Rattle.job.specs.Kinds.{kind_in, kind_number};
ghost use Rattle.job.specs.Rows.{is_finish};
ghost use Rattle.job.specs.Lawful.{known_kind, own_shape};

use crate::kind::Kind;

// The kind is a number (0 work, 1 finish, 2 async), so that a row of no lawful kind can be given,
// and is refused by the check. The size counts the row and all rows inside it. The fields stand by
// falling size, which keeps a row at four bytes.
#[derive(Clone, Copy, Default, PartialEq, Eq, Debug)]
pub struct Row {
    pub size: u16,
    pub kind: u8,
    pub mark: u8,
}

impl Row {
    // What the row is, if its kind is one of the three.
    pub fn kind(self) -> Option<Kind>
        ensures { result ≡ kind_in self }
    {
        Kind::try_from(self.kind).ok()
    }

    // Whether the row is of this kind.
    pub fn is(self, kind: Kind) -> bool
        ensures { result ≡ (self.kind == kind_number kind) }
    {
        self.kind == u8::from(kind)
    }

    // Whether the row is a finish row that holds a whole job of so many rows.
    pub fn is_whole(self, count: usize) -> bool
        ensures { result ≡ (is_finish self && self.size == count) }
    {
        self.is(Kind::Finish) && self.size as usize == count
    }

    // Whether the kind is one of the three and the size counts at least the row itself.
    pub fn is_known(self) -> bool
        ensures { result ≡ known_kind self }
    {
        self.kind().is_some() && 1 <= self.size
    }

    // Whether a work row has nothing inside, and an async row no mark.
    pub fn has_own_shape(self) -> bool
        ensures { result ≡ own_shape self }
    {
        match self.kind() {
            Some(Kind::Work) => self.size == 1,
            Some(Kind::Async) => self.mark == 0,
            _ => true,
        }
    }
}
