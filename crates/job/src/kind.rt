// The kinds of row, and the numbers that stand for them.
ghost use Rattle.std.specs.Prelude.{◌≡◌};
ghost use Rattle.job.specs.Kinds.{kind_number, numbered_kind};

// What a row of a lawful job is.
#[derive(Clone, Copy, PartialEq, Eq, Debug)]
pub enum Kind {
    // a piece of work, which nobody works but whoever takes it
    Work = 0,
    // a row that is closed once all that was spawned inside has ended
    Finish = 1,
    // a task that any worker may begin
    Async = 2,
}

// A number that stands for no kind.
#[derive(Clone, Copy, PartialEq, Eq, Debug)]
pub struct UnknownKind {
    pub number: u8,
}

impl From<Kind> for u8 {
    ghost from_gives = { λ kind n. n ≡ kind_number kind };

    fn from(kind: Kind) -> u8 {
        kind as u8
    }
}

impl TryFrom<u8> for Kind {
    type Error = UnknownKind;

    ghost try_from_gives = { λ n kind. kind ≡ numbered_kind n };

    fn try_from(number: u8) -> Result<Kind, UnknownKind> {
        match number {
            0 => Ok(Kind::Work),
            1 => Ok(Kind::Finish),
            2 => Ok(Kind::Async),
            _ => Err(UnknownKind { number }),
        }
    }
}
