// Why a call was refused: by a number of its own for each cause, and by what is told with it.
ghost use Rattle.std.specs.Prelude.{◌≡◌, ℕ, List};
ghost use Rattle.job.specs.Refusals.{place, job_number, job_told};

pub trait Refusal {
    // the number of the cause
    ghost numbered: { Self → ℕ };

    // what is told with it, the place first: nothing, a row, a line, or a line and a field
    ghost told: { Self → List ℕ };

    fn number(&self) -> u8
        ensures { result ≡ numbered self.now };

    // The row or the line that is told, if any.
    fn place(&self) -> Option<usize>
        ensures { result ≡ place (told self.now) };
}

// What makes a job unfit to be worked.
#[derive(Clone, Copy, PartialEq, Eq, Debug)]
pub enum JobRefusal {
    // no rows, or more than 1,024
    RowCount,
    // the lowest unlawful row
    Unlawful(usize),
}

impl Refusal for JobRefusal {
    ghost numbered = { job_number };

    ghost told = { job_told };

    fn number(&self) -> u8 {
        match self {
            JobRefusal::RowCount => 1,
            JobRefusal::Unlawful(_) => 5,
        }
    }

    fn place(&self) -> Option<usize> {
        match self {
            JobRefusal::RowCount => None,
            JobRefusal::Unlawful(row) => Some(*row),
        }
    }
}
