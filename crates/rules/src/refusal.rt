// Why a call of a board was refused.
ghost use Rattle.std.specs.Prelude.{◌≡◌};
ghost use Rattle.rules.specs.Refusals.{deal_number, deal_told};
ghost use Rattle.rules.specs.declared.refusal.DealRefusal.TheVariants.{Job};

use job::{JobRefusal, Refusal};

// Each call has the causes that its rule lists, and looks for them in that order.
#[derive(Clone, Copy, PartialEq, Eq, Debug)]
pub enum DealRefusal {
    // the job is at fault: its number of rows comes first, and its lowest unlawful row last
    Job(JobRefusal),
    // no workers, or more than 16
    WorkerCount,
    // S or F above 1,024, or INT not from 1 to 1,024
    Figures,
    // the book has fewer lines than the job has rows
    ShortBook,
    // there is no such worker
    NoWorker,
    // the run is finished
    Finished,
    // the worker is out with a slip
    WorkerOut,
    // the next row is this work row, which is taken and not stepped over
    AtWork(usize),
    // the victim is the worker itself, or no worker
    NoVictim,
    // the victim's queues are both empty
    NothingToSteal,
    // the next row is no work row
    NoWork,
    // the slip is not out on this board
    NotOut,
}

impl Refusal for DealRefusal {
    ghost numbered = { deal_number };

    ghost told = { deal_told };

    fn number(&self) -> u8 {
        match self {
            DealRefusal::Job(refusal) => refusal.number(),
            DealRefusal::WorkerCount => 2,
            DealRefusal::Figures => 3,
            DealRefusal::ShortBook => 4,
            DealRefusal::NoWorker => 6,
            DealRefusal::Finished => 7,
            DealRefusal::WorkerOut => 8,
            DealRefusal::AtWork(_) => 9,
            DealRefusal::NoVictim => 10,
            DealRefusal::NothingToSteal => 11,
            DealRefusal::NoWork => 12,
            DealRefusal::NotOut => 13,
        }
    }

    fn place(&self) -> Option<usize> {
        match self {
            DealRefusal::Job(refusal) => refusal.place(),
            DealRefusal::AtWork(row) => Some(*row),
            _ => None,
        }
    }
}

// By hand, since a clause says what it gives.
impl From<JobRefusal> for DealRefusal {
    ghost from_gives = { λ e r. r ≡ Job e };

    fn from(fault: JobRefusal) -> DealRefusal {
        DealRefusal::Job(fault)
    }
}
