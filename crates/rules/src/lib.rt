// The dealing rules: the words in which a board is described, and what its calls answer. The rules
// themselves are definitions, in specs/.
#![tactic(auto)]

mod answer;
mod met;
mod refusal;
mod state;

pub use answer::{Action, Answer};
pub use met::Met;
pub use refusal::DealRefusal;
pub use state::{Figures, Policy, Position, TaskState, WorkerState};
