// Jobs: rows, sources of rows, and the check that tells the lowest unlawful row.
#![tactic(auto)]

mod entry;
mod kind;
mod lawful;
mod layout;
mod loops;
mod refusal;
mod row;
mod source;

pub use kind::{Kind, UnknownKind};
pub use lawful::{MOST_ROWS, check, row_at, row_count};
pub use layout::Layout;
pub use loops::LoopSource;
pub use refusal::{JobRefusal, Refusal};
pub use row::Row;
pub use source::{JobSource, TableSource};
