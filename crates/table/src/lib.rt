// Job tables in and out, and the records of run tables.
#![tactic(auto)]

mod field;
mod record;
mod run;
mod text;
mod value;
mod write;

pub use run::{put_refused_record, put_run_header, put_total_record, total_record_room};
pub use text::{TextFault, read_rows};
pub use write::{WriteFault, write_rows};
