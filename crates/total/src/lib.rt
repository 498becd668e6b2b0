// Kinds of total, books of them, and the serial totals of a job.
#![tactic(auto)]

mod book;
mod count;
mod kind;
mod output;
mod span;

pub use book::{BookRefusal, fill_serial_totals};
pub use count::Count;
pub use kind::{Printed, Total};
pub use output::{
    OutputRefusal, has_room, integer_len, number_len, put_bytes, put_integer, put_number,
    put_pieces,
};
pub use span::{Span, SpanRefusal};
