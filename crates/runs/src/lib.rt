// What is offered above single calls: a job table worked from its text to its printed totals.
#![tactic(auto)]

mod reports;

pub use reports::report;
