// The board: a job that is dealt among workers by the dealing rules.
#![tactic(auto)]

mod acts;
mod spawning;
mod tables;
mod worker;
