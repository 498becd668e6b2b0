// What a granted step answers.

// What a step did.
#[derive(Clone, Copy, PartialEq, Eq, Debug)]
pub enum Action {
    // opened a finish row
    Open,
    // spawned an async row, and began it
    First,
    // spawned an async row, and left it in the fresh queue
    Fresh,
    // closed a finish row
    Close,
    // suspended a task at the end of a finish row
    Wait,
    // ended a task
    End,
    // took a task from a victim
    Steal,
}

#[derive(Clone, Copy, PartialEq, Eq, Debug)]
pub struct Answer {
    pub action: Action,
    // the row opened, spawned, closed, waited for, ended or stolen
    pub row: usize,
    // the pair that every step answers by rule: the finish row closed, and the task that the worker
    // now has
    pub outcome: (Option<usize>, Option<usize>),
}
