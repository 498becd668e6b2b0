// What a board says of its tasks and workers.

// Where work at a task stands: the inner row is the finish or async row that was entered last and
// not yet left, and the next row is the one to come, or the inner row's end.
#[derive(Clone, Copy, PartialEq, Eq, Debug)]
pub struct Position {
    pub task: u16,
    pub inner: u16,
    pub next: u16,
}

// What a worker does.
#[derive(Clone, Copy, Default, PartialEq, Eq, Debug)]
pub enum WorkerState {
    // it has no task
    #[default]
    Idle,
    // it stands in a task
    Stands(Position),
    // it is out with a slip for the next row, and still its task's worker
    Out(Position),
}

// What has become of a task: of row 0, or of an async row.
#[derive(Clone, Copy, Default, PartialEq, Eq, Debug)]
pub enum TaskState {
    // not yet spawned
    #[default]
    Unspawned,
    // spawned, and in a fresh queue until somebody begins it
    Fresh,
    // begun, and in a preempted queue until somebody goes on with it
    Preempted { inner: u16, next: u16 },
    // with a worker
    Running,
    // waiting at the end of a finish row for the tasks inside
    Suspended { finish: u16 },
    // worked to its end
    Ended,
}

// How a worker places the async rows that it spawns, where neither threshold decides.
#[derive(Clone, Copy, Default, PartialEq, Eq, Debug)]
pub enum Policy {
    // the child waits, and the parent goes on
    #[default]
    HelpFirst,
    // the parent waits, and the child begins
    WorkFirst,
}

// The numbers that a board is loaded with besides its workers.
#[derive(Clone, Copy, Default, PartialEq, Eq, Debug)]
pub struct Figures {
    // S: from so many preempted tasks on, a worker places help-first
    pub stack: usize,
    // F: else from so many fresh tasks on, work-first
    pub fresh: usize,
    // INT: after so many spawns, a worker settles its policy anew
    pub interval: usize,
}
