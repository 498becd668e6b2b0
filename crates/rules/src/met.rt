// What a worker meets next.
#[derive(Clone, Copy, PartialEq, Eq, Debug)]
pub enum Met {
    // a work row
    Work(usize),
    // a finish row, to be opened
    Finish(usize),
    // an async row, to be spawned
    Async(usize),
    // the end of its inner row, a finish row
    FinishEnd(usize),
    // the end of its inner row, an async row
    AsyncEnd(usize),
}
