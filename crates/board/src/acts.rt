// What workers and tasks do: each of these is an act of the dealing rules.
ghost use Rattle.std.specs.Prelude.{◌≡◌, ◌<◌, ◌≤◌, length};
ghost use Rattle.rules.specs.Boards.{now_has, leaves, resumes, takes_up, task};

use crate::tables::Tables;
use rules::{Position, TaskState, WorkerState};

impl Tables {
    // The task that worker w has.
    pub fn now_has(&self, w: usize) -> Option<usize>
        requires { w < length self.now.workers }
        ensures { result ≡ now_has self.now w }
    {
        match self.state(w) {
            WorkerState::Idle => None,
            WorkerState::Stands(at) | WorkerState::Out(at) => Some(at.task as usize),
        }
    }

    // Worker w leaves its task t, of which s has become.
    pub fn leave(&mut self, w: usize, t: usize, s: TaskState)
        requires { w < length self.old.workers }
        ensures { self.new ≡ leaves self.old w t s }
    {
        self.set_state(w, WorkerState::Idle);
        self.set_task(t, s);
    }

    // Where work at task t goes on: where it stopped, or at its beginning. Positions have numbers of
    // 16 bits, so that t is asked to be one.
    pub fn resumed(&self, t: usize) -> Position
        requires here { t < 1024 }
        requires fits { (resumes self.now.rows t (task self.now t)).next ≤ 1024 }
        ensures { result ≡ resumes self.now.rows t (task self.now t) }
    {
        let here = t as u16;
        match self.task(t) {
            TaskState::Preempted { inner, next } => Position {
                task: here,
                inner,
                next,
            },
            TaskState::Suspended { finish } => Position {
                task: here,
                inner: finish,
                next: self.job.end(finish as usize) as u16,
            },
            _ => Position {
                task: here,
                inner: here,
                next: here + 1,
            },
        }
    }

    // Worker w takes task t up.
    pub fn take_up(&mut self, w: usize, t: usize)
        requires worker { w < length self.old.workers }
        requires here { t < 1024 }
        requires fits { (resumes self.old.rows t (task self.old t)).next ≤ 1024 }
        ensures { self.new ≡ takes_up self.old w t }
    {
        let at = self.resumed(t);
        self.set_state(w, WorkerState::Stands(at));
        self.set_task(t, TaskState::Running);
    }
}
