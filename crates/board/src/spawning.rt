// Async rows spawned and placed.
ghost use Rattle.std.specs.Prelude.{◌≡◌, ◌<◌, ◌≤◌, length, Ok};
ghost use Rattle.rules.specs.declared.answer.Action.{Action};
ghost use Rattle.rules.specs.Boards.{worker, with_worker, live};
ghost use Rattle.rules.specs.Placing.{placing, counts_spawn, raised, helps_first};
ghost use Rattle.rules.specs.Steps.{granted};
ghost use Rattle.rules.specs.Words.{finish_of};

use crate::tables::Tables;
use rules::{Action, Answer, Policy, Position, TaskState};

impl Tables {
    // What a granted call answers: what was done to which row, the finish row closed, and the task
    // that worker w now has.
    pub fn granted(&self, action: Action, row: usize, closed: Option<usize>, w: usize) -> Answer
        requires { w < length self.now.workers }
        ensures { Ok result ≡ (granted action row closed self.now w).answer }
    {
        Answer {
            action,
            row,
            outcome: (closed, self.now_has(w)),
        }
    }

    // The live number of a row's finish rises.
    pub fn raise(&mut self, row: usize)
        requires { live self.old (finish_of self.old.rows row) ≤ 1024 }
        ensures { self.new ≡ raised self.old row }
    {
        let finish = self.job.finish(row).unwrap_or(0);
        self.set_live(finish, self.live(finish) + 1);
    }

    // How worker w places what it spawns.
    pub fn placing(&self, w: usize) -> Policy
        requires { w < length self.now.workers }
        ensures { result ≡ placing self.now.figures (worker self.now w) }
    {
        self.workers[w].placing(&self.figures)
    }

    // Counts a spawn of worker w.
    pub fn count_spawn(&mut self, w: usize)
        requires here { w < length self.old.workers }
        requires fits { (worker self.old w).spawns < 1024 }
        ensures { self.new ≡ with_worker self.old w (counts_spawn self.old.figures (worker self.old w)) }
    {
        self.workers[w].count_spawn(&self.figures);
    }

    // The child waits, and the parent goes on. The row's number fits the 16 bits of a queue's.
    pub fn help_first(&mut self, w: usize, parent: Position, row: usize)
        requires here { w < length self.old.workers }
        requires room { length (worker self.old w).fresh < 1024 }
        requires fits { row < 1024 }
        ensures { self.new ≡ helps_first self.old w parent row }
    {
        self.workers[w].keep(parent, row as u16);
        self.set_task(row, TaskState::Fresh);
    }
}
