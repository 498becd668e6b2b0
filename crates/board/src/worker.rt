// One worker of a board.
ghost use Rattle.std.specs.Prelude.{◌≡◌, ◌<◌, ◌∷◌, length};
ghost use Rattle.rules.specs.declared.state.WorkerState.TheVariants.{Idle, Stands};
ghost use Rattle.rules.specs.Boards.{to_state, to_preempted, to_fresh, no_worker};
ghost use Rattle.rules.specs.Placing.{placing, counts_spawn};
ghost use Rattle.board.specs.Workers.{offers, robbed_of};

use deque::Deque;
use rules::{Figures, Policy, Position, WorkerState};
use std::marker::Model;

// What a worker does, its two queues, its counters and its policy.
#[derive(Clone, Debug, Default, Drop)]
pub struct Worker {
    preempted: Deque,
    fresh: Deque,
    state: WorkerState,
    // spawns since its policy was settled
    spawns: u16,
    // tasks stolen from it since then
    steals: u16,
    policy: Policy,
}

// Clauses see the worker of the rules.
impl Model for Worker {
    ghost use Rattle.deque.specs.Deques.{rows_in};
    ghost use Rattle.rules.specs.Boards.{Worker as Dealer};

    ghost Value = { Dealer };

    ghost view = { λ x. record {
      state = x.state;
      preempted = rows_in x.preempted;
      fresh = rows_in x.fresh;
      spawns = x.spawns;
      steals = x.steals;
      policy = x.policy;
    } };
}

impl Worker {
    // A worker that has done nothing yet.
    pub fn new() -> Worker
        ensures { result ≡ no_worker }
    {
        Worker::default()
    }

    // What it does.
    pub fn state(&self) -> WorkerState
        ensures { result ≡ self.now.state }
    {
        self.state
    }

    pub fn set_state(&mut self, state: WorkerState)
        ensures { self.new ≡ to_state state self.old }
    {
        self.state = state;
    }

    // How it places what it spawns: by S, else by F, else by its policy.
    pub fn placing(&self, figures: &Figures) -> Policy
        ensures { result ≡ placing figures.now self.now }
    {
        if self.preempted.len() >= figures.stack {
            Policy::HelpFirst
        } else if self.fresh.len() >= figures.fresh {
            Policy::WorkFirst
        } else {
            self.policy
        }
    }

    // Counts a spawn. After INT of them the policy is settled by the steals since the last time.
    pub fn count_spawn(&mut self, figures: &Figures)
        requires { self.old.spawns < 1024 }
        ensures { self.new ≡ counts_spawn figures.now self.old }
    {
        self.spawns += 1;
        if self.spawns as usize >= figures.interval {
            self.policy = if self.steals as usize > figures.interval {
                Policy::HelpFirst
            } else {
                Policy::WorkFirst
            };
            self.spawns = 0;
            self.steals = 0;
        }
    }

    // Goes on at a position, with a child at the bottom of the fresh queue.
    pub fn keep(&mut self, at: Position, child: u16)
        requires { length self.old.fresh < 1024 }
        ensures { self.new ≡ to_fresh (child ∷ self.old.fresh) (to_state (Stands at) self.old) }
    {
        self.state = WorkerState::Stands(at);
        self.fresh.push_bottom(child).unwrap();
    }

    // Leaves a task at the bottom of the preempted queue.
    pub fn park(&mut self, task: u16)
        requires { length self.old.preempted < 1024 }
        ensures { self.new ≡ to_preempted (task ∷ self.old.preempted) (to_state Idle self.old) }
    {
        self.state = WorkerState::Idle;
        self.preempted.push_bottom(task).unwrap();
    }

    // Gives up the task at the top of its preempted queue, or if there is none that at the top of
    // its fresh queue, and counts the theft.
    pub fn rob(&mut self) -> Option<u16>
        requires { self.old.steals < 1024 }
        ensures result { result ≡ offers self.old }
        ensures after { self.new ≡ robbed_of self.old }
    {
        // no chain with a closure: of the queue that it changes a proof then knows too little
        let stolen = match self.preempted.pop_top() {
            Some(task) => task,
            None => self.fresh.pop_top()?,
        };
        self.steals += 1;
        Some(stolen)
    }
}
