// The tables of a board, in fixed memory, and their cells.
ghost use Rattle.std.specs.Prelude.{◌≡◌, ◌<◌, length};
ghost use Rattle.rules.specs.Boards.{no_board, worker, task, live, to_state, with_worker, with_task, with_live};

use crate::worker::Worker;
use arrayvec::ArrayVec;
use job::{Layout, MOST_ROWS};
use rules::{Figures, TaskState, WorkerState};
use std::marker::Model;

// The most workers of a board.
pub const MOST_WORKERS: usize = 16;

// How far a row has come.
#[derive(Clone, Copy, Default, PartialEq, Eq, Debug)]
pub struct Progress {
    // what has become of its task
    pub task: TaskState,
    // the live number of a finish row
    pub live: u16,
}

// A board with its workers and the rows of its job.
#[derive(Debug, Default, Drop)]
pub struct Tables {
    // the job, with what the rules ask of its rows
    pub job: Layout,
    // how far each of its rows has come
    pub progress: ArrayVec<Progress, MOST_ROWS>,
    // the workers that are at work
    pub workers: ArrayVec<Worker, MOST_WORKERS>,
    pub figures: Figures,
    pub finished: bool,
}

// Clauses see the board of the rules.
impl Model for Tables {
    ghost use Rattle.std.specs.Prelude.{◌≡◌, length, map};
    ghost use Rattle.job.specs.Layouts.{laid};
    ghost use Rattle.rules.specs.Boards.{Board};

    ghost Value = { Board };

    ghost use Rattle.board.specs.declared.tables.Progress.{Progress};

    ghost view = { λ t. record {
      rows = laid t.job;
      workers = t.workers.items;
      tasks = map (λ (p : Progress). p.task) t.progress.items;
      lives = map (λ (p : Progress). p.live) t.progress.items;
      figures = t.figures;
      finished = t.finished;
    } };

    ghost invariant = { λ t. length t.progress.items ≡ length (laid t.job) };
}

impl Tables {
    // A board never loaded.
    pub fn new() -> Tables
        ensures { result ≡ no_board }
    {
        Tables::default()
    }

    // What worker w does. Each call on a worker asks that there is one: a type for such a number
    // would have to name the board that it counts on.
    pub fn state(&self, w: usize) -> WorkerState
        requires { w < length self.now.workers }
        ensures { result ≡ (worker self.now w).state }
    {
        self.workers[w].state()
    }

    pub fn set_state(&mut self, w: usize, state: WorkerState)
        requires { w < length self.old.workers }
        ensures { self.new ≡ with_worker self.old w (to_state state (worker self.old w)) }
    {
        self.workers[w].set_state(state);
    }

    // What has become of task t; past the last row nothing has.
    pub fn task(&self, t: usize) -> TaskState
        ensures { result ≡ task self.now t }
    {
        self.progress.get(t).copied().unwrap_or_default().task
    }

    // The task and the live number have a pair of functions each, since the rules read and change
    // them under names of their own.
    pub fn set_task(&mut self, t: usize, task: TaskState)
        ensures { self.new ≡ with_task self.old t task }
    {
        let Some(row) = self.progress.get_mut(t) else {
            return;
        };
        row.task = task;
    }

    // The live number of finish row f; past the last row it is 0.
    pub fn live(&self, f: usize) -> u16
        ensures { result ≡ live self.now f }
    {
        self.progress.get(f).copied().unwrap_or_default().live
    }

    pub fn set_live(&mut self, f: usize, live: u16)
        ensures { self.new ≡ with_live self.old f live }
    {
        let Some(row) = self.progress.get_mut(f) else {
            return;
        };
        row.live = live;
    }
}
