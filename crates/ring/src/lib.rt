// The ring of jobs that a tray is made of: who waits in its places, the job at the front, and how a ticket leaves from the midst.
//
// Any record of these types is a ring: its head is taken modulo the places, and it counts no more jobs than there are places.
#![tactic(auto)]

ghost use Rattle.std.specs.Prelude.{◌≡◌, ◌≤◌, ◌<◌};
ghost use Rattle.dimacs.specs.Names.{places};
ghost use Rattle.ring.specs.Ring as def;
ghost use Rattle.ring.specs.Ring.{empty_tray, how_many, waiting, front_of, joined, goes_on, passed, place_of, closed_up, taken_out};

use dimacs::{Ends, Format, Mode, PLACES, Rigor};
use formula::Cursor;
use service::{Part, Stage};

// A job: its ticket, the part of the area that is its text, and how far that is read.
#[derive(Clone, Copy, Debug, PartialEq, Eq)]
pub struct Job {
    pub ticket: u64,
    pub part: Part,
    pub stage: Stage,
}

impl Job {
    // The job with the cursor with which it goes on.
    fn goes_on(self, cursor: Cursor) -> Job
        ensures { result ≡ goes_on self cursor }
    {
        Job {
            stage: Stage::Reading(cursor),
            ..self
        }
    }
}

// The places, the one where the round begins, how many jobs wait from there on, and how many tickets were given. An array with a head and a count, since no memory is asked for and each call takes any of them.
#[derive(Clone, Copy, Debug, PartialEq, Eq)]
pub struct Tray {
    pub jobs: [Job; PLACES],
    pub head: usize,
    pub count: usize,
    pub given: u64,
}

// A fresh tray.
#[tactic(auto, unfolding(crate::specs::Ring::empty_tray))]
pub fn empty() -> Tray
    ensures { result ≡ empty_tray }
{
    let mode = Mode {
        rigor: Rigor::Strict,
        ends: Ends::LineFeed,
    };
    let job = Job {
        ticket: 0,
        part: Part {
            start: 0,
            length: 0,
        },
        stage: Stage::Fresh(Format::Plain, mode),
    };
    Tray {
        jobs: [job; PLACES],
        head: 0,
        count: 0,
        given: 0,
    }
}

// How many jobs wait, as far as there are places.
pub fn how_many(tray: Tray) -> usize
    ensures { result ≡ how_many tray }
{
    tray.count.min(PLACES)
}

// The job at the front, whose turn is next, if one waits.
pub fn front_job(tray: Tray) -> Option<Job>
    ensures { result ≡ front_of (waiting tray) }
{
    if tray.count == 0 {
        return None;
    }
    let place = tray.head % PLACES;
    Some(tray.jobs[place])
}

impl Tray {
    // A job goes to the back, if there is a place.
    #[tactic(auto, unfolding(crate::specs::Ring::joined))]
    pub fn join(mut self, job: Job) -> Tray
        ensures { result ≡ joined self job }
    {
        let count = self.count;
        if PLACES <= count {
            return self;
        }
        let place = (self.head % PLACES + count) % PLACES;
        self.jobs[place] = job;
        self.count = count + 1;
        self
    }

    // The job at the front, served, goes to the back with its cursor, or leaves.
    pub fn pass(mut self, job: Job, goes: Option<Cursor>) -> Tray
        ensures { result ≡ passed self job goes }
    {
        let waiting = how_many(self);
        let head = self.head % PLACES;
        self.head = (head + 1) % PLACES;
        match goes {
            Some(cursor) => {
                let back = (head + waiting) % PLACES;
                self.jobs[back] = job.goes_on(cursor);
                self.count = waiting;
            }
            None => {
                self.count = waiting.saturating_sub(1);
            }
        }
        self
    }

    // How many jobs stand before the one with the ticket, if it waits.
    fn find(self, ticket: u64) -> Option<usize>
        ensures { result ≡ place_of self ticket }
    {
        let count = how_many(self);
        let head = self.head % PLACES;
        for i in 0..count {
            let place = (head + i) % PLACES;
            if self.jobs[place].ticket == ticket {
                return Some(i);
            }
        }
        None
    }

    // The tray without the job that has `from` others ahead of it: those behind it move up.
    fn close_up(mut self, from: usize) -> Tray
        requires { from < how_many self }
        ensures { result ≡ closed_up self (how_many self) from }
    {
        let head = self.head % PLACES;
        let left = how_many(self) - 1;
        for i in from..left {
            let place = (head + i) % PLACES;
            let next = (head + i + 1) % PLACES;
            self.jobs[place] = self.jobs[next];
        }
        self.count = left;
        self
    }

    // The tray without the job that has the ticket, if it waits; the others keep their order.
    #[tactic(auto, unfolding(crate::specs::Ring::taken_out))]
    pub fn take_out(self, ticket: u64) -> Option<Tray>
        ensures { result ≡ taken_out self ticket }
    {
        let from = self.find(ticket)?;
        Some(self.close_up(from))
    }
}
