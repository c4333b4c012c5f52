// Serving a job: its part of a lent area is opened at its first turn, and asked for the next clause at each later one.
#![tactic(auto)]

ghost use Rattle.std.specs.Prelude.{◌≡◌};
ghost use Rattle.std.proofs.Math.ListN as list;
ghost use Rattle.service.specs.Serving as def;
ghost use Rattle.service.specs.Serving.{format_in, opening_served, step_served, serving, served_part, Serves};

use clause::Next;
use dimacs::{Format, Mode, Opening, Reason, Refusal, refuse_call};
use formula::{Cursor, Opened, Stepped};
use rows::Stopped;

// A job before its first turn, with its format and mode, or between turns, with its cursor.
#[derive(Clone, Copy, Debug, PartialEq, Eq)]
pub enum Stage {
    Fresh(Format, Mode),
    Reading(Cursor),
}

impl Stage {
    // The format of a job's text, at any stage.
    pub fn format(self) -> Format
        ensures { result ≡ format_in self }
    {
        match self {
            Stage::Fresh(format, _) => format,
            Stage::Reading(cursor) => cursor.format,
        }
    }
}

// A part of an area.
#[derive(Clone, Copy, Debug, PartialEq, Eq)]
pub struct Part {
    pub start: usize,
    pub length: usize,
}

impl Part {
    // Whether it stands within an area of some length.
    pub fn is_within(self, lent: usize) -> bool
        ensures { result ≡ def.within self.start self.length lent }
    {
        self.start <= lent && self.length <= lent - self.start
    }
}

// What the reader said at a turn: how the text opens, or the answer to a call for the next clause.
#[derive(Clone, Copy, Debug, PartialEq, Eq)]
pub enum Said {
    Opening(Result<Opening, Refusal>),
    Next(Next),
}

// What was said to a job, and the cursor with which it goes on, unless that is its verdict.
#[derive(Clone, Copy, Debug, PartialEq, Eq)]
pub struct Served {
    pub said: Said,
    pub goes: Option<Cursor>,
}

// A job served by an opening: a refused header is its verdict.
fn opened(o: Opened) -> Served
    ensures { result ≡ opening_served o }
{
    let goes = match o.opening {
        Ok(_) => Some(o.cursor),
        Err(_) => None,
    };
    Served {
        said: Said::Opening(o.opening),
        goes,
    }
}

// A job served by a call for the next clause: the end, or a refusal, is its verdict.
fn stepped(s: Stepped) -> Served
    ensures { result ≡ step_served s }
{
    let goes = match s.answer {
        Ok(Some(_)) => Some(s.cursor),
        Ok(None) | Err(_) => None,
    };
    Served {
        said: Said::Next(s.answer),
        goes,
    }
}

// A job's text is opened at its first turn, and asked for the next clause at each later one.
#[tactic(auto, unfolding(crate::specs::Serving::serving))]
fn read(stage: Stage, text: &[u8], lits: &mut [i32]) -> Served
    ensures { Serves (serving text.now (list.length lits.old) stage) lits.old lits.new result }
{
    match stage {
        Stage::Fresh(format, mode) => opened(formula::open_as(text, format, mode)),
        Stage::Reading(cursor) => stepped(cursor.next_clause(text, lits)),
    }
}

// A job is served on its own part of the area. A part outside the area is refused.
#[tactic(auto, unfolding(crate::specs::Serving::served_part))]
pub fn serve(stage: Stage, part: Part, area: &[u8], lits: &mut [i32]) -> Served
    ensures { Serves (served_part area.now part.start part.length (list.length lits.old) stage) lits.old lits.new result }
{
    if part.is_within(area.len()) {
        let end = part.start + part.length;
        return read(stage, &area[part.start..end], lits);
    }
    let refusal = refuse_call(Reason::PartOutsideArea, 0);
    Served {
        said: Said::Next(Err(Stopped { refusal, count: 0 })),
        goes: None,
    }
}
