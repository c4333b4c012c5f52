// Texts of clauses in each format, read clause by clause in a mode.
//
// `open` answers how the text opens, and a cursor. Each `next_clause` answers a clause, the end or a refusal, and the cursor to go on with.
#![tactic(auto)]

ghost use Rattle.std.specs.Prelude.{◌≡◌, length};
ghost use Rattle.dimacs.specs.Names.{own_room};
ghost use Rattle.dimacs.specs.Lined.{lined};
ghost use Rattle.dimacs.specs.Texts.{progress, next_clause};
ghost use Rattle.token.specs.Words.{WordAt};
ghost use Rattle.clause.specs.Answers.{Answers};
ghost use Rattle.formula.specs.Cursors.{cursor_of, opened_as, opened, unknown, answer_from, reached, absence_of, settled_as, Steps};
ghost use Rattle.formula.specs.Whole.{outcome_from, outcome_in};

use clause::{Answered, Next};
use dimacs::{
    Absence, Ends, Format, Kind, Limits, Mode, Opening, Progress, ROOM, Reason, Refusal, kind_of,
    refuse_call,
};
use rows::Stopped;

// Where a text is read: how far it is read, the limits of its clauses, its format, and what ends its lines.
#[derive(Clone, Copy, Debug, PartialEq, Eq)]
pub struct Cursor {
    pub progress: Progress,
    pub limits: Limits,
    pub format: Format,
    pub ends: Ends,
}

// How a text opens, and the cursor with which its clauses begin.
#[derive(Clone, Copy, Debug, PartialEq, Eq)]
pub struct Opened {
    pub opening: Result<Opening, Refusal>,
    pub cursor: Cursor,
}

// An answer, and the cursor to go on with.
#[derive(Clone, Copy, Debug, PartialEq, Eq)]
pub struct Stepped {
    pub answer: Next,
    pub cursor: Cursor,
}

// The cursor of a text of which no clause is read.
fn begin(
    format: Format,
    ends: Ends,
    limits: Limits,
    place: usize,
    last: Option<Result<(), Refusal>>,
) -> Cursor
    ensures { result ≡ cursor_of format ends limits (progress place 0 last) }
{
    Cursor {
        progress: Progress {
            place,
            count: 0,
            last,
        },
        limits,
        format,
        ends,
    }
}

// The text opened in a format and a mode.
#[tactic(auto, unfolding(crate::specs::Cursors::opened_as, header::specs::Headed::headed_in))]
pub fn open_as(text: &[u8], format: Format, mode: Mode) -> Opened
    ensures { result ≡ opened_as format mode text.now }
{
    let headed = header::parse_header(text, format, mode);
    let opening = headed.opening;
    let (place, last) = match opening {
        Ok(Opening::Header(_, place)) => (place, None),
        Ok(Opening::NoHeader(place)) => (place, None),
        Err(refusal) => (refusal.place, Some(Err(refusal))),
    };
    Opened {
        opening,
        cursor: begin(format, mode.ends, headed.limits, place, last),
    }
}

// What is answered where the numbers name no text of clauses.
fn opened_unknown() -> Opened
    ensures { result ≡ unknown }
{
    let refusal = refuse_call(Reason::FormatOrModeUnknown, 0);
    let limits = header::no_limits();
    Opened {
        opening: Err(refusal),
        cursor: begin(
            Format::Plain,
            Ends::LineFeed,
            limits,
            refusal.place,
            Some(Err(refusal)),
        ),
    }
}

// The text opened by the numbers of a format of clauses and a mode.
pub fn open(text: &[u8], format: u8, mode: u8) -> Opened
    ensures { result ≡ opened format mode text.now }
{
    match kind_of(format, mode) {
        Some(Kind::Clauses(format, mode)) => open_as(text, format, mode),
        _ => opened_unknown(),
    }
}

// Whether the count of clauses is reached, where one applies.
fn reached(most: u64, count: u64) -> bool
    ensures { result ≡ reached most count }
{
    most != 0 && most <= count
}

// Where no count of clauses applies, the text may end before any of them.
fn absence_of(most: u64) -> Absence
    ensures { result ≡ absence_of most }
{
    if most == 0 {
        Absence::MayEnd
    } else {
        Absence::NoClause
    }
}

impl Cursor {
    // The next answer while there is no final one.
    fn look(self, text: &[u8], lits: &mut [i32]) -> Answered
        ensures { Answers (next_clause (lined self.ends text.now) self.format self.limits (length lits.old) self.progress.count self.progress.place) lits.old lits.new result }
    {
        let most = self.limits.clauses;
        let at = token::comments_and_newlines(
            text,
            self.ends,
            token::skip_whitespace(text, self.progress.place),
        );
        if reached(most, self.progress.count) {
            return clause::no_clause(text, self.ends, at);
        }
        clause::clause_at(
            text,
            self.ends,
            at,
            self.format,
            self.limits,
            absence_of(most),
            lits,
        )
    }

    // The next answer: the final one again, once there is one.
    #[tactic(auto, unfolding(dimacs::specs::Texts::answer_at))]
    fn answer(self, text: &[u8], lits: &mut [i32]) -> Answered
        ensures { Answers (answer_from text.now (length lits.old) self) lits.old lits.new result }
    {
        let place = self.progress.place;
        match self.progress.last {
            None => self.look(text, lits),
            Some(Ok(())) => Answered {
                answer: Ok(None),
                place,
            },
            Some(Err(refusal)) => Answered {
                answer: Err(Stopped { refusal, count: 0 }),
                place,
            },
        }
    }

    // The cursor after an answer at a place. A clause is counted; the end and a refusal are final.
    fn settle(self, a: Answered) -> Stepped
        ensures { result ≡ settled_as self a }
    {
        let before = self.progress.count;
        let (count, last) = match a.answer {
            Ok(Some(_)) => (before.saturating_add(1), None),
            Ok(None) => (before, Some(Ok(()))),
            Err(stopped) => (before, Some(Err(stopped.refusal))),
        };
        Stepped {
            answer: a.answer,
            cursor: Cursor {
                progress: Progress {
                    place: a.place,
                    count,
                    last,
                },
                ..self
            },
        }
    }

    // The next clause, the end or a refusal. The buffer then holds the literals read, and after them what it held.
    pub fn next_clause(self, text: &[u8], lits: &mut [i32]) -> Stepped
        ensures { Steps text.now self lits.old lits.new result }
    {
        let a = self.answer(text, lits);
        self.settle(a)
    }

    // The word at the cursor's place, as a part of the text: empty at a line end or the end of the text.
    pub fn stopped_at(self, text: &[u8]) -> &[u8]
        ensures { WordAt text.entry self.ends self.progress.place result }
    {
        token::stopped_at(text, self.ends, self.progress.place)
    }
}

// The whole text from a cursor on, with room for as many literals in a clause as where the caller lends no buffer.
fn read_on(text: &[u8], from: Cursor) -> Result<(), Refusal>
    ensures { result ≡ outcome_from text.now own_room from }
{
    let mut lits = [0i32; ROOM];
    let mut cursor = from;
    loop {
        let step = cursor.next_clause(text, &mut lits);
        cursor = step.cursor;
        match step.answer {
            Ok(Some(_)) => {}
            Ok(None) => return Ok(()),
            Err(stopped) => return Err(stopped.refusal),
        }
    }
}

// The whole text in a format and a mode: read to its end, or its refusal.
#[tactic(auto, using(crate::proofs::Runs::opened_outcome))]
pub fn read_text(text: &[u8], format: Format, mode: Mode) -> Result<(), Refusal>
    ensures { result ≡ outcome_in format mode text.now }
{
    read_on(text, open_as(text, format, mode).cursor)
}
