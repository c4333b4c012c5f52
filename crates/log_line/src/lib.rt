// The lines of a solver log: what each kind of line leads to, with its literals read into a lent buffer.
#![tactic(auto)]

ghost use Rattle.std.specs.Prelude.{◌≡◌, length, take, Some};
ghost use Rattle.dimacs.specs.Names.{refusal};
ghost use Rattle.dimacs.specs.Lined.{lined};
ghost use Rattle.dimacs.specs.Logs.{line_read, solution_line, log_end, other_line, value_line};
ghost use Rattle.rows.specs.Answers.{stopped_after, ByCount};
ghost use Rattle.log_line.specs.Answers.{log_of};
ghost use Rattle.log_line.specs.Lines.{log_state_of, log_line_of, leads, ReadsLine};

use dimacs::{Assignment, CEILING, Ends, Mode, Reason, Rigor, Verdict, refuse};
use rows::{Row, Stopped};

// What an accepted log comes to: the solver's verdict, if a solution line stands, and how many literals of the assignment the buffer holds.
// The count is a word and stands first, as the place of a reading does: so LLVM takes neither apart where either may be answered.
#[derive(Clone, Copy, Debug, PartialEq, Eq)]
pub struct Accepted {
    pub count: usize,
    pub verdict: Option<Verdict>,
}

// Where a log is read: the place, the verdict so far, how far the assignment is, and how many literals the buffer holds.
#[derive(Clone, Copy, Debug, PartialEq, Eq)]
pub struct Reading {
    pub place: usize,
    pub verdict: Option<Verdict>,
    pub assignment: Assignment,
    pub count: usize,
}

// A refusal at a place, after so many literals. It ends a log, so LLVM keeps the registers for the lines before it.
#[cold]
fn stopped(text: &[u8], ends: Ends, reason: Reason, place: usize, count: usize) -> Stopped
    ensures { result ≡ stopped_after count (refusal (lined ends text.now) reason place) }
{
    Stopped {
        refusal: refuse(text, ends, reason, place),
        count,
    }
}

// A value line or solution line is read up to a place: what closes it.
fn line_read(text: &[u8], ends: Ends, read: Reading) -> Result<Reading, Stopped>
    ensures { ByCount read.count (λ so. log_line_of (line_read (lined ends text.now) read.place read.verdict read.assignment so)) (leads result) }
{
    match token::interactive_end_of_line(text, ends, read.place) {
        Some(place) => Ok(Reading { place, ..read }),
        None => Err(stopped(text, ends, Reason::LineEndExpected, read.place, read.count)),
    }
}

// A value line after its `v `.
pub fn value_line(
    text: &[u8],
    ends: Ends,
    at: usize,
    reading: Reading,
    lits: &mut [i32],
) -> Result<Reading, Stopped>
    ensures { ReadsLine (value_line (lined ends text.now) (length lits.old) at (log_state_of reading (take reading.count lits.old))) lits.old lits.new (leads result) }
{
    let from = token::skip_whitespace(text, at);
    match rows::ints(text, ends, from, CEILING, reading.count, lits)? {
        Row::Ends { place, count } => {
            let read = Reading {
                place,
                assignment: Assignment::Begun,
                count,
                ..reading
            };
            line_read(text, ends, read)
        }
        Row::Closes { place, count } => {
            let read = Reading {
                place,
                assignment: Assignment::Closed,
                count,
                ..reading
            };
            line_read(text, ends, read)
        }
    }
}

// A solution line is read up to a place: past its word, which says a verdict.
fn verdict_read(
    text: &[u8],
    ends: Ends,
    place: usize,
    verdict: Verdict,
    assignment: Assignment,
    count: usize,
) -> Result<Reading, Stopped>
    ensures { ByCount count (λ so. log_line_of (line_read (lined ends text.now) place (Some verdict) assignment so)) (leads result) }
{
    let said = Reading {
        place,
        verdict: Some(verdict),
        assignment,
        count,
    };
    line_read(text, ends, said)
}

// The words of a solution line, and what each says.
const WORDS: [(&[u8], Verdict); 3] = [
    (b"SATISFIABLE", Verdict::Yes),
    (b"UNSATISFIABLE", Verdict::No),
    (b"UNKNOWN", Verdict::Unknown),
];

// A solution line after its `s `. At most one is read of a log. Apart, it leaves the loop over the lines short: so LLVM sees that a buffer whose literals no one reads need not be cleared.
#[inline(never)]
pub fn solution_line(
    text: &[u8],
    ends: Ends,
    at: usize,
    reading: Reading,
) -> Result<Reading, Stopped>
    ensures { ByCount reading.count (λ so. log_line_of (solution_line (lined ends text.now) at (log_state_of reading so))) (leads result) }
{
    for (word, verdict) in WORDS {
        // Where the word does not stand, this is the place itself, as in the definition.
        let place = token::fixed(text, at, word);
        if place != at {
            return verdict_read(
                text,
                ends,
                place,
                verdict,
                reading.assignment,
                reading.count,
            );
        }
    }
    Err(stopped(text, ends, Reason::SolutionExpected, at, reading.count))
}

// The end of the text, which may not come while the assignment is open.
pub fn log_end(text: &[u8], ends: Ends, reading: Reading) -> Result<Accepted, Stopped>
    ensures { ByCount reading.count (λ so. log_of (log_end (lined ends text.now) reading.place reading.verdict so reading.assignment)) result }
{
    let verdict = reading.verdict;
    let count = reading.count;
    match reading.assignment {
        Assignment::Begun => Err(stopped(text, ends, Reason::AssignmentOpen, reading.place, count)),
        Assignment::Unbegun | Assignment::Closed => Ok(Accepted { verdict, count }),
    }
}

// A line of no permitted kind: refused, or skipped in a lenient reading.
pub fn other_line(text: &[u8], mode: Mode, reading: Reading) -> Result<Reading, Stopped>
    ensures { ByCount reading.count (λ so. log_line_of (other_line (lined mode.ends text.now) mode.rigor (log_state_of reading so))) (leads result) }
{
    let ends = mode.ends;
    let place = reading.place;
    match mode.rigor {
        Rigor::Strict => Err(stopped(text, ends, Reason::LogLineExpected, place, reading.count)),
        Rigor::Lenient => Ok(Reading {
            place: token::interactive_skip_line(text, ends, place),
            ..reading
        }),
    }
}
