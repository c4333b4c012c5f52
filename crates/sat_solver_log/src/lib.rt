// Solver logs: a verdict, and an assignment read into a lent buffer of literals.
#![tactic(auto)]

ghost use Rattle.std.specs.Prelude.{◌≡◌, ◌≤◌, length, take};
ghost use Rattle.dimacs.specs.Names.{log_format, kind_of};
ghost use Rattle.dimacs.specs.Lined.{lined};
ghost use Rattle.dimacs.specs.Logs.{log_line, log};
ghost use Rattle.log_line.specs.Lines.{log_state_of, ReadsLine};
ghost use Rattle.sat_solver_log.specs.Answers.{line_leads, log_by, Parses};
ghost use Rattle.sat_solver_log.specs.Starts.{found, value_start, solution_start};

use dimacs::{Assignment, Kind, LOG_FORMAT, Mode, Reason, Verdict, kind_of, refuse_call};
use log_line::{Accepted, Reading, log_end, other_line, solution_line, value_line};
use rows::Stopped;

// What a line that is not refused leads to: where the next is read, or what the log comes to at its end.
#[derive(Clone, Copy, Debug, PartialEq, Eq)]
enum Line {
    Again(Reading),
    End(Accepted),
}

// What stands at a place, by the place past it, which is the place itself where nothing stands.
fn found(at: usize, past: usize) -> Option<usize>
    ensures { result ≡ found at past }
{
    (past != at).then_some(past)
}

// Past `v `, while no 0 has closed the assignment.
fn value_start(text: &[u8], at: usize, assignment: Assignment) -> Option<usize>
    ensures { result ≡ value_start text.now assignment at }
{
    if assignment == Assignment::Closed {
        return None;
    }
    found(at, token::fixed(text, at, b"v "))
}

// Past `s `, if no solution line came.
fn solution_start(text: &[u8], at: usize, verdict: Option<Verdict>) -> Option<usize>
    ensures { result ≡ solution_start text.now verdict at }
{
    if verdict.is_some() {
        return None;
    }
    found(at, token::fixed(text, at, b"s "))
}

// One line of any kind, or the end of the text.
fn any_line(text: &[u8], mode: Mode, reading: Reading, lits: &mut [i32]) -> Result<Line, Stopped>
    requires { reading.count ≤ length lits.old }
    ensures { ReadsLine (log_line (lined mode.ends text.now) mode.rigor (length lits.old) (log_state_of reading (take reading.count lits.old))) lits.old lits.new (line_leads result) }
{
    let ends = mode.ends;
    let at = reading.place;
    if let Some(place) = found(at, token::interactive_strict_comment(text, ends, at)) {
        return Ok(Line::Again(Reading { place, ..reading }));
    }
    if let Some(values) = value_start(text, at, reading.assignment) {
        return value_line(text, ends, values, reading, lits).map(Line::Again);
    }
    if let Some(word) = solution_start(text, at, reading.verdict) {
        return solution_line(text, ends, word, reading).map(Line::Again);
    }
    if token::eof(text, at) {
        return log_end(text, ends, reading).map(Line::End);
    }
    other_line(text, mode, reading).map(Line::Again)
}

// The log in a mode. The buffer then holds the literals read, and after them what it held.
pub fn parse_log_as(text: &[u8], mode: Mode, lits: &mut [i32]) -> Result<Accepted, Stopped>
    ensures { Parses (log text.now mode (length lits.old)) lits.old lits.new result }
{
    let mut reading = Reading {
        place: 0,
        verdict: None,
        assignment: Assignment::Unbegun,
        count: 0,
    };
    // From line to line, and by no iterator, since each line is lent the buffer.
    loop {
        match any_line(text, mode, reading, lits)? {
            Line::Again(next) => reading = next,
            Line::End(accepted) => return Ok(accepted),
        }
    }
}

// The log by the number of a mode, or refusal 26 where it names none.
pub fn parse_log(text: &[u8], mode: u8, lits: &mut [i32]) -> Result<Accepted, Stopped>
    ensures { Parses (log_by (kind_of log_format mode) text.now (length lits.old)) lits.old lits.new result }
{
    match kind_of(LOG_FORMAT, mode) {
        Some(Kind::Log(named)) => parse_log_as(text, named, lits),
        Some(Kind::Clauses(_, _)) | None => Err(Stopped {
            refusal: refuse_call(Reason::FormatOrModeUnknown, 0),
            count: 0,
        }),
    }
}
