// Answers as words, for hosts: what is answered is a number of its own, and the words begin with number, place, line and column of the refusal, all 0 where nothing is refused.
#![tactic(auto)]

ghost use Rattle.std.specs.Prelude.{◌≡◌, ◌-◌, ◌≤◌, ◌∷◌, replicate};
ghost use Rattle.dimacs.specs.Names.{refused_spot};
ghost use Rattle.answer_words.specs.Words.{told_words, kind, header_there, opening_kind, opening_words, next_kind, next_words, verdict_kind, log_kind, log_words, written_kind, written_words};

use clause::Next;
use dimacs::{Header, Opening, Refusal, Verdict};
use log_line::Accepted;
use numbers::refusal_words;
use rows::Stopped;

// The words of how a text opens: after the first four its counts of variables and clauses, and the third.
pub const OPENING_WORDS: usize = 7;

// The words of the answer to a call for a clause: after the first four k, and the weight or group.
pub const NEXT_WORDS: usize = 6;

// The words of the answer for a log: after the first four k, and the verdict.
pub const LOG_WORDS: usize = 6;

// The words of a writer's answer: after the first four the length of the line.
pub const WRITTEN_WORDS: usize = 5;

// Whether nothing is there to be read, or something is, or it is refused.
fn kind<T: Copy, E: Copy>(answer: Result<Option<T>, E>) -> u32
    ensures { result ≡ kind answer }
{
    match answer {
        Ok(None) => 0,
        Ok(Some(_)) => 1,
        Err(_) => 2,
    }
}

// A refusal in so many words: zeros follow its own.
fn refused<const N: usize>(refusal: Refusal) -> [u64; N]
    requires { 4 ≤ N }
    ensures { result ≡ told_words refusal.number refusal.place (refused_spot refusal) (replicate (N - 4) 0) }
{
    let mut words = [0; N];
    words[..4].copy_from_slice(&refusal_words(refusal));
    words
}

// A refusal with the count of literals before it, in so many words.
fn stopped<const N: usize>(stopped: Stopped) -> [u64; N]
    requires { 5 ≤ N }
    ensures { result ≡ told_words stopped.refusal.number stopped.refusal.place (refused_spot stopped.refusal) (stopped.count ∷ replicate (N - 5) 0) }
{
    let mut words = refused(stopped.refusal);
    words[4] = stopped.count as u64;
    words
}

// The header of a text, if it has one.
fn header_there(opening: Opening) -> Option<Header>
    ensures { result ≡ header_there opening }
{
    match opening {
        Opening::Header(header, _) => Some(header),
        Opening::NoHeader(_) => None,
    }
}

// Whether a text has a header or none, or is refused.
pub fn opening_kind(o: Result<Opening, Refusal>) -> u32
    ensures { result ≡ opening_kind o }
{
    kind(o.map(header_there))
}

pub fn opening_words(o: Result<Opening, Refusal>) -> [u64; OPENING_WORDS]
    ensures { result ≡ opening_words o }
{
    match o {
        Ok(Opening::Header(header, _)) => {
            let Header {
                variables,
                clauses,
                third,
            } = header;
            [0, 0, 0, 0, variables, clauses, third]
        }
        Ok(Opening::NoHeader(_)) => [0; OPENING_WORDS],
        Err(refusal) => refused(refusal),
    }
}

// Whether a clause, the end or a refusal is answered.
pub fn next_kind(n: Next) -> u32
    ensures { result ≡ next_kind n }
{
    kind(n)
}

pub fn next_words(n: Next) -> [u64; NEXT_WORDS]
    ensures { result ≡ next_words n }
{
    match n {
        Ok(Some(clause)) => [0, 0, 0, 0, clause.count as u64, clause.extra],
        Ok(None) => [0; NEXT_WORDS],
        Err(e) => stopped(e),
    }
}

// The number of a verdict, 0 where no solution line stands. Only a host's words have it: so it is a function here, and no `From` in the crate of its type.
fn verdict_kind(v: Option<Verdict>) -> u64
    ensures { result ≡ verdict_kind v }
{
    match v {
        None => 0,
        Some(Verdict::Yes) => 1,
        Some(Verdict::No) => 2,
        Some(Verdict::Unknown) => 3,
    }
}

// Whether a log is accepted or refused.
pub fn log_kind(l: Result<Accepted, Stopped>) -> u32
    ensures { result ≡ log_kind l }
{
    kind(l.map(Some))
}

pub fn log_words(l: Result<Accepted, Stopped>) -> [u64; LOG_WORDS]
    ensures { result ≡ log_words l }
{
    match l {
        Ok(accepted) => [
            0,
            0,
            0,
            0,
            accepted.count as u64,
            verdict_kind(accepted.verdict),
        ],
        Err(e) => stopped(e),
    }
}

// Whether a line was written or refused.
pub fn written_kind(w: Result<usize, Refusal>) -> u32
    ensures { result ≡ written_kind w }
{
    kind(w.map(Some))
}

pub fn written_words(w: Result<usize, Refusal>) -> [u64; WRITTEN_WORDS]
    ensures { result ≡ written_words w }
{
    match w {
        Ok(length) => [0, 0, 0, 0, length as u64],
        Err(refusal) => refused(refusal),
    }
}
