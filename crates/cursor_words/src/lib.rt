// A cursor as twelve words, which a host keeps from call to call: one for each number that a cursor holds.
//
// Any words are taken: those that no opening left hold the cursor that repeats refusal 26.
#![tactic(auto)]

ghost use Rattle.std.specs.Prelude.{◌≡◌};
ghost use Rattle.formula.specs.Cursors.{unknown};
ghost use Rattle.cursor_words.specs.Cursors.{format_kind, ends_kind, final_kind, final_refusal, held_format, held_ends, held_final, held_in, held_cursor, Holds};

use dimacs::{Ends, Format, Limits, Progress, Reason, Refusal, refuse_call};
use formula::Cursor;
use numbers::{refusal_of, refusal_words};

// The words of a cursor: an array, as C keeps it.
pub const WORDS: usize = 12;

// Only a host's words have numbers for these three: so each is a function here, and no `From` in the crate of its type.
fn format_kind(format: Format) -> u64
    ensures { result ≡ format_kind format }
{
    match format {
        Format::Plain => 1,
        Format::Weighted => 2,
        Format::Grouped => 3,
        Format::Weighted2022 => 4,
    }
}

fn ends_kind(ends: Ends) -> u64
    ensures { result ≡ ends_kind ends }
{
    match ends {
        Ends::LineFeed => 0,
        Ends::AlsoReturn => 1,
    }
}

fn final_kind(last: Option<Result<(), Refusal>>) -> u64
    ensures { result ≡ final_kind last }
{
    match last {
        None => 0,
        Some(Ok(())) => 1,
        Some(Err(_)) => 2,
    }
}

// The refusal that is repeated, or one of zeros.
fn final_refusal(last: Option<Result<(), Refusal>>) -> Refusal
    ensures { result ≡ final_refusal last }
{
    match last {
        Some(Err(refusal)) => refusal,
        Some(Ok(())) | None => Refusal {
            number: 0,
            place: 0,
            line: 0,
            column: 0,
        },
    }
}

// The words of a cursor, from which it can be had again.
pub fn cursor_words(c: Cursor) -> [u64; WORDS]
    ensures { Holds c result }
{
    let progress = c.progress;
    let limits = c.limits;
    let [number, place, line, column] = refusal_words(final_refusal(progress.last));
    [
        progress.place as u64,
        progress.count,
        limits.literals as u64,
        limits.groups,
        limits.clauses,
        format_kind(c.format),
        ends_kind(c.ends),
        final_kind(progress.last),
        number,
        place,
        line,
        column,
    ]
}

fn held_format(kind: u64) -> Option<Format>
    ensures { result ≡ held_format kind }
{
    match kind {
        1 => Some(Format::Plain),
        2 => Some(Format::Weighted),
        3 => Some(Format::Grouped),
        4 => Some(Format::Weighted2022),
        _ => None,
    }
}

fn held_ends(kind: u64) -> Ends
    ensures { result ≡ held_ends kind }
{
    match kind {
        0 => Ends::LineFeed,
        _ => Ends::AlsoReturn,
    }
}

fn held_final(kind: u64, refusal: Refusal) -> Option<Result<(), Refusal>>
    ensures { result ≡ held_final kind refusal }
{
    match kind {
        0 => None,
        1 => Some(Ok(())),
        _ => Some(Err(refusal)),
    }
}

// The cursor in a format that words hold. A limit of literals above the largest is the largest.
#[tactic(auto, unfolding(crate::specs::Cursors::held_in))]
fn held_in(format: Format, words: [u64; WORDS]) -> Cursor
    ensures { result ≡ held_in format words }
{
    let [
        place,
        count,
        literals,
        groups,
        clauses,
        _,
        ends,
        last,
        number,
        refused_place,
        line,
        column,
    ] = words;
    let refusal = refusal_of([number, refused_place, line, column]);
    Cursor {
        progress: Progress {
            place: place as usize,
            count,
            last: held_final(last, refusal),
        },
        limits: Limits {
            literals: u32::try_from(literals).unwrap_or(u32::MAX),
            groups,
            clauses,
        },
        format,
        ends: held_ends(ends),
    }
}

// The cursor of words that no opening left.
fn no_cursor() -> Cursor
    ensures { result ≡ unknown.cursor }
{
    Cursor {
        progress: Progress {
            place: 0,
            count: 0,
            last: Some(Err(refuse_call(Reason::FormatOrModeUnknown, 0))),
        },
        limits: header::no_limits(),
        format: Format::Plain,
        ends: Ends::LineFeed,
    }
}

// The cursor that any words hold.
#[tactic(auto, unfolding(crate::specs::Cursors::held_cursor))]
pub fn held_cursor(words: [u64; WORDS]) -> Cursor
    ensures { result ≡ held_cursor words }
{
    match held_format(words[5]) {
        Some(format) => held_in(format, words),
        None => no_cursor(),
    }
}
