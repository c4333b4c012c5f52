// The calls for callers in other languages that judge a whole text, by number and byte slice.
//
// Each takes format and mode by number. `latchtwig_c` exports them by the C calling convention; host/latchtwig.h declares them for C, host/rust for Rust.
#![tactic(auto)]

ghost use Rattle.std.specs.Prelude.{◌≡◌};
ghost use Rattle.latchtwig.specs.Outcomes.{outcome_of_log, outcome, number_told, place_told, words_told, Checks};

use dimacs::{Kind, Mode, ROOM, Reason, Refusal, kind_of, refuse_call};
use numbers::{narrowed, refusal_words};

// The whole log in a mode, with room for as many literals in all as where the caller lends no buffer.
fn read_log(text: &[u8], mode: Mode) -> Result<(), Refusal>
    ensures { result ≡ outcome_of_log mode text.now }
{
    let mut lits = [0i32; ROOM];
    match sat_solver_log::parse_log_as(text, mode, &mut lits) {
        Ok(_) => Ok(()),
        Err(stopped) => Err(stopped.refusal),
    }
}

// The whole text of clauses, or the whole log, by the bytes of a format and a mode.
#[tactic(auto, unfolding(crate::specs::Outcomes::outcome))]
fn read(text: &[u8], format: u8, mode: u8) -> Result<(), Refusal>
    ensures { result ≡ outcome format mode text.now }
{
    match kind_of(format, mode) {
        Some(Kind::Clauses(format, mode)) => formula::read_text(text, format, mode),
        Some(Kind::Log(mode)) => read_log(text, mode),
        None => Err(refuse_call(Reason::FormatOrModeUnknown, 0)),
    }
}

// The same by any two numbers.
fn check(text: &[u8], format: u32, mode: u32) -> Result<(), Refusal>
    ensures { result ≡ outcome format mode text.now }
{
    read(text, narrowed(u64::from(format)), narrowed(u64::from(mode)))
}

// The number of the refusal, or 0 for a text read to its end.
fn number_told(outcome: Result<(), Refusal>) -> u32
    ensures { result ≡ number_told outcome }
{
    match outcome {
        Ok(()) => 0,
        Err(refusal) => u32::from(refusal.number),
    }
}

// Number, place, line and column.
fn words_told(outcome: Result<(), Refusal>, text: &[u8]) -> [u64; 4]
    ensures { result ≡ words_told text.now outcome }
{
    match outcome {
        Ok(()) => [0, text.len() as u64, 0, 0],
        Err(refusal) => refusal_words(refusal),
    }
}

// The number of the refusal that the text comes to, or 0 if it is read to its end.
pub fn latchtwig_refusal(format: u32, mode: u32, text: &[u8]) -> u32
    ensures { result ≡ number_told (outcome format mode text.now) }
{
    number_told(check(text, format, mode))
}

// The place of the refusal that the text comes to, or the text's length if it is read to its end.
pub fn latchtwig_place(format: u32, mode: u32, text: &[u8]) -> u64
    ensures { result ≡ place_told text.now (outcome format mode text.now) }
{
    match check(text, format, mode) {
        Ok(()) => text.len() as u64,
        Err(refusal) => refusal.place as u64,
    }
}

// That number, which is answered and left in the array, and after it there the refusal's place, line and column. Of a text read to its end the place is its length, and line and column are 0.
pub fn latchtwig_check(format: u32, mode: u32, text: &[u8], answer: &mut [u64; 4]) -> u32
    ensures { Checks text.now (outcome format mode text.now) answer.new result }
{
    let outcome = check(text, format, mode);
    *answer = words_told(outcome, text);
    number_told(outcome)
}
