// Texts read clause by clause, and logs, for callers in other languages: the cursor is lent as words, and what a call answers is left as words.
//
// Each call takes formats and modes by number. `stepwise_c` exports them by the C calling convention; host/latchtwig.h declares them for C, host/rust for Rust.
#![tactic(auto)]

ghost use Rattle.std.specs.Prelude.{◌≡◌, length};
ghost use Rattle.dimacs.specs.Names.{log_format, kind_of};
ghost use Rattle.stepwise.specs.Calls.{Opens, Nexts, Logs, word_by};

use answer_words::{
    LOG_WORDS, NEXT_WORDS, OPENING_WORDS, log_kind, log_words, next_kind, next_words, opening_kind,
    opening_words,
};
use cursor_words::{WORDS, cursor_words, held_cursor};
use dimacs::{Kind, LOG_FORMAT, kind_of};
use numbers::narrowed;

// The text opened by the numbers of a format of clauses and a mode: 0 for no header, 1 for a header, 2 for a refusal. The array holds the refusal's number, place, line and column, and the
// header's variables, clauses and third count; the cursor's words hold where the clauses begin.
pub fn latchtwig_open(
    format: u32,
    mode: u32,
    text: &[u8],
    cursor: &mut [u64; WORDS],
    answer: &mut [u64; OPENING_WORDS],
) -> u32
    ensures { Opens format mode text.now cursor.new answer.new result }
{
    let opened = formula::open(text, narrowed(u64::from(format)), narrowed(u64::from(mode)));
    *cursor = cursor_words(opened.cursor);
    *answer = opening_words(opened.opening);
    opening_kind(opened.opening)
}

// The next answer from the cursor that the words hold: 0 for the end, 1 for a clause, 2 for a refusal. The array holds the refusal's number, place, line and column, the count of literals that
// the buffer holds, and the clause's weight or group, 0 for a hard clause of the 2022 form; the cursor's words hold where to go on. Words that no opening left are refused by 26.
pub fn latchtwig_next(
    text: &[u8],
    cursor: &mut [u64; WORDS],
    lits: &mut [i32],
    answer: &mut [u64; NEXT_WORDS],
) -> u32
    ensures { Nexts text.now cursor.old cursor.new lits.old lits.new answer.new result }
{
    let step = held_cursor(*cursor).next_clause(text, lits);
    *cursor = cursor_words(step.cursor);
    *answer = next_words(step.answer);
    next_kind(step.answer)
}

// The log by the number of a mode: 1 for a verdict, 2 for a refusal. The array holds the refusal's number, place, line and column, the count of literals that the buffer holds, and the
// verdict: 0 none, 1 satisfiable, 2 unsatisfiable, 3 unknown.
pub fn latchtwig_log(mode: u32, text: &[u8], lits: &mut [i32], answer: &mut [u64; LOG_WORDS]) -> u32
    ensures { Logs mode text.now lits.old lits.new answer.new result }
{
    let log = sat_solver_log::parse_log(text, narrowed(u64::from(mode)), lits);
    *answer = log_words(log);
    log_kind(log)
}

// How long the word is at the place of a refusal, by the number of the mode in which the text was read: 0 at a line end or the end of the text, and where no mode is named.
#[tactic(auto, using(crate::proofs::Parts::log_named))]
pub fn latchtwig_word(mode: u32, text: &[u8], place: u64) -> u64
    ensures { result ≡ length (word_by (kind_of log_format mode) text.now place) }
{
    match kind_of(LOG_FORMAT, narrowed(u64::from(mode))) {
        Some(Kind::Log(named)) => token::stopped_at(text, named.ends, place as usize).len() as u64,
        Some(Kind::Clauses(_, _)) | None => 0,
    }
}
