// The calls of `stepwise` by the C calling convention, for callers in other languages. host/latchtwig.h declares them for C, host/rust for Rust.
#![tactic(auto)]

ghost use Rattle.std.specs.Prelude.{◌≡◌, length};
ghost use Rattle.dimacs.specs.Names.{log_format, kind_of};
ghost use Rattle.stepwise.specs.Calls.{Opens, Nexts, Logs, word_by};

use answer_words::{LOG_WORDS, NEXT_WORDS, OPENING_WORDS};
use cursor_words::WORDS;

// The text opened by the numbers of a format of clauses and a mode: 0 for no header, 1 for a header, 2 for a refusal. The array holds the refusal's number, place, line and column, and the
// header's variables, clauses and third count; the cursor's words hold where the clauses begin.
#[unsafe(no_mangle)]
pub extern "C" fn latchtwig_open(
    format: u32,
    mode: u32,
    text: &[u8],
    cursor: &mut [u64; WORDS],
    answer: &mut [u64; OPENING_WORDS],
) -> u32
    ensures { Opens format mode text.now cursor.new answer.new result }
{
    stepwise::latchtwig_open(format, mode, text, cursor, answer)
}

// The next answer from the cursor that the words hold: 0 for the end, 1 for a clause, 2 for a refusal. The array holds the refusal's number, place, line and column, the count of literals that
// the buffer holds, and the clause's weight or group, 0 for a hard clause of the 2022 form; the cursor's words hold where to go on. Words that no opening left are refused by 26.
#[unsafe(no_mangle)]
pub extern "C" fn latchtwig_next(
    text: &[u8],
    cursor: &mut [u64; WORDS],
    lits: &mut [i32],
    answer: &mut [u64; NEXT_WORDS],
) -> u32
    ensures { Nexts text.now cursor.old cursor.new lits.old lits.new answer.new result }
{
    stepwise::latchtwig_next(text, cursor, lits, answer)
}

// The log by the number of a mode: 1 for a verdict, 2 for a refusal. The array holds the refusal's number, place, line and column, the count of literals that the buffer holds, and the
// verdict: 0 none, 1 satisfiable, 2 unsatisfiable, 3 unknown.
#[unsafe(no_mangle)]
pub extern "C" fn latchtwig_log(
    mode: u32,
    text: &[u8],
    lits: &mut [i32],
    answer: &mut [u64; LOG_WORDS],
) -> u32
    ensures { Logs mode text.now lits.old lits.new answer.new result }
{
    stepwise::latchtwig_log(mode, text, lits, answer)
}

// How long the word is at the place of a refusal, by the number of the mode in which the text was read: 0 at a line end or the end of the text, and where no mode is named.
#[unsafe(no_mangle)]
pub extern "C" fn latchtwig_word(mode: u32, text: &[u8], place: u64) -> u64
    ensures { result ≡ length (word_by (kind_of log_format mode) text.now place) }
{
    stepwise::latchtwig_word(mode, text, place)
}
