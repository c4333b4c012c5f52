// Headers and clauses written by the number of a format, for callers in other languages: what is answered is left as words.
//
// `by_number_c` exports them by the C calling convention; host/latchtwig.h declares them for C, host/rust for Rust.
#![tactic(auto)]

ghost use Rattle.std.specs.Prelude.{◌≡◌, length};
ghost use Rattle.dimacs.specs.Header.{header_of};
ghost use Rattle.dimacs.specs.Writing.{write_header, write_clause, write_hard_clause};
ghost use Rattle.writer.specs.Answers.{Writes};
ghost use Rattle.by_number.specs.Lines.{format_of, format_named, line_by, LeavesLine};
ghost use Rattle.answer_words.specs.Words.{written_kind, written_words};

use answer_words::{WRITTEN_WORDS, written_kind, written_words};
use dimacs::{Format, Header, Kind, Reason, Refusal, kind_of, refuse_call};
use numbers::narrowed;

// The format of a text of clauses.
fn format_of(kind: Kind) -> Option<Format>
    ensures { result ≡ format_of kind }
{
    match kind {
        Kind::Clauses(format, _) => Some(format),
        Kind::Log(_) => None,
    }
}

// The format of clauses that a number names in mode 0, as writers have no mode, or refusal 26.
fn named(format: u32) -> Result<Format, Refusal>
    ensures { result ≡ format_named format }
{
    kind_of(narrowed(u64::from(format)), 0)
        .and_then(format_of)
        .ok_or(refuse_call(Reason::FormatOrModeUnknown, 0))
}

fn header_line(format: u32, header: Header, out: &mut [u8]) -> Result<usize, Refusal>
    ensures { Writes (line_by format (λ f. write_header f header (length out.old))) out.old out.new result }
{
    writer::write_header(named(format)?, header, out)
}

fn clause_line(format: u32, extra: u64, lits: &[i32], out: &mut [u8]) -> Result<usize, Refusal>
    ensures { Writes (line_by format (λ f. write_clause f extra lits.now (length out.old))) out.old out.new result }
{
    writer::write_clause(named(format)?, extra, lits, out)
}

fn hard_clause_line(format: u32, lits: &[i32], out: &mut [u8]) -> Result<usize, Refusal>
    ensures { Writes (line_by format (λ f. write_hard_clause f lits.now (length out.old))) out.old out.new result }
{
    writer::write_hard_clause(named(format)?, lits, out)
}

// What is left of a writer's answer: its words, and the number that says what they tell.
fn leave(written: Result<usize, Refusal>, answer: &mut [u64; WRITTEN_WORDS]) -> u32
    ensures kind { result ≡ written_kind written }
    ensures words { answer.new ≡ written_words written }
{
    *answer = written_words(written);
    written_kind(written)
}

// The line of a header at the output's front: 1 for a line, 2 for a refusal. The array holds the refusal's number and place, two zeros, and the length of the line.
pub fn latchtwig_write_header(
    format: u32,
    variables: u64,
    clauses: u64,
    third: u64,
    out: &mut [u8],
    answer: &mut [u64; WRITTEN_WORDS],
) -> u32
    ensures { LeavesLine (line_by format (λ f. write_header f (header_of variables clauses third) (length out.old))) out.old out.new answer.new result }
{
    let header = Header {
        variables,
        clauses,
        third,
    };
    leave(header_line(format, header, out), answer)
}

// The line of a clause at the output's front, answered in the same way. In the 2022 form it is soft, and its weight is not 0.
pub fn latchtwig_write_clause(
    format: u32,
    extra: u64,
    lits: &[i32],
    out: &mut [u8],
    answer: &mut [u64; WRITTEN_WORDS],
) -> u32
    ensures { LeavesLine (line_by format (λ f. write_clause f extra lits.now (length out.old))) out.old out.new answer.new result }
{
    leave(clause_line(format, extra, lits, out), answer)
}

// The line of a hard clause at the output's front, answered in the same way. The 2022 form alone has them.
pub fn latchtwig_write_hard_clause(
    format: u32,
    lits: &[i32],
    out: &mut [u8],
    answer: &mut [u64; WRITTEN_WORDS],
) -> u32
    ensures { LeavesLine (line_by format (λ f. write_hard_clause f lits.now (length out.old))) out.old out.new answer.new result }
{
    leave(hard_clause_line(format, lits, out), answer)
}
