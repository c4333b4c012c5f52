// The calls of `by_number` by the C calling convention, for callers in other languages. host/latchtwig.h declares them for C, host/rust for Rust.
#![tactic(auto)]

ghost use Rattle.std.specs.Prelude.{length};
ghost use Rattle.dimacs.specs.Header.{header_of};
ghost use Rattle.dimacs.specs.Writing.{write_header, write_clause, write_hard_clause};
ghost use Rattle.by_number.specs.Lines.{line_by, LeavesLine};

use answer_words::WRITTEN_WORDS;

// The line of a header at the output's front: 1 for a line, 2 for a refusal. The array holds the refusal's number and place, two zeros, and the length of the line.
#[unsafe(no_mangle)]
pub extern "C" fn latchtwig_write_header(
    format: u32,
    variables: u64,
    clauses: u64,
    third: u64,
    out: &mut [u8],
    answer: &mut [u64; WRITTEN_WORDS],
) -> u32
    ensures { LeavesLine (line_by format (λ f. write_header f (header_of variables clauses third) (length out.old))) out.old out.new answer.new result }
{
    by_number::latchtwig_write_header(format, variables, clauses, third, out, answer)
}

// The line of a clause at the output's front, answered in the same way. In the 2022 form it is soft, and its weight is not 0.
#[unsafe(no_mangle)]
pub extern "C" fn latchtwig_write_clause(
    format: u32,
    extra: u64,
    lits: &[i32],
    out: &mut [u8],
    answer: &mut [u64; WRITTEN_WORDS],
) -> u32
    ensures { LeavesLine (line_by format (λ f. write_clause f extra lits.now (length out.old))) out.old out.new answer.new result }
{
    by_number::latchtwig_write_clause(format, extra, lits, out, answer)
}

// The line of a hard clause at the output's front, answered in the same way. The 2022 form alone has them.
#[unsafe(no_mangle)]
pub extern "C" fn latchtwig_write_hard_clause(
    format: u32,
    lits: &[i32],
    out: &mut [u8],
    answer: &mut [u64; WRITTEN_WORDS],
) -> u32
    ensures { LeavesLine (line_by format (λ f. write_hard_clause f lits.now (length out.old))) out.old out.new answer.new result }
{
    by_number::latchtwig_write_hard_clause(format, lits, out, answer)
}
