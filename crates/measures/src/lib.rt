// What is measured of a line before its first byte is put: whether its literals can be written, and how long it will be.
#![tactic(auto)]

ghost use Rattle.std.specs.Prelude.{◌≡◌, ◌+◌, ◌-◌, length};
ghost use Rattle.dimacs.specs.Tokens.{run};
ghost use Rattle.dimacs.specs.Writing.{item, items, lead, third_digits, is_literal, header_line};
ghost use Rattle.measures.specs.Lines.{header_start};

use decimals::{digit_count, literal_length};
use dimacs::{CEILING, Format, HARD, Header};

fn is_literal(literal: i32) -> bool
    ensures { result ≡ is_literal literal }
{
    matches!(literal.unsigned_abs(), 1..=CEILING)
}

// How many literals come before the first that cannot be written.
pub fn writable(lits: &[i32]) -> usize
    ensures { result ≡ run is_literal lits.now }
{
    lits.iter().take_while(|lit| is_literal(**lit)).count()
}

// How many bytes a literal takes with the space after it.
fn item_length(literal: i32) -> usize
    ensures { result ≡ length (item literal) }
{
    literal_length(literal) + 1
}

// How many bytes are left of so many after literals with the spaces after them, 0 if these are more. Each is taken from what is left, so that no sum can overflow.
pub fn left_after(room: usize, lits: &[i32]) -> usize
    ensures { result ≡ room - length (items lits.now) }
{
    let mut left = room;
    for lit in lits {
        let long = item_length(*lit);
        if left < long {
            return 0;
        }
        left -= long;
    }
    left
}

// How long what stands around the literals is: the 0 and the line end, and a weight, a group with its braces or the word `h`, with its space.
#[tactic(auto, using(crate::proofs::Lines::digits_few))]
pub fn around_length(format: Format, extra: u64) -> usize
    ensures { result ≡ length (lead format extra) + 2 }
{
    match format {
        Format::Plain => 2,
        Format::Grouped => digit_count(extra) + 5,
        Format::Weighted2022 if extra == HARD => 4,
        Format::Weighted | Format::Weighted2022 => digit_count(extra) + 3,
    }
}

// How long what a header begins with is.
fn start_length(format: Format) -> usize
    ensures { result ≡ length (header_start format) }
{
    match format {
        Format::Plain => 5,
        Format::Weighted | Format::Grouped => 6,
        Format::Weighted2022 => 2,
    }
}

// How long the third count is with its space, if the format has one.
#[tactic(auto, using(crate::proofs::Lines::digits_few))]
fn third_length(format: Format, third: u64) -> usize
    ensures { result ≡ length (third_digits format third) }
{
    if format.has_third() {
        digit_count(third) + 1
    } else {
        0
    }
}

// Beside its start and its counts a header has two spaces and the line end.
#[tactic(auto, using(crate::proofs::Lines::digits_few, crate::proofs::Lines::start_bounded, crate::proofs::Lines::third_bounded, crate::proofs::Lines::header_long))]
pub fn header_length(format: Format, header: Header) -> usize
    ensures { result ≡ length (header_line format header) }
{
    let counts = digit_count(header.variables) + digit_count(header.clauses);
    counts + start_length(format) + third_length(format, header.third) + 3
}
