// The lines that several programs print, laid into a lent page as `pages` lays words and numbers.
#![tactic(auto)]

ghost use Rattle.std.specs.Prelude.{[]};
ghost use Rattle.dimacs.specs.Writing.{third_digits};
ghost use Rattle.pages.specs.Pages.{Laid};
ghost use Rattle.lines.specs.Printed.{printed_label, printed_header, printed_weight, printed_lead, printed_clause, printed_refusal, printed_placed_refusal, printed_spot, printed_opening, printed_case, printed_line};

use dimacs::{Format, HARD, Header, Opening, Refusal};
pub use pages::{Page, first};

// What a caller puts before the place of a refusal, its k, its line and its column.
#[derive(Clone, Copy, Debug, PartialEq, Eq)]
pub struct Words<'a> {
    pub place: &'a [u8],
    pub count: &'a [u8],
    pub line: &'a [u8],
    pub column: &'a [u8],
}

impl Words<'_> {
    // Nothing but the space before each number.
    pub const NONE: Words<'static> = Words {
        place: b"",
        count: b"",
        line: b"",
        column: b"",
    };
}

// A word, and a number after a space.
fn labelled(page: &mut Page, label: &[u8], n: u64)
    ensures { Laid (printed_label label.now n) page.old page.new }
{
    page.word(label);
    page.number(n);
}

// The third count of a header, in the formats that have one.
fn third(page: &mut Page, format: Format, n: u64)
    ensures { Laid (third_digits format n) page.old page.new }
{
    if format.has_third() {
        page.number(n);
    }
}

pub fn header_words(page: &mut Page, header: Header, format: Format)
    ensures { Laid (printed_header format header) page.old page.new }
{
    labelled(page, b"header", header.variables);
    page.number(header.clauses);
    third(page, format, header.third);
}

fn weight(page: &mut Page, n: u64)
    ensures { Laid (printed_weight n) page.old page.new }
{
    page.number(n);
    page.byte(b':');
}

// The weight or group of a clause, in the formats that have one, or the `h` of a hard one.
fn lead(page: &mut Page, format: Format, extra: u64)
    ensures { Laid (printed_lead format extra) page.old page.new }
{
    match format {
        Format::Plain => {}
        Format::Weighted2022 if extra == HARD => page.word(b" h:"),
        Format::Weighted | Format::Weighted2022 => weight(page, extra),
        Format::Grouped => {
            page.word(b" {");
            page.plain_number(extra);
            page.word(b"}:");
        }
    }
}

pub fn clause_words(page: &mut Page, format: Format, extra: u64, lits: &[i32])
    ensures { Laid (printed_clause format extra lits.now) page.old page.new }
{
    page.word(b"clause");
    lead(page, format, extra);
    page.literals(lits);
}

// Number and place of a refusal, a word of the caller's between them.
fn refused_at(page: &mut Page, r: Refusal, place_word: &[u8])
    ensures { Laid (printed_placed_refusal r place_word.now) page.old page.new }
{
    labelled(page, b"refused", r.number as u64);
    labelled(page, place_word, r.place as u64);
}

// Line and column of a refusal, a word of the caller's before each.
fn spot_words(page: &mut Page, r: Refusal, words: &Words)
    ensures { Laid (printed_spot r words.now) page.old page.new }
{
    labelled(page, words.line, r.line as u64);
    labelled(page, words.column, r.column as u64);
}

// Number, place, k, line and column of a refusal, a word of the caller's before each but the number.
pub fn refused_words(page: &mut Page, r: Refusal, count: usize, words: &Words)
    ensures { Laid (printed_refusal r count words.now) page.old page.new }
{
    refused_at(page, r, words.place);
    labelled(page, words.count, count as u64);
    spot_words(page, r, words);
}

// How a text opens; the words are for a refusal.
pub fn opening_words(
    page: &mut Page,
    opening: Result<Opening, Refusal>,
    format: Format,
    words: &Words,
)
    ensures { Laid (printed_opening opening format words.now) page.old page.new }
{
    match opening {
        Ok(Opening::Header(header, _)) => header_words(page, header, format),
        Ok(Opening::NoHeader(_)) => page.word(b"header none"),
        Err(refusal) => refused_words(page, refusal, 0, words),
    }
}

pub fn header_line(page: &mut Page, header: Header, format: Format)
    ensures { Laid (printed_line (printed_header format header)) page.old page.new }
{
    header_words(page, header, format);
    page.byte(b'\n');
}

pub fn clause_line(page: &mut Page, format: Format, extra: u64, lits: &[i32])
    ensures { Laid (printed_line (printed_clause format extra lits.now)) page.old page.new }
{
    clause_words(page, format, extra, lits);
    page.byte(b'\n');
}

pub fn refused_line(page: &mut Page, r: Refusal)
    ensures { Laid (printed_line (printed_placed_refusal r [])) page.old page.new }
{
    refused_at(page, r, b"");
    page.byte(b'\n');
}

pub fn case_line(page: &mut Page, case: u64)
    ensures { Laid (printed_line (printed_case case)) page.old page.new }
{
    labelled(page, b"case", case);
    page.byte(b'\n');
}
