// Writes formulas, reads each back in every mode, and prints its text and what was read of it.
//
// Where that is not what was written, `differs` is printed.
#![tactic(auto)]

ghost use Rattle.std.specs.Prelude.{◌≡◌, ◌≤◌, length};
ghost use Rattle.writer.specs.Answers.{line_length};
ghost use Rattle.pages.specs.Pages.{Laid};
ghost use Rattle.copy_cases.specs.Titles.{format_name, title_line};

use clause::Next;
use dimacs::{Ends, Format, HARD, Header, LARGEST, Mode, Opening, ROOM, Refusal, Rigor};
use formula::Cursor;
use lines::{Page, first};
use std::io::Stdout;

// The longest text.
const TEXT: usize = 65536;

// The longest line: a clause with a group of 20 digits and as many literals as there is room for, each a space, a sign and ten digits.
const PAGE: usize = 31 + 12 * ROOM;

// A clause by its weight or group, 0 where it has none, and its literals.
#[derive(Clone, Copy, PartialEq, Eq)]
struct Given<'a> {
    extra: u64,
    lits: &'a [i32],
}

impl<'a> Given<'a> {
    fn new(extra: u64, lits: &'a [i32]) -> Given<'a> {
        Given { extra, lits }
    }
}

#[derive(Clone, Copy)]
struct Formula<'a> {
    format: Format,
    header: Option<Header>,
    clauses: &'a [Given<'a>],
}

// Where lines are laid and then printed. Each program has one of its own, as methods stand only beside their type.
#[derive(Drop)]
struct Printer<'a> {
    page: Page<'a>,
    out: &'a mut Stdout,
}

impl Printer<'_> {
    fn show(&mut self) {
        self.page.show(self.out);
    }
}

// Says so if what was read is not what was written.
fn compared(stdout: &mut Stdout, same: bool) {
    if !same {
        console::print(stdout, b"differs\n");
    }
}

// The length of a line, if one was written.
fn line_length(stdout: &mut Stdout, answer: Result<usize, Refusal>) -> usize
    ensures { result ≡ line_length answer }
{
    match answer {
        Ok(n) => n,
        Err(_) => {
            console::print(stdout, b"unwritten\n");
            0
        }
    }
}

// The header written, if there is one, and its length.
fn put_header(stdout: &mut Stdout, text: &mut [u8], format: Format, header: Option<Header>) -> usize
    ensures { result ≤ length text.old }
{
    match header {
        None => 0,
        Some(header) => line_length(stdout, writer::write_header(format, header, text)),
    }
}

// A clause written by the call for its kind.
fn write_clause(format: Format, clause: Given, out: &mut [u8]) -> Result<usize, Refusal>
    ensures { line_length result ≤ length out.old }
{
    if clause.extra == HARD && format.has_hard() {
        return writer::write_hard_clause(format, clause.lits, out);
    }
    writer::write_clause(format, clause.extra, clause.lits, out)
}

// The whole formula written, and its length.
fn written(stdout: &mut Stdout, text: &mut [u8], f: Formula) -> usize {
    let mut at = put_header(stdout, text, f.format, f.header);
    for clause in f.clauses {
        let answer = write_clause(f.format, *clause, &mut text[at..]);
        at += line_length(stdout, answer);
    }
    at
}

fn opening_read(printer: &mut Printer, f: Formula, read: Result<Opening, Refusal>) {
    match read {
        Ok(Opening::Header(header, _)) => {
            lines::header_line(&mut printer.page, header, f.format);
            printer.show();
            compared(printer.out, f.header == Some(header));
        }
        Ok(Opening::NoHeader(_)) => {
            console::print(printer.out, b"header none\n");
            compared(printer.out, f.header.is_none());
        }
        Err(_) => {}
    }
}

// A clause that was read, as it is given.
fn clause_read(printer: &mut Printer, format: Format, read: Given, due: Option<Given>) {
    lines::clause_line(&mut printer.page, format, read.extra, read.lits);
    printer.show();
    compared(printer.out, due == Some(read));
}

// An answer of the reader. It must be the clause that is due, or the end where none is.
fn answer_read(
    printer: &mut Printer,
    answer: Next,
    format: Format,
    lits: &[i32],
    due: Option<Given>,
) {
    match answer {
        Ok(Some(clause)) => {
            let read = Given {
                extra: clause.extra,
                lits: first(lits, clause.count),
            };
            clause_read(printer, format, read, due);
        }
        Ok(None) => {
            console::print(printer.out, b"end\n");
            compared(printer.out, due.is_none());
        }
        Err(stopped) => {
            lines::refused_line(&mut printer.page, stopped.refusal);
            printer.show();
            compared(printer.out, false);
        }
    }
}

// The next answer of the reader, and the cursor past it.
fn next_read(
    printer: &mut Printer,
    text: &[u8],
    cursor: Cursor,
    lits: &mut [i32],
    due: Option<Given>,
) -> Cursor {
    let format = cursor.format;
    let step = cursor.next_clause(text, lits);
    answer_read(printer, step.answer, format, lits, due);
    step.cursor
}

// The text read in a mode, with the room of a caller that lends no buffer.
fn read_back(printer: &mut Printer, text: &[u8], f: Formula, mode: Mode) {
    let opened = formula::open_as(text, f.format, mode);
    opening_read(printer, f, opened.opening);
    let mut lits = [0i32; ROOM];
    let mut cursor = opened.cursor;
    for clause in f.clauses {
        cursor = next_read(printer, text, cursor, &mut lits, Some(*clause));
    }
    next_read(printer, text, cursor, &mut lits, None);
}

fn name(page: &mut Page, format: Format)
    ensures { Laid (format_name format) page.old page.new }
{
    match format {
        Format::Plain => page.word(b"plain"),
        Format::Weighted => page.word(b"weighted"),
        Format::Grouped => page.word(b"grouped"),
        Format::Weighted2022 => page.word(b"weighted2022"),
    }
}

// The format of a text and how many bytes it has.
fn title_line(page: &mut Page, format: Format, bytes: usize)
    ensures { Laid (title_line format bytes) page.old page.new }
{
    name(page, format);
    page.number(bytes as u64);
    page.word(b" bytes\n");
}

// The text read strictly and leniently.
fn both(printer: &mut Printer, text: &[u8], f: Formula, ends: Ends) {
    let strict = Mode {
        rigor: Rigor::Strict,
        ends,
    };
    let lenient = Mode {
        rigor: Rigor::Lenient,
        ends,
    };
    console::print(printer.out, b"strict\n");
    read_back(printer, text, f, strict);
    console::print(printer.out, b"lenient\n");
    read_back(printer, text, f, lenient);
}

fn copied(printer: &mut Printer, f: Formula) {
    let mut bytes = [0u8; TEXT];
    let length = written(printer.out, &mut bytes, f);
    let text = first(&bytes, length);
    title_line(&mut printer.page, f.format, length);
    printer.show();
    console::print(printer.out, text);
    both(printer, text, f, Ends::LineFeed);
    console::print(printer.out, b"cr\n");
    both(printer, text, f, Ends::AlsoReturn);
}

fn headed<'a>(
    format: Format,
    variables: u64,
    clauses: u64,
    third: u64,
    given: &'a [Given<'a>],
) -> Formula<'a> {
    let header = Header {
        variables,
        clauses,
        third,
    };
    Formula {
        format,
        header: Some(header),
        clauses: given,
    }
}

fn bare<'a>(format: Format, given: &'a [Given<'a>]) -> Formula<'a> {
    Formula {
        format,
        header: None,
        clauses: given,
    }
}

fn plain(printer: &mut Printer) {
    let same_as_counts = [Given::new(0, &[1, -3]), Given::new(0, &[-2])];
    copied(printer, headed(Format::Plain, 3, 2, 0, &same_as_counts));
    let largest = [
        Given::new(0, &[2147483647, -2147483647]),
        Given::new(0, &[]),
    ];
    copied(printer, headed(Format::Plain, 2147483647, 0, 0, &largest));
    let digits = [Given::new(0, &[9, -10, 99, -100])];
    copied(printer, headed(Format::Plain, 0, 1, 0, &digits));
    let empty_first = [
        Given::new(0, &[]),
        Given::new(0, &[-2147483647, 2147483647]),
    ];
    copied(printer, bare(Format::Plain, &empty_first));
}

fn weighted(printer: &mut Printer) {
    let digits = [
        Given::new(0, &[1]),
        Given::new(9, &[-9]),
        Given::new(10, &[10, -99]),
        Given::new(99, &[100]),
        Given::new(100, &[]),
    ];
    copied(printer, headed(Format::Weighted, 100, 5, LARGEST, &digits));
    let largest = [Given::new(2147483647, &[2147483647])];
    copied(printer, headed(Format::Weighted, 0, 0, 0, &largest));
    let weights = [
        Given::new(9223372036854775808, &[-2147483647]),
        Given::new(LARGEST, &[]),
        Given::new(0, &[1]),
    ];
    copied(printer, bare(Format::Weighted, &weights));
}

fn grouped(printer: &mut Printer) {
    let digits = [
        Given::new(0, &[1, -9]),
        Given::new(9, &[]),
        Given::new(10, &[2]),
    ];
    copied(printer, headed(Format::Grouped, 9, 3, 10, &digits));
    let largest = [
        Given::new(LARGEST, &[-2147483647]),
        Given::new(9223372036854775808, &[]),
    ];
    copied(printer, headed(Format::Grouped, 0, 0, LARGEST, &largest));
    let groups = [
        Given::new(LARGEST, &[]),
        Given::new(99, &[2147483647]),
        Given::new(100, &[-1]),
    ];
    copied(printer, bare(Format::Grouped, &groups));
}

fn weighted_2022(printer: &mut Printer) {
    let some_hard = [
        Given::new(HARD, &[1, -3]),
        Given::new(9, &[2147483647, -2147483647]),
        Given::new(HARD, &[]),
        Given::new(100, &[]),
        Given::new(LARGEST, &[-2]),
    ];
    copied(printer, bare(Format::Weighted2022, &some_hard));
}

// Formulas of no clauses.
fn empty(printer: &mut Printer, format: Format) {
    copied(printer, bare(format, &[]));
    copied(printer, headed(format, 0, 0, 0, &[]));
}

// Literals that take all the room.
fn longest() -> [i32; ROOM] {
    let mut lits = [0i32; ROOM];
    for (i, lit) in lits.iter_mut().enumerate() {
        *lit = (i + 1) as i32;
    }
    lits[ROOM - 1] = -1024;
    lits
}

fn long(printer: &mut Printer, format: Format, third: u64) {
    let lits = longest();
    let clauses = [Given::new(third, &lits)];
    copied(printer, headed(format, 1024, 1, third, &clauses));
}

fn long_bare(printer: &mut Printer, format: Format, extra: u64) {
    let lits = longest();
    let clauses = [Given::new(extra, &lits)];
    copied(printer, bare(format, &clauses));
}

fn copies(printer: &mut Printer) {
    plain(printer);
    weighted(printer);
    grouped(printer);
    empty(printer, Format::Plain);
    empty(printer, Format::Weighted);
    empty(printer, Format::Grouped);
    long(printer, Format::Plain, 0);
    long(printer, Format::Weighted, LARGEST);
    long(printer, Format::Grouped, LARGEST);
    weighted_2022(printer);
    copied(printer, bare(Format::Weighted2022, &[]));
    long_bare(printer, Format::Weighted2022, HARD);
    long_bare(printer, Format::Weighted2022, LARGEST);
}

fn main(rt: HostRuntime) {
    let mut stdout = rt.stdout();
    let mut bytes = [0u8; PAGE];
    let page = Page {
        bytes: &mut bytes,
        at: 0,
    };
    let mut printer = Printer {
        page,
        out: &mut stdout,
    };
    copies(&mut printer);
}
