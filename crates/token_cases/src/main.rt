// Prints what each token function that answers a place, a test or a number says of the cases on standard input.
//
// A case is the text's length as one byte, the text, then the place
// and the limit as eight bytes each, little-endian, and a byte that is not 0 where a lone CR ends a line. A line has their answers in the order below: a place as it is, a test as 0 or 1,
// a number as `value@place`, `-` where there is none and `!` where it is too big, and a space after each. A case that is cut off is `cut`, and an input
// that cannot be read is `unreadable`; nothing follows them.
#![tactic(auto)]

ghost use Rattle.pages.specs.Pages.{Laid};
ghost use Rattle.token_cases.specs.Answers.{printed_past, printed_end_of_line, printed_uint, printed_int, test_answers, end_answers, line_answers, word_answers, number_answers, token_line};

use cases::Cases;
use console::{Shortfall, take};
use dimacs::{Ends, Int, Uint};
use frame::{u8_at, u64_at};
use pages::Page;
use std::io::{Stdin, Stdout};

// The longest text.
const TEXT: usize = 255;

// The longest line: two tests, thirteen places, two numbers and a literal with the places past them, a space after each, and the line end. A place and a number have at most 20 digits.
const PAGE: usize = 395;

// The place past a number.
fn next_place(page: &mut Page, n: usize)
    ensures { Laid (printed_past n) page.old page.new }
{
    page.byte(b'@');
    page.plain_number(n as u64);
}

fn end_of_line_words(page: &mut Page, end: Option<usize>)
    ensures { Laid (printed_end_of_line end) page.old page.new }
{
    match end {
        None => page.word(b" -"),
        Some(next) => page.number(next as u64),
    }
}

fn uint_words(page: &mut Page, u: Uint)
    ensures { Laid (printed_uint u) page.old page.new }
{
    match u {
        Uint::Missing => page.word(b" -"),
        Uint::TooBig => page.word(b" !"),
        Uint::Value(n, next) => {
            page.number(n);
            next_place(page, next);
        }
    }
}

fn int_words(page: &mut Page, i: Int)
    ensures { Laid (printed_int i) page.old page.new }
{
    match i {
        Int::Missing => page.word(b" -"),
        Int::TooBig => page.word(b" !"),
        Int::Zero(next) => {
            page.number(0);
            next_place(page, next);
        }
        Int::Literal(v, next) => {
            page.literals(&[v]);
            next_place(page, next);
        }
    }
}

fn test_answers(page: &mut Page, text: &[u8], from: usize)
    ensures { Laid (test_answers text.now from) page.old page.new }
{
    page.plain_number(u64::from(token::eof(text, from)));
    page.number(u64::from(token::is_end_of_word(text, from)));
}

fn end_answers(page: &mut Page, text: &[u8], ends: Ends, from: usize)
    ensures { Laid (end_answers ends text.now from) page.old page.new }
{
    test_answers(page, text, from);
    page.number(token::skip_whitespace(text, from) as u64);
    page.number(token::interactive_skip_line(text, ends, from) as u64);
    page.number(token::interactive_newline(text, ends, from) as u64);
    end_of_line_words(page, token::interactive_end_of_line(text, ends, from));
}

fn line_answers(page: &mut Page, text: &[u8], ends: Ends, from: usize)
    ensures { Laid (line_answers ends text.now from) page.old page.new }
{
    page.number(token::newline(text, ends, from) as u64);
    page.number(token::line_past(text, ends, from) as u64);
    page.number(token::interactive_strict_comment(text, ends, from) as u64);
    page.number(token::comments_and_newlines(text, ends, from) as u64);
    page.number(token::non_terminating_linebreaks(text, ends, from) as u64);
}

fn word_answers(page: &mut Page, text: &[u8], from: usize)
    ensures { Laid (word_answers text.now from) page.old page.new }
{
    page.number(token::fixed(text, from, b"c ") as u64);
    page.number(token::fixed(text, from, b"SATISFIABLE") as u64);
    page.number(token::word(text, from, b"p") as u64);
    page.number(token::word(text, from, b"cnf") as u64);
}

fn number_answers(page: &mut Page, text: &[u8], from: usize, limit: u64)
    ensures { Laid (number_answers text.now from limit) page.old page.new }
{
    uint_words(page, numeral::uint(text, from, limit));
    uint_words(page, numeral::braced_uint(text, from, limit));
    int_words(page, numeral::int(text, from, (limit % 4294967296) as u32));
}

fn token_line(page: &mut Page, text: &[u8], ends: Ends, from: usize, limit: u64)
    ensures { Laid (token_line ends text.now from limit) page.old page.new }
{
    end_answers(page, text, ends, from);
    line_answers(page, text, ends, from);
    word_answers(page, text, from);
    number_answers(page, text, from, limit);
    page.word(b" \n");
}

// What ends a line by a byte: LF and CR LF, or, for any byte but 0, a lone CR too.
fn ends_of(b: u8) -> Ends {
    match b {
        0 => Ends::LineFeed,
        _ => Ends::AlsoReturn,
    }
}

// The token functions, and the page for a line.
#[derive(Drop)]
struct Tokens {
    page: [u8; PAGE],
}

impl Cases<Stdin, Stdout> for Tokens {
    fn answer(
        &mut self,
        stdin: &mut Stdin,
        stdout: &mut Stdout,
        frame: &[u8],
    ) -> Result<(), Shortfall> {
        let mut bytes = [0u8; TEXT];
        let text = &mut bytes[..usize::from(u8_at(frame, 0))];
        take(stdin, text)?;
        let mut numbers = [0u8; 17];
        take(stdin, &mut numbers)?;
        let mut page = Page {
            bytes: &mut self.page,
            at: 0,
        };
        token_line(
            &mut page,
            text,
            ends_of(u8_at(&numbers, 16)),
            u64_at(&numbers, 0) as usize,
            u64_at(&numbers, 8),
        );
        page.show(stdout);
        Ok(())
    }
}

fn main(rt: HostRuntime) {
    let mut tokens = Tokens { page: [0; PAGE] };
    let mut stdout = rt.stdout();
    let answered = cases::answers(&mut tokens, &mut rt.stdin(), &mut stdout, &mut [0; 1]);
    console::stop(&mut stdout, answered);
}
