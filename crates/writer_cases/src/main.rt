// Makes framed calls of the writers for C and Rust from standard input, and prints what they write.
//
// A frame is format, kind and length of the output, of one, one and four bytes; three numbers of
// eight bytes; and the count of literals and so many literals, of four bytes each; all little-endian. Kind 0 is a header, of these three counts; kind 1 is
// a clause, and the first number its weight or group; kind 2 is a hard clause, whose numbers are not looked at. Each call is answered by `case N` and `written LENGTH BYTES`, the bytes in hexadecimal, or by
// `refused NUMBER PLACE 0 0 0`. A kind that is none of these is refused as an unknown format is.
// Too many literals are `long`, and passed over; a frame that is cut off is `cut`, and an input that cannot be read is `unreadable`, and nothing follows them.
#![tactic(auto)]

ghost use Rattle.pages.specs.Pages.{Laid};
ghost use Rattle.writer_cases.specs.Answers.{written_line, call_line};

use answer_words::WRITTEN_WORDS;
use by_number::{latchtwig_write_clause, latchtwig_write_hard_clause, latchtwig_write_header};
use cases::{Cases, stopped_line};
use console::{Shortfall, print, take};
use dimacs::{Header, Reason, Refusal, refuse_call};
use frame::{signed32, u8_at, u32_at, u64_at};
use lines::{Page, first};
use std::io::{Stdin, Stdout};

// The bytes of a frame before its literals.
const HEAD: usize = 34;

// The most literals.
const LITERALS: usize = 8192;

// The longest output.
const OUTPUT: usize = 65536;

// The longest line: `written`, a space, the output's length in five digits, a space, two digits for each of its bytes, and the line end.
const PAGE: usize = 15 + 2 * OUTPUT;

// What is to be written.
#[derive(Clone, Copy, Debug, PartialEq, Eq)]
enum Piece {
    Header(Header),
    Clause { extra: u64 },
    HardClause,
}

// The piece of a frame, if its kind is one.
fn piece_of(frame: &[u8]) -> Option<Piece> {
    match u8_at(frame, 1) {
        0 => Some(Piece::Header(Header {
            variables: u64_at(frame, 6),
            clauses: u64_at(frame, 14),
            third: u64_at(frame, 22),
        })),
        1 => Some(Piece::Clause {
            extra: u64_at(frame, 6),
        }),
        2 => Some(Piece::HardClause),
        _ => None,
    }
}

// What the output holds at a place before a call. Neighbours differ, so that a byte that was moved is seen too.
// A place is below the longest output. Where LLVM knows that, it lays many bytes at once; of a place of 64 bits it makes a product of 128 bits for each byte.
fn pattern(place: usize) -> u8 {
    (place % OUTPUT % 251) as u8
}

fn fill(output: &mut [u8]) {
    for (place, byte) in output.iter_mut().enumerate() {
        *byte = pattern(place);
    }
}

// Whether the output from a place on is as it was filled.
fn is_untouched(output: &[u8], from: usize) -> bool {
    output
        .iter()
        .enumerate()
        .skip(from)
        .all(|(place, byte)| *byte == pattern(place))
}

fn written_line(page: &mut Page, written: &[u8])
    ensures { Laid (written_line written.now) page.old page.new }
{
    page.word(b"written");
    page.number(written.len() as u64);
    page.byte(b' ');
    page.hex_word(written);
    page.byte(b'\n');
}

// The answer of a call that left this output.
fn call_line(page: &mut Page, answer: Result<usize, Refusal>, output: &[u8])
    ensures { Laid (call_line answer output.now) page.old page.new }
{
    match answer {
        Ok(count) => written_line(page, first(output, count)),
        Err(refusal) => stopped_line(page, refusal, 0, &[]),
    }
}

// The answer that words tell: a line where 1 is answered, else a refusal.
fn told(kind: u32, words: [u64; WRITTEN_WORDS]) -> Result<usize, Refusal> {
    let [number, place, line, column, count] = words;
    if kind == 1 {
        return Ok(count as usize);
    }
    Err(numbers::refusal_of([number, place, line, column]))
}

// The call made. Where a number names no kind, it is refused here.
fn made(
    format: u32,
    piece: Option<Piece>,
    lits: &[i32],
    output: &mut [u8],
) -> Result<usize, Refusal> {
    let mut words = [0; WRITTEN_WORDS];
    let kind = match piece {
        Some(Piece::Header(header)) => latchtwig_write_header(
            format,
            header.variables,
            header.clauses,
            header.third,
            output,
            &mut words,
        ),
        Some(Piece::Clause { extra }) => {
            latchtwig_write_clause(format, extra, lits, output, &mut words)
        }
        Some(Piece::HardClause) => latchtwig_write_hard_clause(format, lits, output, &mut words),
        None => return Err(refuse_call(Reason::FormatOrModeUnknown, 0)),
    };
    told(kind, words)
}

// Takes the next literals of the input.
fn take_literals(stdin: &mut Stdin, lits: &mut [i32]) -> Result<(), Shortfall> {
    for lit in lits {
        let mut bytes = [0; 4];
        take(stdin, &mut bytes)?;
        *lit = signed32(u32_at(&bytes, 0));
    }
    Ok(())
}

// The places for literals, for an output and for a line.
#[derive(Drop)]
struct Writers {
    lits: [i32; LITERALS],
    output: [u8; OUTPUT],
    page: [u8; PAGE],
}

impl Writers {
    // A call made on an output that is filled before it, and its answer printed. It is proved that no call changes more than its line; one that did would be told.
    fn call(&mut self, frame: &[u8], given: usize, stdout: &mut Stdout) {
        let lits = first(&self.lits, given);
        let lent = (u32_at(frame, 2) as usize).min(OUTPUT);
        let output = &mut self.output[..];
        let output = &mut output[..lent];
        fill(output);
        let answer = made(u32::from(u8_at(frame, 0)), piece_of(frame), lits, output);
        let mut page = Page {
            bytes: &mut self.page,
            at: 0,
        };
        call_line(&mut page, answer, output);
        page.show(stdout);
        if !is_untouched(output, answer.unwrap_or(0)) {
            print(stdout, b"touched\n");
        }
    }
}

impl Cases<Stdin, Stdout> for Writers {
    fn title(&mut self, stdout: &mut Stdout, case: u64) {
        cases::title(stdout, case);
    }

    // More literals than are taken are passed over.
    fn answer(
        &mut self,
        stdin: &mut Stdin,
        stdout: &mut Stdout,
        frame: &[u8],
    ) -> Result<(), Shortfall> {
        let given = u32_at(frame, 30) as usize;
        if LITERALS < given {
            return cases::long(stdin, stdout, 4 * given);
        }
        let lits = &mut self.lits[..];
        take_literals(stdin, &mut lits[..given])?;
        self.call(frame, given, stdout);
        Ok(())
    }
}

fn main(rt: HostRuntime) {
    let mut writers = Writers {
        lits: [0; LITERALS],
        output: [0; OUTPUT],
        page: [0; PAGE],
    };
    let mut stdout = rt.stdout();
    let answered = cases::answers(&mut writers, &mut rt.stdin(), &mut stdout, &mut [0; HEAD]);
    console::stop(&mut stdout, answered);
}
