// Cases whose frames are texts, and the lines that are said of a text.
ghost use Rattle.std.specs.Prelude.{◌≡◌, ◌<◌, ◌++◌, IfOk};
ghost use Rattle.std.specs.Io.KnownBytes.{IsAtEnd};
ghost use Rattle.console.specs.Takes.{Passes};
ghost use Rattle.pages.specs.Pages.{Laid};
ghost use Rattle.dimacs.specs.Bytes.{bytes};
ghost use Rattle.pages.specs.Printed.{printed_literals};
ghost use Rattle.lines.specs.Printed.{printed_line};
ghost use Rattle.cases.specs.Heads.{head_of};
ghost use Rattle.cases.specs.Printed.{printed_verdict, printed_accepted, printed_opened, printed_word, printed_stopped};

use crate::{Cases, answers, long, title};
use console::{Shortfall, take};
use dimacs::{Format, Opening, Refusal, Verdict};
use frame::{u8_at, u32_at};
use lines::{Page, Words, header_line, refused_words};
use std::io::{Read, Write};

// What the frame of a text says: the numbers of its format and its mode, how many literals have room, and how long the text is.
#[derive(Clone, Copy, Debug, PartialEq, Eq)]
pub struct Head {
    pub format: u8,
    pub mode: u8,
    pub room: usize,
    pub length: usize,
}

// The bytes of a frame.
const FRAME: usize = 10;

// The longest text.
const TEXT: usize = 65536;

// The most literals.
const LITERALS: usize = 4096;

impl Head {
    pub fn of(frame: &[u8]) -> Head
        ensures { result ≡ head_of frame.now }
    {
        Head {
            format: u8_at(frame, 0),
            mode: u8_at(frame, 1),
            room: u32_at(frame, 2) as usize,
            length: u32_at(frame, 6) as usize,
        }
    }
}

// What a program says of a text.
pub trait Texts<W: Write> {
    // The text is as long as its head says, and the literals have no more room.
    fn lines(&mut self, out: &mut W, head: Head, text: &[u8], lits: &mut [i32]);
}

// The text behind a head is taken into the place for it, and the program says its lines. One that has no place is passed over.
pub fn text_answer<R: Read, W: Write, P: Texts<W>>(
    program: &mut P,
    input: &mut R,
    out: &mut W,
    head: Head,
    place: &mut [u8],
    lits: &mut [i32],
) -> Result<(), Shortfall>
    ensures { Passes head.length (R.remaining input.old) (R.remaining input.new) result }
{
    if place.len() < head.length {
        return long(input, out, head.length);
    }
    let text = &mut place[..head.length];
    take(input, text)?;
    let room = head.room.min(lits.len());
    program.lines(out, head, text, &mut lits[..room]);
    Ok(())
}

// A program of texts, and the place for a text and for its literals.
#[derive(Drop)]
struct Placed<'a, P> {
    program: &'a mut P,
    place: [u8; TEXT],
    lits: [i32; LITERALS],
}

impl<R: Read, W: Write, P: Texts<W>> Cases<R, W> for Placed<'_, P> {
    fn title(&mut self, out: &mut W, case: u64) {
        title(out, case);
    }

    fn answer(&mut self, input: &mut R, out: &mut W, frame: &[u8]) -> Result<(), Shortfall> {
        let head = Head::of(frame);
        text_answer(
            self.program,
            input,
            out,
            head,
            &mut self.place,
            &mut self.lits,
        )
    }
}

// Answers all cases of texts.
pub fn text_answers<R: Read, W: Write, P: Texts<W>>(
    program: &mut P,
    input: &mut R,
    out: &mut W,
) -> Result<u64, Shortfall>
    ensures { IfOk result (λ n. n < 18446744073709551615 → IsAtEnd (R.remaining input.new)) }
{
    let mut placed = Placed {
        program,
        place: [0; TEXT],
        lits: [0; LITERALS],
    };
    answers(&mut placed, input, out, &mut [0; FRAME])
}

// The line of a header, or of none.
pub fn opening_line(page: &mut Page, opening: Opening, format: Format)
    ensures { Laid (printed_line (printed_opened opening format)) page.old page.new }
{
    match opening {
        Opening::Header(header, _) => header_line(page, header, format),
        Opening::NoHeader(_) => page.word(b"header none\n"),
    }
}

// The line of a log's verdict, or that there is none.
pub fn verdict_line(page: &mut Page, verdict: Option<Verdict>)
    ensures { Laid (printed_line (printed_verdict verdict)) page.old page.new }
{
    match verdict {
        Some(Verdict::Yes) => page.word(b"verdict yes\n"),
        Some(Verdict::No) => page.word(b"verdict no\n"),
        Some(Verdict::Unknown) => page.word(b"verdict unknown\n"),
        None => page.word(b"verdict none\n"),
    }
}

// The line of a log's literals.
pub fn literals_line(page: &mut Page, lits: &[i32])
    ensures { Laid (printed_line (bytes "literals" ++ printed_literals lits.now)) page.old page.new }
{
    page.word(b"literals");
    page.literals(lits);
    page.byte(b'\n');
}

// The lines of an accepted log: its verdict, and its literals.
pub fn accepted_lines(page: &mut Page, verdict: Option<Verdict>, lits: &[i32])
    ensures { Laid (printed_accepted verdict lits.now) page.old page.new }
{
    verdict_line(page, verdict);
    literals_line(page, lits);
}

// A word in hex after a space, if there is one.
fn stop_word(page: &mut Page, word: &[u8])
    ensures { Laid (printed_word word.now) page.old page.new }
{
    if !word.is_empty() {
        page.byte(b' ');
        page.hex_word(word);
    }
}

// Number, place, k, line and column of a refusal, and the word that it stopped at, if there is one.
pub fn stopped_line(page: &mut Page, refusal: Refusal, count: usize, word: &[u8])
    ensures { Laid (printed_line (printed_stopped refusal count word.now)) page.old page.new }
{
    refused_words(page, refusal, count, &Words::NONE);
    stop_word(page, word);
    page.byte(b'\n');
}
