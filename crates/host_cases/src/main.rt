// Runs framed cases from standard input through the host calls.
//
// A frame is format, mode and length, of four bytes each, little-endian, and then so many bytes of text. Each is answered by a line: the number of the refusal or 0, and its place or the text's length, by a call each; and number, place, line and column as `latchtwig_check` leaves them. A frame that is cut off, or whose text is too long, is `cut`, and an input that cannot be read is `unreadable`; nothing follows them.
#![tactic(auto)]

ghost use Rattle.latchtwig.specs.Outcomes.{outcome, words_told};
ghost use Rattle.pages.specs.Pages.{Laid};
ghost use Rattle.host_cases.specs.Answers.{printed_numbers, outcome_line};

use cases::Cases;
use console::{Shortfall, take};
use frame::u32_at;
use pages::Page;
use std::io::{Stdin, Stdout};

// The bytes of a frame before its text.
const HEAD: usize = 12;

// The longest text.
const TEXT: usize = 4096;

// The longest line: a number of 32 bits, five of 64 bits, a space before each of these, and the line end.
const PAGE: usize = 128;

// Each number after a space: four, written out as in the definition.
fn numbers(page: &mut Page, words: [u64; 4])
    ensures { Laid (printed_numbers words) page.old page.new }
{
    page.number(words[0]);
    page.number(words[1]);
    page.number(words[2]);
    page.number(words[3]);
}

// What `latchtwig_check` leaves of a text.
fn checked_words(page: &mut Page, format: u32, mode: u32, text: &[u8])
    ensures { Laid (printed_numbers (words_told text.now (outcome format mode text.now))) page.old page.new }
{
    let mut answer = [0u64; 4];
    latchtwig::latchtwig_check(format, mode, text, &mut answer);
    numbers(page, answer);
}

// What the host calls say of a text.
fn outcome_line(page: &mut Page, format: u32, mode: u32, text: &[u8])
    ensures { Laid (outcome_line text.now (outcome format mode text.now)) page.old page.new }
{
    page.plain_number(u64::from(latchtwig::latchtwig_refusal(format, mode, text)));
    page.number(latchtwig::latchtwig_place(format, mode, text));
    checked_words(page, format, mode, text);
    page.byte(b'\n');
}

// The host calls, and the page for a line.
#[derive(Drop)]
struct Host {
    page: [u8; PAGE],
}

impl Cases<Stdin, Stdout> for Host {
    // A text that is longer than is taken is told as one that is cut off.
    fn answer(
        &mut self,
        stdin: &mut Stdin,
        stdout: &mut Stdout,
        frame: &[u8],
    ) -> Result<(), Shortfall> {
        let length = u32_at(frame, 8) as usize;
        if TEXT < length {
            return Err(Shortfall::Part(0));
        }
        let mut bytes = [0u8; TEXT];
        let text = &mut bytes[..length];
        take(stdin, text)?;
        let mut page = Page {
            bytes: &mut self.page,
            at: 0,
        };
        outcome_line(&mut page, u32_at(frame, 0), u32_at(frame, 4), text);
        page.show(stdout);
        Ok(())
    }
}

fn main(rt: HostRuntime) {
    let mut host = Host { page: [0; PAGE] };
    let mut stdout = rt.stdout();
    let answered = cases::answers(&mut host, &mut rt.stdin(), &mut stdout, &mut [0; HEAD]);
    console::stop(&mut stdout, answered);
}
