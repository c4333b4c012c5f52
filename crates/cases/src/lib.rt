// The cases that a program takes from its input, each a frame and what belongs to it, and the program's answers in turn.
#![tactic(auto)]

ghost use Rattle.std.specs.Prelude.{◌≡◌, ◌<◌, IfOk, IsTrue};
ghost use Rattle.std.specs.Io.KnownBytes.{Appends, IsAtEnd};
ghost use Rattle.console.specs.Takes.{Passes};
ghost use Rattle.lines.specs.Printed.{printed_case, printed_line};

mod texts;

use console::{Shortfall, print, skip, take};
use dimacs::LARGEST;
use lines::{Page, case_line};
use std::io::{Read, Write};
pub use texts::{
    Head, Texts, accepted_lines, literals_line, opening_line, stopped_line, text_answer,
    text_answers, verdict_line,
};

// The longest title: a word, a space, twenty digits and the line end.
const TITLE: usize = 26;

// What a program says of a case.
pub trait Cases<R: Read, W: Write> {
    // What stands before the answer, where any of the frame came.
    fn title(&mut self, _out: &mut W, _case: u64) {}

    // The answer to a frame, and to what is taken behind it.
    fn answer(&mut self, input: &mut R, out: &mut W, frame: &[u8]) -> Result<(), Shortfall>;
}

// Answers case after case, until the input ends before a frame or something does not come whole. How many were answered is told.
pub fn answers<R: Read, W: Write, P: Cases<R, W>>(
    program: &mut P,
    input: &mut R,
    out: &mut W,
    frame: &mut [u8],
) -> Result<u64, Shortfall>
    ensures { IfOk result (λ n. n < 18446744073709551615 → IsAtEnd (R.remaining input.new)) }
{
    for case in 0..LARGEST {
        match take(input, frame) {
            Err(Shortfall::Part(0)) => return Ok(case),
            Err(Shortfall::Failed) => return Err(Shortfall::Failed),
            came => {
                program.title(out, case);
                came?;
            }
        }
        program.answer(input, out, frame)?;
    }
    Ok(LARGEST)
}

// Prints the number of a case, and tells whether all of the line was written.
pub fn title<W: Write>(out: &mut W, case: u64) -> bool
    ensures { IsTrue result → Appends (W.contents out.old) (W.contents out.new) (printed_line (printed_case case)) }
{
    let mut bytes = [0u8; TITLE];
    let mut page = Page {
        bytes: &mut bytes,
        at: 0,
    };
    case_line(&mut page, case);
    page.show(out)
}

// Passes over what is longer than is taken, and says so.
pub fn long<R: Read, W: Write>(input: &mut R, out: &mut W, length: usize) -> Result<(), Shortfall>
    ensures { Passes length (R.remaining input.old) (R.remaining input.new) result }
{
    print(out, b"long\n");
    skip(input, length)
}
