// Reads framed texts of any format from standard input, and prints what the readers answer.
//
// A frame is format, mode, room and length, of one, one, four and four bytes, little-endian, and then so many
// bytes of text. Each is answered by `case N` and what the reader of its format says of the text, line by line.
#![tactic(auto)]

ghost use Rattle.std.specs.Prelude.{◌≤◌, length};

use cases::{Head, Texts, literals_line, opening_line, stopped_line, verdict_line};
use clause::Clause;
use dimacs::{Ends, Format, Kind, LOG_FORMAT, Reason, kind_of};
use formula::Cursor;
use lines::{Page, clause_line};
use rows::Stopped;
use std::io::Stdout;

// The longest line.
const PAGE: usize = 65536;

// Where lines are laid and then printed. Each program has one of its own, as methods stand only beside their type.
#[derive(Drop)]
struct Printer<'a> {
    page: Page<'a>,
    out: &'a mut Stdout,
}

impl Printer<'_> {
    fn show(&mut self) {
        self.page.show(self.out);
    }

    fn clause(&mut self, format: Format, clause: Clause, lits: &[i32])
        requires { clause.count ≤ length lits.now }
    {
        clause_line(&mut self.page, format, clause.extra, &lits[..clause.count]);
        self.show();
    }

    fn end(&mut self) {
        console::print(self.out, b"end\n");
    }

    // The clauses from a cursor on, up to the end. A `loop`, as each answer brings the cursor for the next, and the buffer is lent to each.
    fn clauses(&mut self, text: &[u8], from: Cursor, lits: &mut [i32]) -> Result<(), Stopped> {
        let mut cursor = from;
        loop {
            let step = cursor.next_clause(text, lits);
            let Some(clause) = step.answer? else {
                self.end();
                return Ok(());
            };
            self.clause(from.format, clause, lits);
            cursor = step.cursor;
        }
    }

    // How a text opens and its first answer are told by a reader that holds it, the rest by a cursor. What opens no text is refused as its first clause.
    fn formula(&mut self, text: &[u8], head: Head, lits: &mut [i32]) -> Result<(), Stopped> {
        let first = first_answer::first_clause(text, head.format, head.mode, lits);
        let cursor = formula::open(text, head.format, head.mode).cursor;
        if let Ok(opening) = first.opening {
            opening_line(&mut self.page, opening, cursor.format);
            self.show();
        }
        let Some(clause) = first.answer? else {
            self.end();
            return Ok(());
        };
        self.clause(cursor.format, clause, lits);
        self.clauses(text, cursor.next_clause(text, lits).cursor, lits)
    }

    fn log(&mut self, text: &[u8], mode: u8, lits: &mut [i32]) -> Result<(), Stopped> {
        let accepted = sat_solver_log::parse_log(text, mode, lits)?;
        verdict_line(&mut self.page, accepted.verdict);
        self.show();
        literals_line(&mut self.page, &lits[..accepted.count]);
        self.show();
        Ok(())
    }

    // What the reader of a format says of the text. What is no format is left to the reader of formulas, which refuses it.
    fn reader(&mut self, text: &[u8], head: Head, lits: &mut [i32]) -> Result<(), Stopped> {
        if head.format == LOG_FORMAT {
            return self.log(text, head.mode, lits);
        }
        self.formula(text, head, lits)
    }

    // A refusal, and the word that it stopped at. Where a format or mode is unknown no text is at fault, and there is no word.
    fn refused(&mut self, text: &[u8], ends: Ends, stopped: Stopped) {
        let refusal = stopped.refusal;
        let word = if refusal.number == u8::from(Reason::FormatOrModeUnknown) {
            &[]
        } else {
            token::stopped_at(text, ends, refusal.place)
        };
        stopped_line(&mut self.page, refusal, stopped.count, word);
        self.show();
    }
}

// What ends the lines of a text. Numbers that name nothing have no text at fault.
fn ends_of(head: Head) -> Ends {
    match kind_of(head.format, head.mode) {
        Some(Kind::Clauses(_, mode) | Kind::Log(mode)) => mode.ends,
        None => Ends::LineFeed,
    }
}

// The readers, and the page for a line.
#[derive(Drop)]
struct Readers {
    page: [u8; PAGE],
}

impl Texts<Stdout> for Readers {
    fn lines(&mut self, out: &mut Stdout, head: Head, text: &[u8], lits: &mut [i32]) {
        let page = Page {
            bytes: &mut self.page,
            at: 0,
        };
        let mut printer = Printer { page, out };
        if let Err(stopped) = printer.reader(text, head, lits) {
            printer.refused(text, ends_of(head), stopped);
        }
    }
}

fn main(rt: HostRuntime) {
    let mut readers = Readers { page: [0; PAGE] };
    let mut stdout = rt.stdout();
    let answered = cases::text_answers(&mut readers, &mut rt.stdin(), &mut stdout);
    console::stop(&mut stdout, answered);
}
