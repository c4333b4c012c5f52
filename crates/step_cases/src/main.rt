// Reads framed texts of any format from standard input through the calls for C and Rust, clause by clause, and prints what they leave.
//
// A frame, and what is printed of it, are those of `reader_cases`.
#![tactic(auto)]

use answer_words::{LOG_WORDS, NEXT_WORDS, OPENING_WORDS};
use cases::{Head, Texts, literals_line, opening_line, stopped_line, verdict_line};
use cursor_words::WORDS;
use dimacs::{Format, Header, Kind, LOG_FORMAT, Opening, Reason, Verdict, kind_of};
use lines::{Page, clause_line, first};
use numbers::refusal_of;
use std::io::Stdout;
use stepwise::{latchtwig_log, latchtwig_next, latchtwig_open, latchtwig_word};

// The longest line.
const PAGE: usize = 65536;

// How a text opens by what is answered and its words, unless it is refused.
fn opening_of(kind: u32, words: [u64; OPENING_WORDS]) -> Option<Opening> {
    let [_, _, _, _, variables, clauses, third] = words;
    let header = Header {
        variables,
        clauses,
        third,
    };
    match kind {
        0 => Some(Opening::NoHeader(0)),
        1 => Some(Opening::Header(header, 0)),
        _ => None,
    }
}

fn verdict_of(word: u64) -> Option<Verdict> {
    match word {
        1 => Some(Verdict::Yes),
        2 => Some(Verdict::No),
        3 => Some(Verdict::Unknown),
        _ => None,
    }
}

// The format that two numbers name. Where they name none, no clause is told.
fn format_of(head: Head) -> Format {
    match kind_of(head.format, head.mode) {
        Some(Kind::Clauses(format, _)) => format,
        Some(Kind::Log(_)) | None => Format::Plain,
    }
}

// Where lines are laid and then printed. Each program has one of its own, as methods stand only beside their type.
#[derive(Drop)]
struct Printer<'a> {
    page: Page<'a>,
    out: &'a mut Stdout,
}

impl Printer<'_> {
    fn show(&mut self) {
        self.page.show(self.out);
    }

    // A refusal in the words of an answer, and the word that it stopped at. Where a format or mode is unknown no text is at fault, and there is no word.
    fn refused(&mut self, text: &[u8], mode: u8, words: [u64; NEXT_WORDS]) {
        let [number, place, line, column, count, _] = words;
        let refusal = refusal_of([number, place, line, column]);
        let rest = text.get(refusal.place..).unwrap_or(&[]);
        let word = if refusal.number == u8::from(Reason::FormatOrModeUnknown) {
            &[]
        } else {
            first(rest, latchtwig_word(u32::from(mode), text, place) as usize)
        };
        stopped_line(&mut self.page, refusal, count as usize, word);
        self.show();
    }

    // The next answer from the cursor that the words hold, and whether another may follow.
    fn answer(
        &mut self,
        text: &[u8],
        mode: u8,
        format: Format,
        cursor: &mut [u64; WORDS],
        lits: &mut [i32],
    ) -> bool {
        let mut words = [0; NEXT_WORDS];
        let kind = latchtwig_next(text, cursor, lits, &mut words);
        let [_, _, _, _, count, extra] = words;
        match kind {
            0 => {
                console::print(self.out, b"end\n");
            }
            1 => {
                clause_line(&mut self.page, format, extra, first(lits, count as usize));
                self.show();
            }
            _ => self.refused(text, mode, words),
        }
        kind == 1
    }

    // How a text opens, and its clauses up to the end or the refusal. A refusal of the header is told by the first clause.
    fn formula(&mut self, text: &[u8], head: Head, lits: &mut [i32]) {
        let mut cursor = [0; WORDS];
        let mut words = [0; OPENING_WORDS];
        let kind = latchtwig_open(
            u32::from(head.format),
            u32::from(head.mode),
            text,
            &mut cursor,
            &mut words,
        );
        let format = format_of(head);
        if let Some(opening) = opening_of(kind, words) {
            opening_line(&mut self.page, opening, format);
            self.show();
        }
        // Of words no clause here says that they lead to an end, so the answers are counted.
        for _ in 0..u64::MAX {
            if !self.answer(text, head.mode, format, &mut cursor, lits) {
                return;
            }
        }
    }

    fn log(&mut self, text: &[u8], mode: u8, lits: &mut [i32]) {
        let mut words = [0; LOG_WORDS];
        if latchtwig_log(u32::from(mode), text, lits, &mut words) == 1 {
            let [_, _, _, _, count, verdict] = words;
            verdict_line(&mut self.page, verdict_of(verdict));
            self.show();
            literals_line(&mut self.page, first(lits, count as usize));
            return self.show();
        }
        self.refused(text, mode, words)
    }
}

// The calls, and the page for a line.
#[derive(Drop)]
struct Calls {
    page: [u8; PAGE],
}

impl Texts<Stdout> for Calls {
    // What the calls leave of the text. What is no format is left to the reader of formulas, which refuses it.
    fn lines(&mut self, out: &mut Stdout, head: Head, text: &[u8], lits: &mut [i32]) {
        let page = Page {
            bytes: &mut self.page,
            at: 0,
        };
        let mut printer = Printer { page, out };
        if head.format == LOG_FORMAT {
            return printer.log(text, head.mode, lits);
        }
        printer.formula(text, head, lits)
    }
}

fn main(rt: HostRuntime) {
    let mut calls = Calls { page: [0; PAGE] };
    let mut stdout = rt.stdout();
    let answered = cases::text_answers(&mut calls, &mut rt.stdin(), &mut stdout);
    console::stop(&mut stdout, answered);
}
