// Lists a strict plain text from standard input: its header, its clauses, and how it ends.
#![tactic(auto)]

use cases::opening_line;
use console::{Shortfall, print};
use dimacs::Format;
use formula::Cursor;
use lines::{Page, clause_line, refused_line};
use rows::Stopped;
use std::io::{Stdin, Stdout};

// The bytes of a text that are taken.
const TEXT: usize = 65536;

// The longest line.
const PAGE: usize = 65536;

// The most literals of a clause.
const LITERALS: usize = 4096;

// The clauses from a cursor on, up to the end, each line laid in the page and then printed. A `loop`, as each answer brings the cursor for the next, and the buffer is lent to each.
fn clauses(text: &[u8], from: Cursor, page: &mut Page, out: &mut Stdout) -> Result<(), Stopped> {
    let mut lits = [0; LITERALS];
    let mut cursor = from;
    loop {
        let step = cursor.next_clause(text, &mut lits);
        let Some(clause) = step.answer? else {
            print(out, b"end\n");
            return Ok(());
        };
        clause_line(page, Format::Plain, clause.extra, &lits[..clause.count]);
        page.show(out);
        cursor = step.cursor;
    }
}

// The line of a header, or of none, and the clauses. A refusal of the header is told by the first clause.
fn list(text: &[u8], out: &mut Stdout) {
    let mut bytes = [0; PAGE];
    let mut page = Page {
        bytes: &mut bytes,
        at: 0,
    };
    let opened = formula::open(text, 0, 0);
    if let Ok(opening) = opened.opening {
        opening_line(&mut page, opening, Format::Plain);
        page.show(out);
    }
    if let Err(stopped) = clauses(text, opened.cursor, &mut page, out) {
        refused_line(&mut page, stopped.refusal);
        page.show(out);
    }
}

// A text that fills its buffer, if it ends there.
fn list_full(text: &[u8], stdin: &mut Stdin, stdout: &mut Stdout) -> Result<(), Shortfall> {
    match console::skip(stdin, 1) {
        Ok(()) => {
            print(stdout, b"too long\n");
        }
        Err(Shortfall::Part(_)) => list(text, stdout),
        Err(Shortfall::Failed) => return Err(Shortfall::Failed),
    }
    Ok(())
}

fn listed(stdin: &mut Stdin, stdout: &mut Stdout) -> Result<(), Shortfall> {
    let mut text = [0; TEXT];
    match console::take(stdin, &mut text) {
        Ok(()) => list_full(&text, stdin, stdout),
        Err(Shortfall::Part(count)) => {
            list(&text[..count], stdout);
            Ok(())
        }
        Err(Shortfall::Failed) => Err(Shortfall::Failed),
    }
}

fn main(rt: HostRuntime) {
    let mut stdout = rt.stdout();
    let ended = listed(&mut rt.stdin(), &mut stdout);
    console::stop(&mut stdout, ended);
}
