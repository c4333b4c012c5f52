// What a turn tells a job, laid into a lent page, as `lines` lays what a reader says.
#![tactic(auto)]

ghost use Rattle.pages.specs.Pages.{Laid};
ghost use Rattle.tray_lines.specs.Printed.{printed_next, printed_said};

use clause::Next;
use dimacs::Format;
use lines::{Page, Words, clause_words, first, opening_words, refused_words};
use service::Said;

// An answer of the reader, whose literals are the first of those lent; the words are for a refusal.
fn next_words(page: &mut Page, next: Next, format: Format, lits: &[i32], words: &Words)
    ensures { Laid (printed_next next format lits.now words.now) page.old page.new }
{
    match next {
        Ok(Some(clause)) => {
            clause_words(page, format, clause.extra, first(lits, clause.count));
        }
        Ok(None) => page.word(b"end"),
        Err(stopped) => refused_words(page, stopped.refusal, stopped.count, words),
    }
}

// What a turn tells a job: how its text opens, or an answer of the reader.
pub fn said_words(page: &mut Page, said: Said, format: Format, lits: &[i32], words: &Words)
    ensures { Laid (printed_said said format lits.now words.now) page.old page.new }
{
    match said {
        Said::Opening(opening) => opening_words(page, opening, format, words),
        Said::Next(next) => next_words(page, next, format, lits, words),
    }
}
