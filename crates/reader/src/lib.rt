// Texts of clauses, read by a reader that holds its text: what `formula` does with a text beside a cursor, for callers who would rather carry one thing.
//
// `open` answers how the text opens, and a reader. Each `next_clause` answers a clause, the end or a refusal, and the reader goes on.
#![tactic(auto)]

ghost use Rattle.std.specs.Prelude.{◌≡◌};
ghost use Rattle.token.specs.Words.{WordAt};
ghost use Rattle.reader.specs.Readers.{opened_on, Reads};

use clause::Next;
use dimacs::{Opening, Refusal};
use formula::Cursor;

// A text, and the cursor with which it is read.
#[derive(Clone, Copy, Debug, PartialEq, Eq)]
pub struct Reader<'a> {
    pub text: &'a [u8],
    pub cursor: Cursor,
}

// How a text opens, and the reader of its clauses.
#[derive(Clone, Copy, Debug, PartialEq, Eq)]
pub struct Opened<'a> {
    pub opening: Result<Opening, Refusal>,
    pub reader: Reader<'a>,
}

// The text opened by the numbers of a format of clauses and a mode.
pub fn open<'a>(text: &'a [u8], format: u8, mode: u8) -> Opened<'a>
    ensures { result ≡ opened_on format mode text.entry }
{
    let opened = formula::open(text, format, mode);
    let reader = Reader {
        text,
        cursor: opened.cursor,
    };
    Opened {
        opening: opened.opening,
        reader,
    }
}

impl<'a> Reader<'a> {
    // The next clause, the end or a refusal, and the reader goes on. The buffer then holds the literals read, and after them what it held.
    pub fn next_clause(&mut self, lits: &mut [i32]) -> Next
        ensures { Reads self.old lits.old lits.new self.new result }
    {
        let step = self.cursor.next_clause(self.text, lits);
        self.cursor = step.cursor;
        step.answer
    }

    // The next place.
    pub fn place(self) -> usize
        ensures { result ≡ self.entry.cursor.progress.place }
    {
        self.cursor.progress.place
    }

    // The word the reader stopped at, as a part of its text: empty at a line end or the end of the text.
    pub fn stopped_at(self) -> &'a [u8]
        ensures { WordAt self.entry.text self.entry.cursor.ends self.entry.cursor.progress.place result }
    {
        self.cursor.stopped_at(self.text)
    }
}
