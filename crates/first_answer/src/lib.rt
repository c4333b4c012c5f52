// The first answer of a text, for callers who hold no reader: one is made and asked here.
#![tactic(auto)]

ghost use Rattle.first_answer.specs.Firsts.{ReadsFirst};

use clause::Next;
use dimacs::{Opening, Refusal};

// How a text opens, its first answer, and the place after it.
#[derive(Clone, Copy, Debug, PartialEq, Eq)]
pub struct First {
    pub opening: Result<Opening, Refusal>,
    pub answer: Next,
    pub place: usize,
}

// How a text opens by the numbers of a format of clauses and a mode, and what the first call then answers: a clause, the end or a refusal.
pub fn first_clause(text: &[u8], format: u8, mode: u8, lits: &mut [i32]) -> First
    ensures { ReadsFirst format mode text.now lits.old lits.new result }
{
    let opened = reader::open(text, format, mode);
    let mut reader = opened.reader;
    let answer = reader.next_clause(lits);
    First {
        opening: opened.opening,
        answer,
        place: reader.place(),
    }
}
