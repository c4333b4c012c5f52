// The numbers of a host as bytes, which name formats and modes, refusals as its words, and refusals by any number.
#![tactic(auto)]

ghost use Rattle.std.specs.Prelude.{◌≡◌, min};
ghost use Rattle.dimacs.specs.Lined.{lined};
ghost use Rattle.dimacs.specs.Names.{numbered, call_numbered};
ghost use Rattle.numbers.specs.Words.{refusal_words, refusal_of};

use dimacs::{Ends, Reason, Refusal, refuse, refuse_call};

// A number as a byte. One above all bytes goes to the largest, which names no format and no mode, so that it still names nothing.
pub fn narrowed(n: u64) -> u8
    ensures { result ≡ min n 255 }
{
    u8::try_from(n).unwrap_or(u8::MAX)
}

// The words of a refusal: its number, place, line and column.
pub fn refusal_words(refusal: Refusal) -> [u64; 4]
    ensures { result ≡ refusal_words refusal }
{
    [
        refusal.number as u64,
        refusal.place as u64,
        refusal.line as u64,
        refusal.column as u64,
    ]
}

// The refusal that such words tell. Its number is a byte.
pub fn refusal_of(words: [u64; 4]) -> Refusal
    ensures { result ≡ refusal_of words }
{
    let [number, place, line, column] = words;
    Refusal {
        number: narrowed(number),
        place: place as usize,
        line: line as usize,
        column: column as usize,
    }
}

// The refusal of a text by any number, at a place in it.
#[tactic(auto, unfolding(dimacs::specs::Names::numbered))]
pub fn refuse_numbered(text: &[u8], ends: Ends, number: u8, place: usize) -> Refusal
    ensures { result ≡ numbered (lined ends text.now) number place }
{
    Refusal {
        number,
        ..refuse(text, ends, Reason::LineEndExpected, place)
    }
}

// The refusal of a call by any number, where no text is at fault, at the index of the literal at fault, or at 0.
pub fn refuse_call_numbered(number: u8, index: usize) -> Refusal
    ensures { result ≡ call_numbered number index }
{
    Refusal {
        number,
        ..refuse_call(Reason::FormatOrModeUnknown, index)
    }
}
