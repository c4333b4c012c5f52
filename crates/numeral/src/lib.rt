// Numbers: what a run of digits at a place of a lent text writes, and whether it is within a limit. Any bytes and any place are taken, also a place past the text's end.
// The names are those of token.rs.
#![tactic(auto)]

ghost use Rattle.std.specs.Prelude.{◌≡◌, ◌≤◌, ◌<◌, ◌+◌, ◌-◌, ◌*◌, ltb, length};
ghost use Rattle.dimacs.specs.Names.{ceiling, largest};
ghost use Rattle.dimacs.specs.Bytes.{is_digit};
ghost use Rattle.dimacs.specs.Tokens.{past, uint_at, braced_uint_at, minus, int_at};
ghost use Rattle.numeral.specs.Parts.{DigitOf, Read, digits_from, written_by, floor_of};

use dimacs::{CEILING, Int, Uint};

// A tenth of the largest 64-bit number. A value below it takes any digit more; the value itself takes 5.
const TENTH: u64 = 1844674407370955161;

// So many digits write a number below the ceiling. LLVM makes no loop of so many rounds, but one round after another; of nine it makes a loop.
const FEW: usize = 8;

// What a run of digits writes, or nothing where that is above 64 bits, and where the run ends.
#[derive(Clone, Copy, Debug, PartialEq, Eq)]
pub struct Digits {
    pub value: Option<u64>,
    pub end: usize,
}

// The digit that a byte is, or a number above 9 where it is none: the codes of the digits differ from that of `0` in their last four bits alone.
#[tactic(auto, using(crate::proofs::Runs::digit_is))]
fn digit(b: u8) -> u8
    ensures { DigitOf b result }
{
    b ^ b'0'
}

// Past the run of digits. A loop of its own beside token's for blanks: one for both would take the test as a closure that it requires to be callable, and no public function has a `requires`.
#[tactic(auto, using(dimacs::proofs::Past::past_more, dimacs::proofs::Past::past_stop, dimacs::proofs::Past::past_end, crate::proofs::Runs::digit_there))]
fn skip_digits(text: &[u8], at: usize) -> usize
    ensures { result ≡ past is_digit text.now at }
{
    if token::eof(text, at) {
        return at;
    }
    for i in at..text.len() {
        if 9 < digit(text[i]) {
            return i;
        }
    }
    text.len()
}

// Whether a value with one digit more is above 64 bits.
fn overflows(v: u64, d: u64) -> bool
    requires { d ≤ 9 }
    ensures { result ≡ ltb largest (v * 10 + d) }
{
    if v < TENTH {
        return false;
    }
    if TENTH < v {
        return true;
    }
    5 < d
}

// The run of digits at a place, which may be empty, after digits that write a value.
#[tactic(auto, using(crate::proofs::Runs::read_none))]
fn ascii_digits_multi(text: &[u8], at: usize, value: u64) -> Digits
    ensures { result ≡ digits_from value text.now at }
{
    let mut v = value;
    for i in at..text.len() {
        let d = digit(text[i]) as u64;
        if 9 < d {
            return Digits {
                value: Some(v),
                end: i,
            };
        }
        if overflows(v, d) {
            return Digits {
                value: None,
                end: skip_digits(text, i),
            };
        }
        v = v * 10 + d;
    }
    Digits {
        value: Some(v),
        end: at.max(text.len()),
    }
}

// A number up to a limit, read on from where some of its digits are read.
#[tactic(auto, using(crate::proofs::Runs::digits_on, crate::proofs::Runs::digits_told, crate::proofs::Runs::value_told, dimacs::proofs::Numbers::unsigned_none, dimacs::proofs::Numbers::unsigned_joined, dimacs::proofs::Numbers::unsigned_found, dimacs::proofs::Numbers::by_none, dimacs::proofs::Numbers::by_value, dimacs::proofs::Numbers::by_too_big), unfolding(dimacs::specs::Tokens::uint_at))]
fn uint_on(text: &[u8], at: usize, from: usize, value: u64, limit: u64) -> Uint
    requires { Read 0 text.now at from value }
    ensures { result ≡ uint_at text.now limit at }
{
    let Digits { value, end } = ascii_digits_multi(text, from, value);
    if end == at {
        return Uint::Missing;
    }
    if !token::is_end_of_word(text, end) {
        return Uint::Missing;
    }
    match value {
        Some(value) if value <= limit => Uint::Value(value, token::skip_whitespace(text, end)),
        _ => Uint::TooBig,
    }
}

// A count or a weight, up to a limit.
#[tactic(auto, using(crate::proofs::Runs::read_none))]
pub fn uint(text: &[u8], at: usize, limit: u64) -> Uint
    ensures { result ≡ uint_at text.now limit at }
{
    uint_on(text, at, at, 0, limit)
}

// A group in braces, up to a limit.
#[tactic(auto, using(crate::proofs::Runs::digits_told, crate::proofs::Runs::value_told, dimacs::proofs::Numbers::braced_no, dimacs::proofs::Numbers::braced_none, dimacs::proofs::Numbers::braced_open, dimacs::proofs::Numbers::braced_found, dimacs::proofs::Numbers::by_none, dimacs::proofs::Numbers::by_value, dimacs::proofs::Numbers::by_too_big), unfolding(dimacs::specs::Tokens::braced_uint_at))]
pub fn braced_uint(text: &[u8], at: usize, limit: u64) -> Uint
    ensures { result ≡ braced_uint_at text.now limit at }
{
    let Some(b'{') = text.get(at) else {
        return Uint::Missing;
    };
    let from = at + 1;
    let Digits { value, end } = ascii_digits_multi(text, from, 0);
    if end == from {
        return Uint::Missing;
    }
    let Some(b'}') = text.get(end) else {
        return Uint::Missing;
    };
    match value {
        Some(value) if value <= limit => Uint::Value(value, token::skip_whitespace(text, end + 1)),
        _ => Uint::TooBig,
    }
}

// Minus a limit, which counts as the ceiling where it is above.
fn floor_of(limit: u32) -> i32
    ensures { result ≡ floor_of limit }
{
    -(limit.min(CEILING) as i32)
}

// Past one minus.
#[tactic(auto, unfolding(dimacs::specs::Tokens::minus))]
fn past_minus(text: &[u8], at: usize) -> usize
    ensures { result ≡ minus text.now at }
{
    match text.get(at) {
        Some(b'-') => at + 1,
        _ => at,
    }
}

// The number at a place whose digits end at another and write a value. Most often a space ends it, which is asked first.
#[tactic(auto, using(dimacs::proofs::Words::word_ends_at, dimacs::proofs::Past::past_more), unfolding(crate::specs::Parts::written_by))]
fn written(text: &[u8], at: usize, end: usize, value: u32) -> Uint
    requires { end < length text.now }
    ensures { result ≡ written_by text.now at end value }
{
    if end == at {
        return Uint::Missing;
    }
    if text[end] == b' ' {
        return Uint::Value(value as u64, token::skip_whitespace(text, end + 1));
    }
    if token::is_end_of_word(text, end) {
        return Uint::Value(value as u64, token::skip_whitespace(text, end));
    }
    Uint::Missing
}

// The size of a literal. Its first digits need no test of their size; after them, and near the text's end, it is read as a count is.
#[tactic(auto, using(crate::proofs::Runs::read_none, crate::proofs::Runs::few_none))]
fn size(text: &[u8], at: usize) -> Uint
    ensures { result ≡ uint_at text.now ceiling at }
{
    if text.len().saturating_sub(at) < FEW {
        return uint(text, at, CEILING as u64);
    }
    let stop = at + FEW;
    let mut v: u32 = 0;
    for i in at..stop {
        let d = digit(text[i]) as u32;
        if 9 < d {
            return written(text, at, i, v);
        }
        v = v * 10 + d;
    }
    uint_on(text, at, stop, v as u64, CEILING as u64)
}

// A literal, or the 0 that closes them, up to a limit either way. It is read by negation, compared with minus the limit, and written
// back with its sign.
pub fn int(text: &[u8], at: usize, limit: u32) -> Int
    ensures { result ≡ int_at text.now limit at }
{
    let from = past_minus(text, at);
    match size(text, from) {
        Uint::Missing => Int::Missing,
        Uint::TooBig => Int::TooBig,
        Uint::Value(n, next) => {
            if n == 0 {
                return Int::Zero(next);
            }
            let v = -(n as i32);
            let floor = floor_of(limit);
            if v < floor {
                return Int::TooBig;
            }
            let w = if from == at { -v } else { v };
            Int::Literal(w, next)
        }
    }
}
