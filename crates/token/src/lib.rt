// Tokens: which word, comment or line end stands at a place of a lent text. Any bytes and any place are taken, also a place past the text's end.
// A function answers the place past the token, or the place itself where there is none. The names are those of token.rs.
#![tactic(auto)]

ghost use Rattle.std.specs.Prelude.{◌≡◌, ◌<◌, length};
ghost use Rattle.dimacs.specs.Lined.{lined};
ghost use Rattle.dimacs.specs.Tokens.{at_end, blanks, line_end, next_line, end_of_line, fixed, word_ends, word, strict_comment, newline, line_past, lines, linebreaks};
ghost use Rattle.token.specs.Parts.{PastWord};
ghost use Rattle.token.specs.Returns.{lone_return};
ghost use Rattle.token.specs.Words.{WordAt};

use dimacs::{Ends, LONGEST_WORD, also_ends};

// Whether the text has ended.
pub fn eof(text: &[u8], at: usize) -> bool
    ensures { result ≡ at_end text.now at }
{
    text.len() <= at
}

// Whether a word or a number ends at a place.
#[tactic(auto, unfolding(dimacs::specs::Tokens::word_ends))]
pub fn is_end_of_word(text: &[u8], at: usize) -> bool
    ensures { result ≡ word_ends text.now at }
{
    eof(text, at) || matches!(text[at], b'\n' | b' ' | b'\t' | b'\r')
}

// Past the run of tabs and spaces.
#[tactic(auto, using(dimacs::proofs::Past::past_more, dimacs::proofs::Past::past_stop, dimacs::proofs::Past::past_end))]
pub fn skip_whitespace(text: &[u8], at: usize) -> usize
    ensures { result ≡ blanks text.now at }
{
    if eof(text, at) {
        return at;
    }
    for i in at..text.len() {
        match text[i] {
            b'\t' | b' ' => {}
            _ => return i,
        }
    }
    text.len()
}

// Past the bytes of `w`, whatever follows them. Byte by byte, so that most words are told apart by their first.
pub fn fixed(text: &[u8], at: usize, w: &[u8]) -> usize
    ensures { result ≡ fixed text.now w.now at }
{
    let mut i = at;
    for b in w {
        match text.get(i) {
            Some(&c) if c == *b => i += 1,
            _ => return at,
        }
    }
    i
}

// Past the word `w` and the blanks after it.
#[tactic(auto, unfolding(dimacs::specs::Tokens::word))]
pub fn word(text: &[u8], at: usize, w: &[u8]) -> usize
    ensures { result ≡ word text.now w.now at }
{
    let e = fixed(text, at, w);
    if e == at {
        return at;
    }
    if is_end_of_word(text, e) {
        return skip_whitespace(text, e);
    }
    at
}

// How many bytes a CR alone has as a line end.
fn lone_return(ends: Ends) -> usize
    ensures { result ≡ lone_return ends }
{
    match ends {
        Ends::LineFeed => 0,
        Ends::AlsoReturn => 1,
    }
}

// Past the next line end, or to the end of the text. The place goes on before the byte is asked: so LLVM counts places once in each round, and not twice.
#[tactic(auto, using(crate::proofs::Returns::skip_lf, crate::proofs::Returns::skip_on))]
pub fn interactive_skip_line(text: &[u8], ends: Ends, at: usize) -> usize
    ensures { result ≡ next_line (lined ends text.now) at }
{
    let also = also_ends(ends);
    let mut i = at;
    while let Some(&b) = text.get(i) {
        i += 1;
        if b == b'\n' {
            return i;
        }
        if b == also {
            return match text.get(i) {
                Some(b'\n') => i + 1,
                _ => i,
            };
        }
    }
    i
}

// Past a line end.
#[tactic(auto, using(crate::proofs::Returns::at_most_one, crate::proofs::Returns::ends_lf, crate::proofs::Returns::ends_crlf, crate::proofs::Returns::ends_return, crate::proofs::Returns::ends_no))]
pub fn interactive_newline(text: &[u8], ends: Ends, at: usize) -> usize
    ensures { result ≡ line_end (lined ends text.now) at }
{
    match text.get(at) {
        Some(b'\n') => at + 1,
        Some(b'\r') => match text.get(at + 1) {
            Some(b'\n') => at + 2,
            _ => at + lone_return(ends),
        },
        _ => at,
    }
}

// Past a line end, or the end of the text.
#[tactic(auto, using(dimacs::proofs::LinedTokens::end_lined), unfolding(dimacs::specs::Tokens::end_of_line))]
pub fn interactive_end_of_line(text: &[u8], ends: Ends, at: usize) -> Option<usize>
    ensures { result ≡ end_of_line (lined ends text.now) at }
{
    if eof(text, at) {
        return Some(at);
    }
    let e = interactive_newline(text, ends, at);
    if e == at {
        return None;
    }
    Some(e)
}

// Past a line end and the blanks after it.
#[tactic(auto, using(dimacs::proofs::LinedTokens::blanks_lined), unfolding(dimacs::specs::Tokens::newline))]
pub fn newline(text: &[u8], ends: Ends, at: usize) -> usize
    ensures { result ≡ newline (lined ends text.now) at }
{
    let past = interactive_newline(text, ends, at);
    if past == at {
        return at;
    }
    skip_whitespace(text, past)
}

// Past a comment of a log.
#[tactic(auto, using(dimacs::proofs::LinedTokens::fixed_lined), unfolding(dimacs::specs::Tokens::strict_comment))]
pub fn interactive_strict_comment(text: &[u8], ends: Ends, at: usize) -> usize
    ensures { result ≡ strict_comment (lined ends text.now) at }
{
    let body = fixed(text, at, b"c ");
    if body == at {
        return at;
    }
    interactive_skip_line(text, ends, body)
}

// Past a comment or a line end, without the blanks after it.
#[tactic(auto, using(dimacs::proofs::Lined::eqb_lined), unfolding(dimacs::specs::Tokens::line_past))]
pub fn line_past(text: &[u8], ends: Ends, at: usize) -> usize
    ensures { result ≡ line_past (lined ends text.now) at }
{
    match text.get(at) {
        Some(b'c') => interactive_skip_line(text, ends, at + 1),
        _ => interactive_newline(text, ends, at),
    }
}

// Past as many comments and line ends as there are. A `loop`, since each round asks where the last one came to: it goes over no places that are known before.
#[tactic(auto, using(dimacs::proofs::Lines::lines_stop, dimacs::proofs::Lines::lines_on, dimacs::proofs::LinedTokens::blanks_lined))]
pub fn comments_and_newlines(text: &[u8], ends: Ends, at: usize) -> usize
    ensures { result ≡ lines (lined ends text.now) at }
{
    let mut i = at;
    loop {
        let a = line_past(text, ends, i);
        if a == i {
            return i;
        }
        i = skip_whitespace(text, a);
    }
}

// Past a line end with further comments and line ends.
#[tactic(auto, unfolding(dimacs::specs::Tokens::linebreaks))]
pub fn non_terminating_linebreaks(text: &[u8], ends: Ends, at: usize) -> usize
    ensures { result ≡ linebreaks (lined ends text.now) at }
{
    let a = newline(text, ends, at);
    if a == at {
        return at;
    }
    comments_and_newlines(text, ends, a)
}

// Past the word at a place before the text's end, or as far as the longest word goes.
#[tactic(auto, using(crate::proofs::Stops::in_word_first, crate::proofs::Stops::in_word_more, crate::proofs::Stops::past_word_stop, crate::proofs::Stops::past_word_there))]
fn word_end(text: &[u8], at: usize) -> usize
    requires { at < length text.now }
    ensures { PastWord text.now at result }
{
    let end = text.len().min(at + LONGEST_WORD);
    for i in at + 1..end {
        if is_end_of_word(text, i) {
            return i;
        }
    }
    end
}

// The word a reader stopped at, as a part of the text: empty at a line end or the end of the text.
#[tactic(auto, using(crate::proofs::Stops::stopped_at_word, crate::proofs::Stops::stopped_at_line_end, crate::proofs::Stops::stopped_at_end))]
pub fn stopped_at(text: &[u8], ends: Ends, at: usize) -> &[u8]
    ensures { WordAt text.entry ends at result }
{
    let n = text.len();
    if n <= at {
        return &text[n..n];
    }
    let line = interactive_newline(text, ends, at);
    if line == at {
        let e = word_end(text, at);
        return &text[at..e];
    }
    &text[at..at]
}
