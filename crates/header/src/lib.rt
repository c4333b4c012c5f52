// The opening of a text of clauses: its header, if it has one, and the limits that the header sets.
// A text and what ends its lines go side by side, and in no struct, since `token` and `numeral` read words and numbers from the text alone.
#![tactic(auto)]

ghost use Rattle.std.specs.Prelude.{◌≡◌, ◌≤◌};
ghost use Rattle.dimacs.specs.Names.{ceiling};
ghost use Rattle.dimacs.specs.Lined.{lined};
ghost use Rattle.dimacs.specs.Tokens.{word};
ghost use Rattle.dimacs.specs.Header.{format_word, variable_count, after_p, opening_of, unlimited, specified, group_limit, limits_of};
ghost use Rattle.header.specs.Counts.{count_at, third_at};
ghost use Rattle.header.specs.Headed.{headed_in};

use dimacs::{
    CEILING, Ends, Format, Header, LARGEST, Limits, Mode, Opening, Reason, Refusal, Rigor, Uint,
    refuse,
};

// Past the format's word.
#[tactic(auto, using(dimacs::proofs::Words::no_word))]
fn format_word(text: &[u8], at: usize, format: Format) -> usize
    ensures { result ≡ word text.now (format_word format) at }
{
    match format {
        Format::Plain => token::word(text, at, b"cnf"),
        Format::Weighted => token::word(text, at, b"wcnf"),
        Format::Grouped => token::word(text, at, b"gcnf"),
        Format::Weighted2022 => at,
    }
}

// A count up to a limit, and the place past it; or a refusal, for one reason where none stands and for another where it is too big.
#[tactic(auto, using(dimacs::proofs::LinedTokens::uint_lined))]
fn count(
    text: &[u8],
    ends: Ends,
    at: usize,
    limit: u64,
    missing: Reason,
    too_big: Reason,
) -> Result<(u64, usize), Refusal>
    ensures { result ≡ count_at (lined ends text.now) limit missing too_big at }
{
    match numeral::uint(text, at, limit) {
        Uint::Missing => Err(refuse(text, ends, missing, at)),
        Uint::TooBig => Err(refuse(text, ends, too_big, at)),
        Uint::Value(n, next) => Ok((n, next)),
    }
}

// The third count and the place past it, or 0 where the format has none.
fn third_count(text: &[u8], ends: Ends, at: usize, format: Format) -> Result<(u64, usize), Refusal>
    ensures { result ≡ third_at (lined ends text.now) format at }
{
    if format.has_third() {
        return count(
            text,
            ends,
            at,
            LARGEST,
            Reason::ThirdCountExpected,
            Reason::ThirdCountTooBig,
        );
    }
    Ok((0, at))
}

// The counts after the format's word, and what closes their line.
fn counts(text: &[u8], ends: Ends, at: usize, format: Format) -> Result<Opening, Refusal>
    ensures { result ≡ variable_count (lined ends text.now) format at }
{
    let (variables, at) = count(
        text,
        ends,
        at,
        u64::from(CEILING),
        Reason::VariableCountExpected,
        Reason::VariableCountTooBig,
    )?;
    let (clauses, at) = count(
        text,
        ends,
        at,
        LARGEST,
        Reason::ClauseCountExpected,
        Reason::ClauseCountTooBig,
    )?;
    let (third, at) = third_count(text, ends, at, format)?;
    match token::interactive_end_of_line(text, ends, at) {
        None => Err(refuse(text, ends, Reason::LineEndExpected, at)),
        Some(next) => Ok(Opening::Header(
            Header {
                variables,
                clauses,
                third,
            },
            next,
        )),
    }
}

// What follows the word `p`: the format's word, and the counts.
#[tactic(auto, using(dimacs::proofs::LinedTokens::format_word_lined), unfolding(dimacs::specs::Header::after_p))]
fn after_p(text: &[u8], ends: Ends, at: usize, format: Format) -> Result<Opening, Refusal>
    ensures { result ≡ after_p (lined ends text.now) format at }
{
    let past = format_word(text, at, format);
    if past == at {
        return Err(refuse(text, ends, Reason::FormatWordExpected, at));
    }
    counts(text, ends, past, format)
}

// How a text opens in a format.
#[tactic(auto, using(dimacs::proofs::LinedTokens::blanks_lined, dimacs::proofs::LinedTokens::p_lined), unfolding(dimacs::specs::Header::opening_of))]
fn opening_of(text: &[u8], ends: Ends, format: Format) -> Result<Opening, Refusal>
    ensures { result ≡ opening_of (lined ends text.now) format }
{
    let at = token::comments_and_newlines(text, ends, token::skip_whitespace(text, 0));
    if format.has_header() {
        let past = token::word(text, at, b"p");
        if past != at {
            return after_p(text, ends, past, format);
        }
    }
    Ok(Opening::NoHeader(at))
}

// The limits where no count applies.
pub fn no_limits() -> Limits
    ensures { result ≡ unlimited }
{
    Limits {
        literals: CEILING,
        groups: LARGEST,
        clauses: 0,
    }
}

// A count of a header, or another number where the count is 0, which is unspecified.
fn specified(count: u64, otherwise: u64) -> u64
    ensures { result ≡ specified count otherwise }
{
    if count == 0 {
        return otherwise;
    }
    count
}

fn group_limit(format: Format, third: u64) -> u64
    ensures { result ≡ group_limit format third }
{
    match format {
        Format::Grouped => specified(third, LARGEST),
        _ => LARGEST,
    }
}

fn limits_of(format: Format, rigor: Rigor, header: Header) -> Limits
    requires { header.variables ≤ ceiling }
    ensures { result ≡ limits_of format rigor header }
{
    match rigor {
        Rigor::Lenient => no_limits(),
        Rigor::Strict => Limits {
            literals: specified(header.variables, u64::from(CEILING)) as u32,
            groups: group_limit(format, header.third),
            clauses: header.clauses,
        },
    }
}

// How a text opens, and the limits of its clauses.
#[derive(Clone, Copy, Debug, PartialEq, Eq)]
pub struct Headed {
    pub opening: Result<Opening, Refusal>,
    pub limits: Limits,
}

// How a text opens in a format, and the limits of its clauses in a mode.
#[tactic(auto, unfolding(crate::specs::Headed::headed_in))]
pub fn parse_header(text: &[u8], format: Format, mode: Mode) -> Headed
    ensures { result ≡ headed_in format mode text.now }
{
    let opening = opening_of(text, mode.ends, format);
    let limits = match opening {
        Ok(Opening::Header(header, _)) => limits_of(format, mode.rigor, header),
        Ok(Opening::NoHeader(_)) => no_limits(),
        Err(_) => no_limits(),
    };
    Headed { opening, limits }
}
