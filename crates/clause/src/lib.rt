// A clause of each format, read into a lent buffer of literals: how it begins, its literals, and how it ends.
// A text and what ends its lines go side by side, and in no struct, since `token` and `numeral` read words and numbers from the text alone.
#![tactic(auto)]

ghost use Rattle.std.specs.Prelude.{◌≡◌, length};
ghost use Rattle.dimacs.specs.Lined.{lined};
ghost use Rattle.dimacs.specs.Names.{number_of};
ghost use Rattle.dimacs.specs.Clauses.{instead, absent, is_zero, start_by, soft_by, start_in2022, start_at, closing, clause_at};
ghost use Rattle.dimacs.specs.Tokens.{linebreaks};
ghost use Rattle.dimacs.specs.declared.Absence.{Absence};
ghost use Rattle.rows.specs.Answers.{ByCount};
ghost use Rattle.clause.specs.Answers.{answered_of, ReadsLiterals, Answers};
ghost use Rattle.clause.specs.Begins.{begin_at, start_of, BeginsAt, BeginsBy};

use dimacs::{Absence, Ends, Format, HARD, LARGEST, Limits, Reason, Refusal, Uint, refuse};
use rows::{Row, Stopped};

// Literals that their 0 closes: how many there are, and the place past the 0 and the blanks after it.
#[derive(Clone, Copy, Debug, PartialEq, Eq)]
pub struct Closed {
    pub count: usize,
    pub next: usize,
}

// A clause: its weight or group, 0 if it has neither, and how many literals the buffer holds of it.
#[derive(Clone, Copy, Debug, PartialEq, Eq)]
pub struct Clause {
    pub extra: u64,
    pub count: usize,
}

// What a call for the next clause answers: a clause, or none as the text is read to its end; or a refusal, and how many literals of the unfinished clause the buffer holds.
pub type Next = Result<Option<Clause>, Stopped>;

// An answer, and the place where the next call begins.
#[derive(Clone, Copy, Debug, PartialEq, Eq)]
pub struct Answered {
    pub answer: Next,
    pub place: usize,
}

// The literals from a place on, up to the 0, or none where no number stands there.
fn clause_lits(
    text: &[u8],
    ends: Ends,
    at: usize,
    limit: u32,
    lits: &mut [i32],
) -> Result<Option<Closed>, Stopped>
    ensures { ReadsLiterals (lined ends text.now) limit at lits.old lits.new result }
{
    let mut from = at;
    let mut held: usize = 0;
    loop {
        match rows::ints(text, ends, from, limit, held, lits)? {
            Row::Ends { place, count } => {
                if count == 0 {
                    return Ok(None);
                }
                if count == held {
                    return Err(Stopped {
                        refusal: refuse(text, ends, Reason::LiteralExpectedAfterLines, place),
                        count,
                    });
                }
                let past = token::non_terminating_linebreaks(text, ends, place);
                if past == place {
                    return Err(Stopped {
                        refusal: refuse(text, ends, Reason::LiteralExpected, place),
                        count,
                    });
                }
                from = past;
                held = count;
            }
            Row::Closes { place, count } => return Ok(Some(Closed { count, next: place })),
        }
    }
}

// What is answered where no clause stands, with no literals.
fn instead(i: Result<usize, Refusal>) -> Answered
    ensures { result ≡ answered_of (instead i) }
{
    match i {
        Ok(place) => Answered {
            answer: Ok(None),
            place,
        },
        Err(refusal) => Answered {
            answer: Err(Stopped { refusal, count: 0 }),
            place: refusal.place,
        },
    }
}

// Where no number stands: the place of the text's end if it may come there, else a refusal.
#[tactic(auto, using(dimacs::proofs::LinedTokens::end_lined), unfolding(dimacs::specs::Clauses::absent))]
fn absent(text: &[u8], ends: Ends, at: usize, absence: Absence) -> Result<usize, Refusal>
    ensures { result ≡ absent (lined ends text.now) absence at }
{
    match absence {
        Absence::MayEnd => {
            if token::eof(text, at) {
                return Ok(at);
            }
            Err(refuse(text, ends, Reason::ClauseExpected, at))
        }
        Absence::NoClause => Err(refuse(text, ends, Reason::ClauseExpected, at)),
        Absence::NoLiterals => Err(refuse(text, ends, Reason::LiteralsExpected, at)),
    }
}

// The end of the text, or refusal 9, where no clause may come.
pub fn no_clause(text: &[u8], ends: Ends, at: usize) -> Answered
    ensures { result ≡ answered_of (instead (absent (lined ends text.now) Absence.MayEnd at)) }
{
    instead(absent(text, ends, at, Absence::MayEnd))
}

// Where the literals of a clause begin, after its weight or group, 0 if it has neither, and what it means if no number stands there.
// A clause that does not begin has none, or a reason to refuse it at its own place. That holds no refusal: so it is small, and LLVM keeps it in registers.
#[derive(Clone, Copy, Debug, PartialEq, Eq)]
struct Begin {
    extra: u64,
    place: usize,
    absence: Absence,
}

// The literals after a weight, a group or the word `h`.
fn literals_after(text: &[u8], ends: Ends, extra: u64, next: usize) -> Begin
    ensures { result ≡ begin_at extra (linebreaks (lined ends text.now) next) Absence.NoLiterals }
{
    Begin {
        extra,
        place: token::non_terminating_linebreaks(text, ends, next),
        absence: Absence::NoLiterals,
    }
}

// How a clause begins by its weight or group, which has a reason of its own where it is too big.
fn start_by(text: &[u8], ends: Ends, big: Reason, mark: Uint) -> Result<Option<Begin>, Reason>
    ensures { BeginsBy (lined ends text.now) (λ absence at. start_by (lined ends text.now) (number_of big) absence at mark) result }
{
    match mark {
        Uint::Missing => Ok(None),
        Uint::TooBig => Err(big),
        Uint::Value(extra, next) => Ok(Some(literals_after(text, ends, extra, next))),
    }
}

fn is_zero(weight: Uint) -> bool
    ensures { result ≡ is_zero weight }
{
    matches!(weight, Uint::Value(0, _))
}

// How a soft clause of the 2022 form begins by its weight.
fn soft_by(text: &[u8], ends: Ends, weight: Uint) -> Result<Option<Begin>, Reason>
    ensures { BeginsBy (lined ends text.now) (λ absence at. soft_by (lined ends text.now) absence at weight) result }
{
    if is_zero(weight) {
        return Err(Reason::WeightZero);
    }
    start_by(text, ends, Reason::WeightTooBig, weight)
}

// How a clause of the 2022 form begins.
#[tactic(auto, using(dimacs::proofs::LinedTokens::p_lined, dimacs::proofs::LinedTokens::h_lined, dimacs::proofs::LinedTokens::uint_lined), unfolding(dimacs::specs::Clauses::start_in2022))]
fn start_in_2022(text: &[u8], ends: Ends, at: usize) -> Result<Option<Begin>, Reason>
    ensures { BeginsAt (lined ends text.now) at (start_in2022 (lined ends text.now)) result }
{
    if token::word(text, at, b"p") != at {
        return Err(Reason::HeaderNotExpected);
    }
    let past = token::word(text, at, b"h");
    if past != at {
        return Ok(Some(literals_after(text, ends, HARD, past)));
    }
    let weight = numeral::uint(text, at, LARGEST);
    soft_by(text, ends, weight)
}

// How a clause begins in its format.
#[tactic(auto, using(dimacs::proofs::LinedTokens::uint_lined, dimacs::proofs::LinedTokens::braced_uint_lined), unfolding(dimacs::specs::Clauses::start_at))]
fn start_at(
    text: &[u8],
    ends: Ends,
    at: usize,
    format: Format,
    groups: u64,
    absence: Absence,
) -> Result<Option<Begin>, Reason>
    ensures { start_of (lined ends text.now) absence at result ≡ start_at (lined ends text.now) format groups absence at }
{
    match format {
        Format::Plain => Ok(Some(Begin {
            extra: 0,
            place: at,
            absence,
        })),
        Format::Weighted => {
            let weight = numeral::uint(text, at, LARGEST);
            start_by(text, ends, Reason::WeightTooBig, weight)
        }
        Format::Grouped => {
            let group = numeral::braced_uint(text, at, groups);
            start_by(text, ends, Reason::GroupTooBig, group)
        }
        Format::Weighted2022 => start_in_2022(text, ends, at),
    }
}

// What closes the line of a clause after its 0.
#[tactic(auto, unfolding(dimacs::specs::Clauses::closing))]
fn closing(text: &[u8], ends: Ends, closed: Closed, extra: u64) -> Answered
    ensures { ByCount closed.count (λ so. answered_of (closing (lined ends text.now) extra closed.next so)) result }
{
    let at = closed.next;
    let count = closed.count;
    match token::interactive_end_of_line(text, ends, at) {
        None => Answered {
            answer: Err(Stopped {
                refusal: refuse(text, ends, Reason::LineEndExpected, at),
                count,
            }),
            place: at,
        },
        Some(place) => Answered {
            answer: Ok(Some(Clause { extra, count })),
            place,
        },
    }
}

// A clause at a place where no comment and no line end stands. By `match` and not by `?`, since an answer has its place beside its Result.
pub fn clause_at(
    text: &[u8],
    ends: Ends,
    at: usize,
    format: Format,
    limits: Limits,
    absence: Absence,
    lits: &mut [i32],
) -> Answered
    ensures { Answers (clause_at (lined ends text.now) limits (length lits.old) format absence at) lits.old lits.new result }
{
    match start_at(text, ends, at, format, limits.groups, absence) {
        Ok(None) => instead(absent(text, ends, at, absence)),
        Err(reason) => instead(Err(refuse(text, ends, reason, at))),
        Ok(Some(begin)) => match clause_lits(text, ends, begin.place, limits.literals, lits) {
            Ok(None) => instead(absent(text, ends, begin.place, begin.absence)),
            Ok(Some(closed)) => closing(text, ends, closed, begin.extra),
            Err(stopped) => Answered {
                answer: Err(stopped),
                place: stopped.refusal.place,
            },
        },
    }
}
