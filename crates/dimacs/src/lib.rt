// The words that every layer shares: bounds, formats and modes, reasons for a refusal, and the small answers of tokens.
// The written definition in specs/ is over these same types, so that a contract equates an answer with a definition.
#![tactic(auto)]

ghost use Rattle.std.specs.Prelude.{◌≡◌, ◌<◌, ℕ, eqb, nat_abs, length};
ghost use Rattle.dimacs.specs.Bytes.{LF};
ghost use Rattle.dimacs.specs.Spots.{spot_of};
ghost use Rattle.dimacs.specs.Names.{in_mode, kind_in, kind_of, number_of, numbered, call_numbered};
ghost use Rattle.dimacs.specs.Lined.{lined, also_ends};
ghost use Rattle.dimacs.specs.Tokens.{byte_at};
ghost use Rattle.dimacs.specs.Header.{has_header, has_third};
ghost use Rattle.dimacs.specs.Clauses.{has_hard};

// The largest variable, and the largest literal either way.
pub const CEILING: u32 = 2147483647;

// The largest count, weight or group.
pub const LARGEST: u64 = 18446744073709551615;

// The longest word that a refusal shows.
pub const LONGEST_WORD: usize = 60;

// The room for the literals of a clause where the caller lends no buffer.
pub const ROOM: usize = 1024;

// The places of a tray.
pub const PLACES: usize = 32;

// A text of clauses is plain, or each clause has a weight, or each has a group, or each is hard or has a weight, as in the 2022 form.
#[derive(Clone, Copy, Debug, PartialEq, Eq)]
pub enum Format {
    Plain,
    Weighted,
    Grouped,
    Weighted2022,
}

// The number that names a log.
pub const LOG_FORMAT: u8 = 3;

// A lenient reading applies no count of a header, and passes over log lines of no permitted kind.
#[derive(Clone, Copy, Debug, PartialEq, Eq)]
pub enum Rigor {
    Strict,
    Lenient,
}

// What ends a line: LF and CR LF; or these, and a CR that no LF follows.
#[derive(Clone, Copy, Debug, PartialEq, Eq)]
pub enum Ends {
    LineFeed,
    AlsoReturn,
}

// How a text is read.
#[derive(Clone, Copy, Debug, PartialEq, Eq)]
pub struct Mode {
    pub rigor: Rigor,
    pub ends: Ends,
}

// What the numbers of a format and a mode name: a text of clauses, or a log.
#[derive(Clone, Copy, Debug, PartialEq, Eq)]
pub enum Kind {
    Clauses(Format, Mode),
    Log(Mode),
}

#[tactic(auto, unfolding(crate::specs::Names::kind_in))]
fn kind_in(format: u8, rigor: Rigor, ends: Ends) -> Option<Kind>
    ensures { result ≡ kind_in (in_mode rigor ends) format }
{
    let mode = Mode { rigor, ends };
    match format {
        0 => Some(Kind::Clauses(Format::Plain, mode)),
        1 => Some(Kind::Clauses(Format::Weighted, mode)),
        2 => Some(Kind::Clauses(Format::Grouped, mode)),
        LOG_FORMAT => Some(Kind::Log(mode)),
        4 => Some(Kind::Clauses(Format::Weighted2022, mode)),
        _ => None,
    }
}

// What the numbers of a format and a mode name, if anything. Every call that takes such numbers asks here.
#[tactic(auto, unfolding(crate::specs::Names::kind_of))]
pub fn kind_of(format: u8, mode: u8) -> Option<Kind>
    ensures { result ≡ kind_of format mode }
{
    match mode {
        0 => kind_in(format, Rigor::Strict, Ends::LineFeed),
        1 => kind_in(format, Rigor::Lenient, Ends::LineFeed),
        2 => kind_in(format, Rigor::Strict, Ends::AlsoReturn),
        3 => kind_in(format, Rigor::Lenient, Ends::AlsoReturn),
        _ => None,
    }
}

impl Format {
    // Whether texts of the format may have a header.
    pub fn has_header(self) -> bool
        ensures { result ≡ has_header self }
    {
        self != Format::Weighted2022
    }

    // Whether a header of the format has a third count.
    pub fn has_third(self) -> bool
        ensures { result ≡ has_third self }
    {
        matches!(self, Format::Weighted | Format::Grouped)
    }

    // Whether clauses of the format are hard or soft.
    pub fn has_hard(self) -> bool
        ensures { result ≡ has_hard self }
    {
        self == Format::Weighted2022
    }
}

// The weight with which a hard clause of the 2022 form is answered.
pub const HARD: u64 = 0;

// Why something is refused. Each reason has the number by which it goes outside; what it means stands beside it in specs/Names.
#[derive(Clone, Copy, Debug, PartialEq, Eq)]
pub enum Reason {
    FormatWordExpected = 1,
    VariableCountExpected = 2,
    ClauseCountExpected = 3,
    ThirdCountExpected = 4,
    LineEndExpected = 5,
    LiteralExpected = 6,
    LiteralExpectedAfterLines = 7,
    LiteralsExpected = 8,
    ClauseExpected = 9,
    VariableCountTooBig = 10,
    ClauseCountTooBig = 11,
    ThirdCountTooBig = 12,
    WeightTooBig = 13,
    GroupTooBig = 14,
    LiteralTooBig = 15,
    BufferFull = 16,
    SolutionExpected = 17,
    LogLineExpected = 18,
    AssignmentOpen = 19,
    TrayFull = 20,
    PartOutsideArea = 21,
    BufferTooShort = 22,
    NothingWaits = 23,
    TicketNotWaiting = 24,
    TicketsUsedUp = 25,
    FormatOrModeUnknown = 26,
    LiteralNotWritable = 27,
    OutputTooShort = 28,
    WeightZero = 32,
    HeaderNotExpected = 33,
}

impl From<Reason> for u8 {
    ghost from_gives = { λ reason number. number ≡ number_of reason };

    fn from(reason: Reason) -> u8 {
        reason as u8
    }
}

// What a refusal may be asked for by: a reason, or any number.
pub trait Numbered: Copy {
    ghost number: { Self → ℕ };

    // The number by which it goes outside.
    fn number(self) -> u8
        ensures { result ≡ number self };
}

impl Numbered for Reason {
    ghost number = { number_of };

    fn number(self) -> u8 {
        u8::from(self)
    }
}

impl Numbered for u8 {
    ghost number = { λ number. number };

    fn number(self) -> u8 {
        self
    }
}

// A refusal: its number, the place at fault, and the line and the column of that place, or 0 and 0 where no text is at fault.
#[derive(Clone, Copy, Debug, PartialEq, Eq)]
pub struct Refusal {
    pub number: u8,
    pub place: usize,
    pub line: usize,
    pub column: usize,
}

// The line and the column of a place, both counted from 1.
#[derive(Clone, Copy, Debug, PartialEq, Eq)]
pub struct Spot {
    pub line: usize,
    pub column: usize,
}

// The byte that ends a line wherever it stands, beside LF: CR, or no other.
pub fn also_ends(ends: Ends) -> u8
    ensures { result ≡ also_ends ends }
{
    match ends {
        Ends::LineFeed => b'\n',
        Ends::AlsoReturn => b'\r',
    }
}

// Whether a line ends with the byte at a place. With CR before LF it does not, as it ends with the LF.
fn ends_line(text: &[u8], ends: Ends, at: usize) -> bool
    requires { at < length text.now }
    ensures { result ≡ eqb (byte_at (lined ends text.now) at) LF }
{
    let b = text[at];
    let next = at + 1;
    b == b'\n' || b == also_ends(ends) && (text.len() <= next || text[next] != b'\n')
}

// The line and the column of a place. A place past the text's end has those of the end.
// LLVM puts a copy of a function that calls itself into no caller, so that a reader holds no such loop at each refusal.
fn spot_of(text: &[u8], ends: Ends, place: usize) -> Spot
    ensures { result ≡ spot_of (lined ends text.now) place }
{
    if text.len() < place {
        return spot_of(text, ends, text.len());
    }
    let mut line: usize = 1;
    let mut column: usize = 1;
    for i in 0..place {
        if ends_line(text, ends, i) {
            line += 1;
            column = 1;
        } else {
            column += 1;
        }
    }
    Spot { line, column }
}

// The refusal of a text at a place in it. Every refusal of a text is made here.
#[tactic(auto, unfolding(crate::specs::Names::numbered))]
pub fn refuse<N: Numbered>(text: &[u8], ends: Ends, reason: N, place: usize) -> Refusal
    ensures { result ≡ numbered (lined ends text.now) (N.number reason) place }
{
    let spot = spot_of(text, ends, place);
    Refusal {
        number: reason.number(),
        place,
        line: spot.line,
        column: spot.column,
    }
}

// The refusal of a call, where no text is at fault, at the index of the literal at fault, or at 0. Every such refusal is made here.
pub fn refuse_call<N: Numbered>(reason: N, index: usize) -> Refusal
    ensures { result ≡ call_numbered (N.number reason) index }
{
    Refusal {
        number: reason.number(),
        place: index,
        line: 0,
        column: 0,
    }
}

// The size of a literal.
pub fn magnitude(literal: i32) -> u64
    ensures { result ≡ nat_abs literal }
{
    u64::from(literal.unsigned_abs())
}

// An unsigned number at a place: none, its value and the place past it and the blanks after it, or one above its limit.
#[derive(Clone, Copy, Debug, PartialEq, Eq)]
pub enum Uint {
    Missing,
    Value(u64, usize),
    TooBig,
}

// A signed number at a place: none; the 0 or a literal, and the place past it and the blanks after it; or one beyond its limit.
#[derive(Clone, Copy, Debug, PartialEq, Eq)]
pub enum Int {
    Missing,
    Zero(usize),
    Literal(i32, usize),
    TooBig,
}

// What a header says: the counts of variables and clauses, and the top weight or the count of groups, or 0 where the format has no third.
#[derive(Clone, Copy, Debug, PartialEq, Eq)]
pub struct Header {
    pub variables: u64,
    pub clauses: u64,
    pub third: u64,
}

// The limits of a text: of literals either way, of groups, and of clauses, where 0 is no limit.
#[derive(Clone, Copy, Debug, PartialEq, Eq)]
pub struct Limits {
    pub literals: u32,
    pub groups: u64,
    pub clauses: u64,
}

// How a text of clauses opens: with a header or with none, and the place where the clauses begin.
#[derive(Clone, Copy, Debug, PartialEq, Eq)]
pub enum Opening {
    Header(Header, usize),
    NoHeader(usize),
}

// What it means that no number stands at a place: the text may end there; or there is no clause; or there are no literals after a weight, a group or the word `h`.
#[derive(Clone, Copy, Debug, PartialEq, Eq)]
pub enum Absence {
    MayEnd,
    NoClause,
    NoLiterals,
}

// How far a text of clauses is read: the next place, the clauses read, and the answer that later calls repeat, once there is one: the end, or a refusal.
#[derive(Clone, Copy, Debug, PartialEq, Eq)]
pub struct Progress {
    pub place: usize,
    pub count: u64,
    pub last: Option<Result<(), Refusal>>,
}

// What a solution line says of a log's formula: satisfiable, unsatisfiable, or that the solver does not know.
#[derive(Clone, Copy, Debug, PartialEq, Eq)]
pub enum Verdict {
    Yes,
    No,
    Unknown,
}

// A log's assignment has no line yet, or waits for its 0, or is closed by it.
#[derive(Clone, Copy, Debug, PartialEq, Eq)]
pub enum Assignment {
    Unbegun,
    Begun,
    Closed,
}
