// Headers and clauses of each format, written into a lent output.
//
// A line is written whole or not at all: a writer answers the length of its line, or a refusal with the output untouched.
#![tactic(auto)]

ghost use Rattle.std.specs.Prelude.{◌≡◌, ◌+◌, ◌≤◌, eqb, length, ◌&&◌, if◌then◌else◌};
ghost use Rattle.dimacs.specs.Clauses.{has_hard};
ghost use Rattle.dimacs.specs.Names.{call_refusal};
ghost use Rattle.dimacs.specs.Writing.{items, lead, third_digits, header_line, clause_line, write_header, write_line, write_clause, write_hard_clause};
ghost use Rattle.dimacs.specs.declared.Format.{Format};
ghost use Rattle.decimals.specs.Pieces.{PutAt, if_room};
ghost use Rattle.measures.specs.Lines.{header_start};
ghost use Rattle.writer.specs.Answers.{Writes};

use decimals::{put_digits, put_digits_after, put_literal};
use dimacs::{CEILING, Format, HARD, Header, Reason, Refusal, refuse_call};
use measures::{around_length, header_length, left_after, writable};

// Literals, each with the space after it.
fn put_literals(out: &mut [u8], at: usize, lits: &[i32]) -> usize
    requires { at + length (items lits.now) ≤ length out.old }
    ensures { PutAt at (items lits.now) out.old out.new result }
{
    let mut place = at;
    for lit in lits {
        place = put_literal(out, place, *lit);
        out[place] = b' ';
        place += 1;
    }
    place
}

// Bytes at the output's front.
fn put_bytes(out: &mut [u8], piece: &[u8]) -> usize
    requires { length piece.now ≤ length out.old }
    ensures { PutAt 0 piece.now out.old out.new result }
{
    out[..piece.len()].copy_from_slice(piece);
    piece.len()
}

// A weight with its space.
fn put_weight(out: &mut [u8], weight: u64) -> usize
    requires { length (lead Format.Weighted weight) ≤ length out.old }
    ensures { PutAt 0 (lead Format.Weighted weight) out.old out.new result }
{
    let past = put_digits(out, 0, weight);
    out[past] = b' ';
    past + 1
}

// What stands before the literals.
fn put_lead(out: &mut [u8], format: Format, extra: u64) -> usize
    requires { length (lead format extra) ≤ length out.old }
    ensures { PutAt 0 (lead format extra) out.old out.new result }
{
    match format {
        Format::Plain => 0,
        Format::Grouped => {
            let past = put_digits_after(out, 0, b'{', extra);
            out[past] = b'}';
            out[past + 1] = b' ';
            past + 2
        }
        Format::Weighted2022 if extra == HARD => put_bytes(out, b"h "),
        Format::Weighted | Format::Weighted2022 => put_weight(out, extra),
    }
}

fn put_clause(out: &mut [u8], format: Format, extra: u64, lits: &[i32]) -> usize
    requires { length (clause_line format extra lits.now) ≤ length out.old }
    ensures { PutAt 0 (clause_line format extra lits.now) out.old out.new result }
{
    let past_lead = put_lead(out, format, extra);
    let past = put_literals(out, past_lead, lits);
    out[past] = b'0';
    out[past + 1] = b'\n';
    past + 2
}

// Nothing is written where a test fails, for a reason that no text is at fault for.
fn refuse_unless(holds: bool, reason: Reason, index: usize) -> Result<(), Refusal>
    ensures { result ≡ (if holds then Ok tt else Err (call_refusal reason index)) }
{
    if holds {
        Ok(())
    } else {
        Err(refuse_call(reason, index))
    }
}

// The line of a clause, hard if the format has hard clauses and `extra` says so.
fn write_line(format: Format, extra: u64, lits: &[i32], out: &mut [u8]) -> Result<usize, Refusal>
    ensures { Writes (write_line format extra lits.now (length out.old)) out.old out.new result }
{
    let good = writable(lits);
    refuse_unless(lits.len() <= good, Reason::LiteralNotWritable, good)?;
    let room = left_after(out.len(), lits);
    refuse_unless(
        around_length(format, extra) <= room,
        Reason::OutputTooShort,
        0,
    )?;
    Ok(put_clause(out, format, extra, lits))
}

// Whether a clause of the 2022 form has the weight 0, which no soft one may have.
fn lacks_weight(format: Format, extra: u64) -> bool
    ensures { result ≡ has_hard format && eqb extra 0 }
{
    format.has_hard() && extra == 0
}

// The line of a clause: its weight or group if the format has one, the literals, the 0 and the line end. In the 2022 form it is soft, and its weight is not 0.
pub fn write_clause(
    format: Format,
    extra: u64,
    lits: &[i32],
    out: &mut [u8],
) -> Result<usize, Refusal>
    ensures { Writes (write_clause format extra lits.now (length out.old)) out.old out.new result }
{
    refuse_unless(!lacks_weight(format, extra), Reason::WeightZero, 0)?;
    write_line(format, extra, lits, out)
}

// The line of a hard clause, which the 2022 form alone has.
pub fn write_hard_clause(format: Format, lits: &[i32], out: &mut [u8]) -> Result<usize, Refusal>
    ensures { Writes (write_hard_clause format lits.now (length out.old)) out.old out.new result }
{
    refuse_unless(format.has_hard(), Reason::FormatOrModeUnknown, 0)?;
    write_line(format, HARD, lits, out)
}

// What a header begins with, up to its word. The words stand in the code, and not in a table beside their lengths: a piece of unknown length is copied by C's memcpy, and the library for C needs no function of C but memset.
fn put_start(out: &mut [u8], format: Format) -> usize
    requires { length (header_start format) ≤ length out.old }
    ensures { PutAt 0 (header_start format) out.old out.new result }
{
    match format {
        Format::Plain => put_bytes(out, b"p cnf"),
        Format::Weighted => put_bytes(out, b"p wcnf"),
        Format::Grouped => put_bytes(out, b"p gcnf"),
        Format::Weighted2022 => put_bytes(out, b"p "),
    }
}

// The third count, if the format has one.
fn put_third(out: &mut [u8], at: usize, format: Format, third: u64) -> usize
    ensures { PutAt at (if_room at (third_digits format third) out.old) out.old out.new result }
{
    if format.has_third() {
        put_digits_after(out, at, b' ', third)
    } else {
        at
    }
}

fn put_header(out: &mut [u8], format: Format, header: Header) -> usize
    requires { length (header_line format header) ≤ length out.old }
    ensures { PutAt 0 (header_line format header) out.old out.new result }
{
    let past_start = put_start(out, format);
    let past_variables = put_digits_after(out, past_start, b' ', header.variables);
    let past_clauses = put_digits_after(out, past_variables, b' ', header.clauses);
    let past = put_third(out, past_clauses, format, header.third);
    out[past] = b'\n';
    past + 1
}

// The line of a header.
pub fn write_header(format: Format, header: Header, out: &mut [u8]) -> Result<usize, Refusal>
    ensures { Writes (write_header format header (length out.old)) out.old out.new result }
{
    refuse_unless(format.has_header(), Reason::FormatOrModeUnknown, 0)?;
    refuse_unless(
        header.variables <= CEILING as u64,
        Reason::VariableCountTooBig,
        0,
    )?;
    refuse_unless(
        header_length(format, header) <= out.len(),
        Reason::OutputTooShort,
        0,
    )?;
    Ok(put_header(out, format, header))
}
