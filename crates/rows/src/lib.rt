// A row of literals, read into a lent buffer after those that it holds.
#![tactic(auto)]

ghost use Rattle.std.specs.Prelude.{◌≡◌, length, take, min};
ghost use Rattle.dimacs.specs.Lined.{lined};
ghost use Rattle.dimacs.specs.Rows.{reads, row};
ghost use Rattle.rows.specs.Answers.{ReadsRow};

use dimacs::{Ends, Int, Reason, Refusal, refuse};

// What a row comes to that is not refused, with how many literals the buffer holds.
#[derive(Clone, Copy, Debug, PartialEq, Eq)]
pub enum Row {
    // It ends at a place where no number stands.
    Ends { place: usize, count: usize },
    // Its 0 closes it; the place is past the 0 and the blanks after it.
    Closes { place: usize, count: usize },
}

// A refusal, and how many literals before it the buffer holds.
#[derive(Clone, Copy, Debug, PartialEq, Eq)]
pub struct Stopped {
    pub refusal: Refusal,
    pub count: usize,
}

// After how many literals of a buffer a row begins: after so many, or after all where it has not so many.
fn begins_after(held: usize, long: usize) -> usize
    ensures { result ≡ min held long }
{
    held.min(long)
}

// The row from a place on, after `held` literals of the buffer, or after all where it has not so many.
pub fn ints(
    text: &[u8],
    ends: Ends,
    at: usize,
    limit: u32,
    held: usize,
    lits: &mut [i32],
) -> Result<Row, Stopped>
    ensures { ReadsRow (row (lined ends text.now) limit (length lits.old) (reads at (take held lits.old))) lits.old lits.new result }
{
    let mut place = at;
    let mut count = begins_after(held, lits.len());
    loop {
        match numeral::int(text, place, limit) {
            Int::Missing => return Ok(Row::Ends { place, count }),
            Int::Zero(next) => return Ok(Row::Closes { place: next, count }),
            Int::TooBig => {
                return Err(Stopped {
                    refusal: refuse(text, ends, Reason::LiteralTooBig, place),
                    count,
                });
            }
            Int::Literal(v, next) => {
                if lits.len() <= count {
                    return Err(Stopped {
                        refusal: refuse(text, ends, Reason::BufferFull, place),
                        count,
                    });
                }
                lits[count] = v;
                count += 1;
                place = next;
            }
        }
    }
}
