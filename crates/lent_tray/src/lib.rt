// The calls of the tray on a tray that is lent: each answers what the call on the tray itself answers, and leaves the tray that it leaves.
#![tactic(auto)]

ghost use Rattle.std.specs.Prelude.{◌≡◌};
ghost use Rattle.std.proofs.Math.ListN as list;
ghost use Rattle.lent_tray.specs.Lent.{LentPut, LentTurn, LentWithdrawal};

use dimacs::Reason;
use tray::{Done, Part, Told, Tray};

// The tray that a call left is put behind the reference.
fn keep<A>(tray: &mut Tray, done: Done<A>) -> Result<A, Reason>
    ensures answer { result ≡ done.answer }
    ensures tray { tray.new ≡ done.tray }
{
    *tray = done.tray;
    done.answer
}

// A job of a format and a mode by their numbers, whose text is the part of the area.
pub fn put(tray: &mut Tray, format: u8, mode: u8, part: Part, area: &[u8]) -> Result<u64, Reason>
    ensures { LentPut tray.old (record { format = format; mode = mode; start = part.start; length = part.length; lent = list.length area.now }) tray.new result }
{
    let done = tray::put(*tray, format, mode, part, area);
    keep(tray, done)
}

// The front job's turn. The buffer then holds the literals read, and after them what it held.
pub fn turn(tray: &mut Tray, area: &[u8], lits: &mut [i32]) -> Result<Told, Reason>
    ensures { LentTurn tray.old area.now lits.old lits.new tray.new result }
{
    let done = tray::turn(*tray, area, lits);
    keep(tray, done)
}

// The job with the ticket leaves; the others keep their order.
pub fn withdraw(tray: &mut Tray, ticket: u64) -> Result<u64, Reason>
    ensures { LentWithdrawal tray.old ticket tray.new result }
{
    let done = tray::withdraw(*tray, ticket);
    keep(tray, done)
}
