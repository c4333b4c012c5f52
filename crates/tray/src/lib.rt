// The tray: jobs that wait in a round, each read one clause at a turn.
//
// `put` gives a part of a lent area a ticket. Each `turn` serves the job at the front: its first turn opens its text, each later one asks for the
// next clause. A job leaves with its verdict, the end or a refusal, or by `withdraw`; else it goes to the back.
#![tactic(auto)]

ghost use Rattle.std.specs.Prelude.{◌≡◌, ◌≤◌};
ghost use Rattle.std.proofs.Math.ListN as list;
ghost use Rattle.dimacs.specs.Names.{own_room};
ghost use Rattle.service.specs.Serving.{Serves};
ghost use Rattle.tray.specs.Calls as def;
ghost use Rattle.tray.specs.Calls.{not_done, entered, put_of, turned, Turns, withdraw_of};

use dimacs::{Kind, LARGEST, PLACES, ROOM, Reason};
use service::{Said, Served, Stage};

// What a caller needs of the ring and of a job has its name here too.
pub use ring::{Job, Tray, empty, front_job, how_many};
pub use service::Part;

// A call's answer, or why it is refused, and the tray after it.
#[derive(Clone, Copy, Debug, PartialEq, Eq)]
pub struct Done<A> {
    pub tray: Tray,
    pub answer: Result<A, Reason>,
}

// What a turn tells: the job's ticket, what was said to it, and whether that is its verdict.
#[derive(Clone, Copy, Debug, PartialEq, Eq)]
pub struct Told {
    pub ticket: u64,
    pub said: Said,
    pub last: bool,
}

// A refused call changes nothing.
fn not_done<A>(tray: Tray, reason: Reason) -> Done<A>
    ensures { result ≡ not_done tray reason }
{
    Done {
        tray,
        answer: Err(reason),
    }
}

// A job to the back with a new ticket, if there is a place and a ticket left.
#[tactic(auto, unfolding(crate::specs::Calls::entered))]
fn enter(mut tray: Tray, part: Part, stage: Stage) -> Done<u64>
    ensures { result ≡ entered tray part.start part.length stage }
{
    let given = tray.given;
    if PLACES <= tray.count {
        return not_done(tray, Reason::TrayFull);
    }
    if LARGEST <= given {
        return not_done(tray, Reason::TicketsUsedUp);
    }
    let ticket = given + 1;
    tray.given = ticket;
    let job = Job {
        ticket,
        part,
        stage,
    };
    Done {
        tray: tray.join(job),
        answer: Ok(ticket),
    }
}

// A job of a format and a mode by their numbers, whose text is the part of the area.
pub fn put(tray: Tray, format: u8, mode: u8, part: Part, area: &[u8]) -> Done<u64>
    ensures { result ≡ put_of tray (record { format = format; mode = mode; start = part.start; length = part.length; lent = list.length area.now }) }
{
    match dimacs::kind_of(format, mode) {
        Some(Kind::Clauses(known, strict)) => {
            if part.is_within(area.len()) {
                return enter(tray, part, Stage::Fresh(known, strict));
            }
            not_done(tray, Reason::PartOutsideArea)
        }
        Some(Kind::Log(_)) | None => not_done(tray, Reason::FormatOrModeUnknown),
    }
}

// A job is served with the first places of the buffer.
fn serve(job: Job, area: &[u8], lits: &mut [i32]) -> Served
    requires { own_room ≤ list.length lits.old }
    ensures { Serves (def.serve area.now job) lits.old lits.new result }
{
    service::serve(job.stage, job.part, area, &mut lits[..ROOM])
}

// The front job, served.
fn tell(tray: Tray, job: Job, served: Served) -> Done<Told>
    ensures { result ≡ turned tray job served }
{
    let told = Told {
        ticket: job.ticket,
        said: served.said,
        last: served.goes.is_none(),
    };
    Done {
        tray: tray.pass(job, served.goes),
        answer: Ok(told),
    }
}

// The front job's turn. The buffer then holds the literals read, and after them what it held.
#[tactic(auto, unfolding(crate::specs::Calls::turn_of, crate::specs::Calls::buffer_of))]
pub fn turn(tray: Tray, area: &[u8], lits: &mut [i32]) -> Done<Told>
    ensures { Turns tray area.now lits.old lits.new result }
{
    let Some(job) = front_job(tray) else {
        return not_done(tray, Reason::NothingWaits);
    };
    if lits.len() < ROOM {
        return not_done(tray, Reason::BufferTooShort);
    }
    tell(tray, job, serve(job, area, lits))
}

// The job with the ticket leaves; the others keep their order.
#[tactic(auto, unfolding(crate::specs::Calls::withdraw_of))]
pub fn withdraw(tray: Tray, ticket: u64) -> Done<u64>
    ensures { result ≡ withdraw_of tray ticket }
{
    match tray.take_out(ticket) {
        Some(left) => Done {
            tray: left,
            answer: Ok(ticket),
        },
        None => not_done(tray, Reason::TicketNotWaiting),
    }
}
