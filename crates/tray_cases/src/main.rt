// Takes calls on a tray from standard input, and prints a line for each. All numbers are little-endian.
//
// First comes the area: its length in four bytes, and its bytes, at most 65,536. Then come calls, each a byte and what follows it:
// 0 puts (format and mode of one byte each, start and length of eight), 1 takes a turn (how much of the area and how much of the literal buffer
// is lent, of four bytes each), 2 withdraws (a ticket of eight), 3 changes a byte of the area (an offset of four, and the byte).
// Where a read fails, `unreadable` is the last line.
#![tactic(auto)]

use console::{Shortfall, print, stop, take};
use dimacs::{Format, LARGEST, Reason};
use frame::{u8_at, u32_at, u64_at};
use lines::{Page, Words, first};
use service::Part;
use std::io::{Stdin, Stdout};
use tray::{Told, Tray};
use tray_lines::said_words;

// The longest area.
const AREA: usize = 65536;

// The most literals.
const LITERALS: usize = 4096;

// More bytes than a line has, with 1,024 literals of at most eleven bytes and a space.
const PAGE: usize = 16384;

// A call as the input has it.
#[derive(Clone, Copy, Debug, PartialEq, Eq)]
enum Call {
    Put { format: u8, mode: u8, part: Part },
    Turn { lent: usize, room: usize },
    Withdraw(u64),
    Change { at: usize, byte: u8 },
}

fn take_put(stdin: &mut Stdin) -> Result<Call, Shortfall> {
    let mut frame = [0; 18];
    take(stdin, &mut frame)?;
    Ok(Call::Put {
        format: u8_at(&frame, 0),
        mode: u8_at(&frame, 1),
        part: Part {
            start: u64_at(&frame, 2) as usize,
            length: u64_at(&frame, 10) as usize,
        },
    })
}

fn take_turn(stdin: &mut Stdin) -> Result<Call, Shortfall> {
    let mut frame = [0; 8];
    take(stdin, &mut frame)?;
    Ok(Call::Turn {
        lent: u32_at(&frame, 0) as usize,
        room: u32_at(&frame, 4) as usize,
    })
}

fn take_withdraw(stdin: &mut Stdin) -> Result<Call, Shortfall> {
    let mut frame = [0; 8];
    take(stdin, &mut frame)?;
    Ok(Call::Withdraw(u64_at(&frame, 0)))
}

fn take_change(stdin: &mut Stdin) -> Result<Call, Shortfall> {
    let mut frame = [0; 5];
    take(stdin, &mut frame)?;
    Ok(Call::Change {
        at: u32_at(&frame, 0) as usize,
        byte: u8_at(&frame, 4),
    })
}

// The next call, or none at the input's end. After one of no kind it is not known where the next begins, so that none follows it.
fn next_call(stdin: &mut Stdin, out: &mut Stdout) -> Result<Option<Call>, Shortfall> {
    let mut kind = [0; 1];
    match take(stdin, &mut kind) {
        Ok(()) => {}
        Err(Shortfall::Part(_)) => return Ok(None),
        Err(Shortfall::Failed) => return Err(Shortfall::Failed),
    }
    let call = match u8_at(&kind, 0) {
        0 => take_put(stdin)?,
        1 => take_turn(stdin)?,
        2 => take_withdraw(stdin)?,
        3 => take_change(stdin)?,
        _ => {
            print(out, b"unknown\n");
            return Ok(None);
        }
    };
    Ok(Some(call))
}

// The format of the job at the front. Where none is, the turn is refused and any format does.
fn front_format(tray: Tray) -> Format {
    match tray::front_job(tray) {
        Some(job) => job.stage.format(),
        None => Format::Plain,
    }
}

// Beyond the area nothing happens.
fn change(area: &mut [u8], at: usize, byte: u8) {
    if let Some(place) = area.get_mut(at) {
        *place = byte;
    }
}

// The tray, which goes through each call by value as in `tray_demo` it is lent, and where lines are laid and then printed. The area and the literals stand apart, as a turn borrows them beside the tray.
#[derive(Drop)]
struct Desk<'a> {
    tray: Tray,
    page: Page<'a>,
    out: &'a mut Stdout,
}

impl Desk<'_> {
    fn end_line(&mut self) {
        self.page.byte(b'\n');
        self.page.show(self.out);
    }

    // The number of a call's own refusal.
    fn refused(&mut self, reason: Reason) {
        self.page.word(b" refused");
        self.page.number(u64::from(u8::from(reason)));
    }

    // What a call says of a ticket.
    fn ticket_line(&mut self, call: &[u8], answer: Result<u64, Reason>) {
        self.page.word(call);
        match answer {
            Ok(ticket) => self.page.number(ticket),
            Err(reason) => self.refused(reason),
        }
        self.end_line();
    }

    fn put(&mut self, format: u8, mode: u8, part: Part, area: &[u8]) {
        let done = tray::put(self.tray, format, mode, part, area);
        self.tray = done.tray;
        self.ticket_line(b"put", done.answer);
    }

    fn withdraw(&mut self, ticket: u64) {
        let done = tray::withdraw(self.tray, ticket);
        self.tray = done.tray;
        self.ticket_line(b"withdraw", done.answer);
    }

    // What a turn tells a ticket, whose format is that of the job at the front before it.
    fn told(&mut self, told: Told, format: Format, lits: &[i32]) {
        self.page.number(told.ticket);
        self.page.byte(b' ');
        said_words(&mut self.page, told.said, format, lits, &Words::NONE);
    }

    fn turn(&mut self, area: &[u8], lits: &mut [i32]) {
        let format = front_format(self.tray);
        let done = tray::turn(self.tray, area, lits);
        self.tray = done.tray;
        self.page.word(b"turn");
        match done.answer {
            Ok(told) => self.told(told, format, lits),
            Err(reason) => self.refused(reason),
        }
        self.end_line();
    }

    // A turn is lent no more of the area and of the literals than it asks for.
    fn make(&mut self, call: Call, area: &mut [u8], lits: &mut [i32]) {
        match call {
            Call::Put { format, mode, part } => self.put(format, mode, part, area),
            Call::Turn { lent, room } => {
                let room = room.min(lits.len());
                self.turn(first(area, lent), &mut lits[..room]);
            }
            Call::Withdraw(ticket) => self.withdraw(ticket),
            Call::Change { at, byte } => change(area, at, byte),
        }
    }

    fn calls(
        &mut self,
        stdin: &mut Stdin,
        area: &mut [u8],
        lits: &mut [i32],
    ) -> Result<(), Shortfall> {
        for _ in 0..LARGEST {
            let Some(call) = next_call(stdin, self.out)? else {
                return Ok(());
            };
            self.make(call, area, lits);
        }
        Ok(())
    }
}

// The calls on an area of this length.
fn sized_calls(stdin: &mut Stdin, out: &mut Stdout, length: usize) -> Result<(), Shortfall> {
    let mut area = [0; AREA];
    if AREA < length {
        print(out, b"too long\n");
        return Ok(());
    }
    let area = &mut area[..length];
    take(stdin, area)?;
    let mut lits = [0; LITERALS];
    let mut bytes = [0; PAGE];
    let page = Page {
        bytes: &mut bytes,
        at: 0,
    };
    let mut desk = Desk {
        tray: tray::empty(),
        page,
        out,
    };
    desk.calls(stdin, area, &mut lits)
}

// The area's length, its bytes, and the calls.
fn all_calls(stdin: &mut Stdin, out: &mut Stdout) -> Result<(), Shortfall> {
    let mut size = [0; 4];
    take(stdin, &mut size)?;
    sized_calls(stdin, out, u32_at(&size, 0) as usize)
}

fn main(rt: HostRuntime) {
    let mut stdout = rt.stdout();
    let ended = all_calls(&mut rt.stdin(), &mut stdout);
    stop(&mut stdout, ended);
}
