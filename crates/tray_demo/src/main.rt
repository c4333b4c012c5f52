// The Monday, run: one text with two rules on a line, and forty good orders behind it, in one tray.
//
// The area holds the bad text and ten good ones, which come again and again. They wait in a tray of 32 places; the rest are put as places come free.
// A line is printed for each ticket given and for all that a turn tells it. Beside its verdict stand the turns taken since it was given, and the
// most that a text of so many bytes can take. Each line is laid into a page, and printed from it.
#![tactic(auto)]

ghost use Rattle.std.specs.Prelude.{◌≡◌, ◌+◌, ◌*◌, ◌/◌, ◌≤◌, ◌<◌};
ghost use Rattle.std.proofs.Math.ListN as list;
ghost use Rattle.dimacs.specs.Names.{places};
ghost use Rattle.lent_tray.specs.Lent.{LentPut, LentTurn};

use dimacs::{PLACES, ROOM, Reason};
use lines::{Page, Words};
use std::io::Stdout;
use tray::{Job, Part, Told, Tray};
use tray_lines::said_words;

// The bad text and the good ones.
const ORDERS: u64 = 41;

// The area, which holds one text after another. Before each stands a byte of its own, the number of its format.
const AREA: &[u8; 338] = b"\x001 0 2 0\n\
    \x00c oak fronts, no glass\np cnf 3 3\n1 2 0\n-1 -2 0\n1 -3 0\n\
    \x004 0\n-4 5 0\n\
    \x01p wcnf 3 3 10\n10 1 2 0\n3 -2 0\n1 3 0\n\
    \x02p gcnf 4 3 2\n{0} 1 2 0\n{1} -1 3 0\n{2} 4 0\n\
    \x00p cnf 6 5\nc a corner has a turning shelf\n-4 5 0\n-5 4 0\n-5 -3\n6 0\n4 0\n3 0\n\
    \x001 2\n3 0\n-1\n-3 0\n\
    \x00p cnf 2 2\r\n1 2 0\r\n-1 0\r\n\
    \x015 1 0\n7 -1 2 0\n\
    \x02{1} 1 -2 0\n{1} 2 0\n{3}-1 0\n\
    \x00c nothing chosen yet\n";

// More tickets than are given. At each is kept how many turns had been taken when it was given.
const TICKETS: usize = 64;

// More turns than the day takes.
const DAY: usize = 1000;

// More bytes than a line has.
const PAGE: usize = 4096;

// The words of a refusal.
const WORDS: Words<'static> = Words {
    place: b" at",
    count: b", literals",
    line: b", line",
    column: b", column",
};

// The most turns from its put on that a text of so many bytes can take.
fn most_turns(bytes: usize) -> u64
    requires { bytes ≤ 338 }
    ensures { result ≡ places * (2 + (bytes + 1) / 2) }
{
    (PLACES * (2 + (bytes + 1) / 2)) as u64
}

// Where the byte before the text of this number stands.
fn mark(text: usize) -> usize
    ensures { result ≤ 338 }
{
    let mut left = text;
    for (i, byte) in AREA.iter().enumerate() {
        if *byte <= 2 {
            if left == 0 {
                return i;
            }
            left -= 1;
        }
    }
    AREA.len()
}

// The part of the area that is the text of this number.
fn part(text: usize) -> Part
    requires { text ≤ 10 }
{
    let start = mark(text) + 1;
    Part {
        start,
        length: mark(text + 1).saturating_sub(start),
    }
}

// The bad text comes first, then the ten good ones again and again.
fn text_of(order: u64) -> usize
    ensures { result ≤ 10 }
{
    if order == 0 {
        return 0;
    }
    (1 + order % 10) as usize
}

// Where the turns are kept that had been taken when a ticket was given.
fn slot(ticket: u64) -> usize
    ensures { result < 64 }
{
    ticket as usize % TICKETS
}

fn ticket_words(page: &mut Page, ticket: u64) {
    page.word(b"ticket");
    page.number(ticket);
    page.word(b": ");
}

// The turns that a text took, and the most that it can take.
fn turns_words(page: &mut Page, taken: usize, bytes: usize) {
    page.word(b"; bytes");
    page.number(bytes as u64);
    page.word(b", turns");
    page.number(taken as u64);
    page.word(b" of at most");
    page.number(most_turns(bytes.min(AREA.len())));
}

// What a turn tells a job. With its verdict come the turns that it took.
fn told_line(page: &mut Page, told: Told, job: Job, taken: usize, lits: &[i32]) {
    ticket_words(page, told.ticket);
    said_words(page, told.said, job.stage.format(), lits, &WORDS);
    if told.last {
        turns_words(page, taken, job.part.length);
    }
    page.word(b"\n");
}

// A job put in the tray, which is lent for it.
fn put_lent(tray: &mut Tray, format: u8, mode: u8, part: Part, area: &[u8]) -> Result<u64, Reason>
    ensures { LentPut tray.old (record { format = format; mode = mode; start = part.start; length = part.length; lent = list.length area.now }) tray.new result }
{
    lent_tray::put(tray, format, mode, part, area)
}

// A turn of the tray, which is lent for it, and the literals with it.
fn turn_lent(tray: &mut Tray, area: &[u8], lits: &mut [i32]) -> Result<Told, Reason>
    ensures { LentTurn tray.old area.now lits.old lits.new tray.new result }
{
    lent_tray::turn(tray, area, lits)
}

// A tray and its literal buffer, the turns taken when each ticket was given, and the page for a line.
#[derive(Drop)]
struct Day<'a> {
    tray: Tray,
    lits: [i32; ROOM],
    begun: [usize; TICKETS],
    page: Page<'a>,
}

impl Day<'_> {
    // The next order is put, if one is left and there is a place. As many are put as there are tickets. A line tells its ticket.
    fn feed(&mut self, stdout: &mut Stdout, turns: usize) {
        let order = self.tray.given;
        if ORDERS <= order {
            return;
        }
        let text = text_of(order);
        let format = frame::u8_at(AREA, mark(text));
        if let Ok(ticket) = put_lent(&mut self.tray, format, 0, part(text), AREA) {
            self.begun[slot(ticket)] = turns;
            ticket_words(&mut self.page, ticket);
            self.page.word(b"put\n");
            self.page.show(stdout);
        }
    }

    // The turn of this number, if a job waits.
    fn turn(&mut self, stdout: &mut Stdout, turn: usize) {
        let Some(job) = tray::front_job(self.tray) else {
            return;
        };
        let taken = turn.saturating_sub(self.begun[slot(job.ticket)]);
        if let Ok(told) = turn_lent(&mut self.tray, AREA, &mut self.lits) {
            told_line(&mut self.page, told, job, taken, &self.lits);
            self.page.show(stdout);
        }
    }

    // As many orders as there are places, and then one after each turn.
    fn run(&mut self, stdout: &mut Stdout) {
        for _ in 0..PLACES {
            self.feed(stdout, 0);
        }
        for turn in 1..=DAY {
            self.turn(stdout, turn);
            self.feed(stdout, turn);
        }
    }

    // How many tickets were given, and how many jobs still wait.
    fn end(&mut self, stdout: &mut Stdout) {
        self.page.word(b"tickets");
        self.page.number(self.tray.given);
        self.page.word(b", waiting");
        self.page.number(self.tray.count as u64);
        self.page.word(b"\n");
        self.page.show(stdout);
    }
}

fn main(rt: HostRuntime) {
    let mut stdout = rt.stdout();
    let mut bytes = [0u8; PAGE];
    let page = Page {
        bytes: &mut bytes,
        at: 0,
    };
    let mut day = Day {
        tray: tray::empty(),
        lits: [0; ROOM],
        begun: [0; TICKETS],
        page,
    };
    day.run(&mut stdout);
    day.end(&mut stdout);
}
