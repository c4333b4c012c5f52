// Words and numbers laid into a lent page.
//
// A piece is laid where the page goes on, and cut off where it ends, so that every place and every page will do.
#![tactic(auto)]

ghost use Rattle.std.specs.Prelude.{[], ◌∷◌, ◌≡◌, ◌<◌, take, IsTrue};
ghost use Rattle.std.specs.Io.KnownBytes.{Appends};
ghost use Rattle.dimacs.specs.Writing.{digits, signed_digits};
ghost use Rattle.pages.specs.Pages.{Laid};
ghost use Rattle.pages.specs.Printed.{printed_number, printed_literal, printed_literals, hex_digit, printed_hex, printed_hex_word};

use decimals::put_digits;
use dimacs::magnitude;
use std::io::Write;

fn hex_digit(d: u8) -> u8
    requires { d < 16 }
    ensures { result ≡ hex_digit d }
{
    match d {
        0..=9 => b'0' + d,
        _ => b'a' + (d - 10),
    }
}

// The first so many items, or all that there are.
pub fn first<T>(items: &[T], count: usize) -> &[T]
    ensures { result.now ≡ take count items.now }
{
    &items[..count.min(items.len())]
}

// A lent page, and the place where it goes on.
#[derive(Drop)]
pub struct Page<'a> {
    pub bytes: &'a mut [u8],
    pub at: usize,
}

impl Page<'_> {
    // What stands before the place where the page goes on.
    pub fn laid(&self) -> &[u8]
        ensures { result.now ≡ take self.now.at self.now.bytes.now }
    {
        first(self.bytes, self.at)
    }

    // Prints what is laid, and tells whether all of it was written. The page begins anew.
    pub fn show<W: Write>(&mut self, out: &mut W) -> bool
        ensures printed { IsTrue result → Appends (W.contents out.old) (W.contents out.new) (take self.old.at self.old.bytes.now) }
        ensures anew { self.new.at ≡ 0 }
        ensures same_bytes { self.new.bytes ≡ self.old.bytes }
    {
        let printed = console::print(out, self.laid());
        self.at = 0;
        printed
    }

    // One byte.
    pub fn byte(&mut self, b: u8)
        ensures { Laid (b ∷ []) self.old self.new }
    {
        if self.at < self.bytes.len() {
            self.bytes[self.at] = b;
            self.at += 1;
        }
    }

    // A word as it stands.
    pub fn word(&mut self, w: &[u8])
        ensures { Laid w.now self.old self.new }
    {
        for b in w {
            self.byte(*b);
        }
    }

    // A number in decimal.
    pub fn plain_number(&mut self, n: u64)
        ensures { Laid (digits n) self.old self.new }
    {
        let mut all = [0u8; 20];
        let long = put_digits(&mut all, 0, n);
        self.word(&all[..long]);
    }

    // A number after a space.
    pub fn number(&mut self, n: u64)
        ensures { Laid (printed_number n) self.old self.new }
    {
        self.byte(b' ');
        self.plain_number(n);
    }

    // A literal in decimal.
    fn signed(&mut self, v: i32)
        ensures { Laid (signed_digits v) self.old self.new }
    {
        if v < 0 {
            self.byte(b'-');
        }
        self.plain_number(magnitude(v));
    }

    // A literal after a space.
    fn literal(&mut self, v: i32)
        ensures { Laid (printed_literal v) self.old self.new }
    {
        self.byte(b' ');
        self.signed(v);
    }

    // Literals, each after a space.
    pub fn literals(&mut self, lits: &[i32])
        ensures { Laid (printed_literals lits.now) self.old self.new }
    {
        for v in lits {
            self.literal(*v);
        }
    }

    // A byte in two hex digits.
    fn hex(&mut self, b: u8)
        ensures { Laid (printed_hex b) self.old self.new }
    {
        self.byte(hex_digit(b / 16));
        self.byte(hex_digit(b % 16));
    }

    // A word in hex, two digits for each byte.
    pub fn hex_word(&mut self, w: &[u8])
        ensures { Laid (printed_hex_word w.now) self.old self.new }
    {
        for b in w {
            self.hex(*b);
        }
    }
}
