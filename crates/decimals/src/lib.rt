// Numbers and literals in decimal, written into a lent output at a place.
//
// A number is written whole or not at all: where it would end past the output, its place is answered and the output is untouched.
//
// Nothing is divided. Digits are found by subtracting powers of ten, from the first to the last, and counted by comparing with them.
#![tactic(auto)]

ghost use Rattle.std.specs.Prelude.{[], ◌∷◌, ◌≡◌, ◌+◌, ◌-◌, ◌*◌, ◌/◌, ◌%◌, ◌≤◌, ◌<◌, ltb, length};
ghost use Rattle.dimacs.specs.Writing.{digits, signed_digits};
ghost use Rattle.decimals.specs.Pieces.{PutAt, if_room};
ghost use Rattle.decimals.specs.Places.{tens, figure, digit_at, digits_from, less_part, Lays};
ghost use Rattle.decimals.specs.Signs.{sign_of};

use dimacs::magnitude;

// The most digits that a 64-bit number has.
const MOST: usize = 20;

// The table: the power of ten of each place, from the last digit's on. It lies in read-only memory, and where the compiler knows the place, it is a number in the code.
static POWERS: [u64; MOST] = [
    1,
    10,
    100,
    1000,
    10000,
    100000,
    1000000,
    10000000,
    100000000,
    1000000000,
    10000000000,
    100000000000,
    1000000000000,
    10000000000000,
    100000000000000,
    1000000000000000,
    10000000000000000,
    100000000000000000,
    1000000000000000000,
    10000000000000000000,
];

fn power(k: usize) -> u64
    requires { k < 20 }
    ensures { result ≡ tens k }
{
    POWERS[k]
}

// How many digits a number has: one, and one for each power from ten on that fits.
pub fn digit_count(n: u64) -> usize
    ensures { result ≡ length (digits n) }
{
    1 + POWERS[1..].iter().take_while(|power| **power <= n).count()
}

// How many digits a number of at most ten has, with no branch: in a clause the lengths of literals differ, so that none could be foretold.
fn count_ten(n: u64) -> usize
    requires { n < tens 10 }
    ensures { result ≡ length (digits n) }
{
    let mut count: usize = 1;
    for k in 1..10 {
        count += usize::from(power(k) <= n);
    }
    count
}

// How long the sign of a literal is: a minus, or none.
fn sign_length(literal: i32) -> usize
    ensures { result ≡ length (sign_of literal) }
{
    usize::from(literal.is_negative())
}

// How many bytes a literal takes: its digits, and a minus if it is negative.
pub fn literal_length(literal: i32) -> usize
    ensures { result ≡ length (signed_digits literal) }
{
    sign_length(literal) + count_ten(magnitude(literal))
}

// How many bytes an output has from a place on.
fn room_from(long: usize, at: usize) -> usize
    ensures { result ≡ long - at }
{
    long.saturating_sub(at)
}

// Whether a number would end past an output, at a place and after so many bytes. Its digits are counted only where they may not fit.
fn lacks_room(long: usize, at: usize, before: usize, n: u64) -> bool
    requires { before ≤ 1 }
    ensures { result ≡ ltb long (at + (before + length (digits n))) }
{
    let room = room_from(long, at);
    room <= MOST && room < before + digit_count(n)
}

// A number less a part, if that fits. By `checked_sub` and `unwrap_or` a literal took 41 % more instructions.
#[tactic(auto, unfolding(crate::specs::Places::less_part))]
fn less(n: u64, part: u64) -> u64
    ensures { result ≡ less_part n part }
{
    if n < part { n } else { n - part }
}

// The first digit of a number, by the power of its place: how often that fits, in the last four bits, and above them what is left of the number.
//
// Of sixteen times the number one less than sixteen times the power is taken where it fits, so that each time counts itself in the last four bits. It is taken eight times at once, then four times, twice and once.
fn first_digit(n: u64, power: u64) -> u64
    requires { (n < 10 * power) × (power ≤ tens 17) }
    ensures { result ≡ 16 * (n % power) + n / power }
{
    let once = 16 * power - 1;
    let below_8 = less(16 * n, 8 * once);
    let below_4 = less(below_8, 4 * once);
    let below_2 = less(below_4, 2 * once);
    less(below_2, once)
}

// The digit in the last four bits, as it is written.
fn digit_byte(held: u64) -> u8
    ensures { result ∷ [] ≡ figure (held % 16) }
{
    b'0' + (held & 15) as u8
}

// The place past digits that were laid, and what is left of the number behind them.
#[derive(Clone, Copy)]
struct Laid {
    place: usize,
    left: u64,
}

// The digit of a number at a place, if it has one there. What is left of the number behind the digits before it is brought along.
fn lay_digit(out: &mut [u8], at: usize, n: u64, from: u64, k: usize) -> Laid
    requires { (from ≡ n % tens (k + 1)) × (1 ≤ k) × (k < 18) × (at + length (digit_at k n) ≤ length out.old) }
    ensures { Lays at (digit_at k n) (n % tens k) out.old out.new result.place result.left }
{
    let once = power(k);
    if n < once {
        return Laid {
            place: at,
            left: from,
        };
    }
    let held = first_digit(from, once);
    out[at] = digit_byte(held);
    Laid {
        place: at + 1,
        left: held >> 4,
    }
}

// The digits of a number at the places from a high one down to a low one. The compiler writes up to nine turns out, one behind the other; in a loop it would make a branch of each subtraction.
fn lay_places(out: &mut [u8], at: usize, n: u64, from: u64, high: usize, low: usize) -> Laid
    requires { (from ≡ n % tens high) × (1 ≤ low) × (low ≤ high) × (high ≤ 18) × (at + length (digits_from low (high - low) n) ≤ length out.old) }
    ensures { Lays at (digits_from low (high - low) n) (n % tens low) out.old out.new result.place result.left }
{
    let mut laid = Laid {
        place: at,
        left: from,
    };
    for k in (low..high).rev() {
        laid = lay_digit(out, laid.place, n, laid.left, k);
    }
    laid
}

// The digits of a number below a place, to the last.
fn lay_rest(out: &mut [u8], at: usize, n: u64, from: u64, high: usize) -> usize
    requires { (from ≡ n % tens high) × (1 ≤ high) × (high ≤ 18) × (at + length (digits_from 0 high n) ≤ length out.old) }
    ensures { PutAt at (digits_from 0 high n) out.old out.new result }
{
    let laid = lay_places(out, at, n, from, high, 1);
    let place = laid.place;
    out[place] = digit_byte(laid.left);
    place + 1
}

// The nineteenth digit from the last, perhaps a zero, of a number that has no more. Sixteen times its power is too big, so a sixteenth of both is gone by: the power is a multiple of sixteen, and the last four bits of the number stay as they are.
fn lay_nineteenth(out: &mut [u8], at: usize, n: u64) -> Laid
    requires { (n < tens 19) × (at < length out.old) }
    ensures { Lays at (figure (n / tens 18)) (n % tens 18) out.old out.new result.place result.left }
{
    let held = first_digit(n >> 4, power(18) >> 4);
    out[at] = digit_byte(held);
    Laid {
        place: at + 1,
        left: 16 * (held >> 4) + (n & 15),
    }
}

// The digits of a number at the two highest places, if it has any there. The highest power fits at most once.
fn lay_top(out: &mut [u8], at: usize, n: u64) -> Laid
    requires { at + length (digits_from 18 2 n) ≤ length out.old }
    ensures { Lays at (digits_from 18 2 n) (n % tens 18) out.old out.new result.place result.left }
{
    if n < power(18) {
        return Laid { place: at, left: n };
    }
    if n < power(19) {
        return lay_nineteenth(out, at, n);
    }
    out[at] = b'1';
    lay_nineteenth(out, at + 1, n - power(19))
}

// The digits of a number at all places, nine at a time below the highest two.
fn lay_long(out: &mut [u8], at: usize, n: u64) -> usize
    requires { at + length (digits n) ≤ length out.old }
    ensures { PutAt at (digits n) out.old out.new result }
{
    let top = lay_top(out, at, n);
    let middle = lay_places(out, top.place, n, top.left, 18, 9);
    lay_rest(out, middle.place, n, middle.left, 9)
}

// The digits of a number. Fewer places are gone through where it is small.
fn lay_digits(out: &mut [u8], at: usize, n: u64) -> usize
    requires { at + length (digits n) ≤ length out.old }
    ensures { PutAt at (digits n) out.old out.new result }
{
    if n < power(4) {
        return lay_rest(out, at, n, n, 4);
    }
    if n < power(10) {
        return lay_rest(out, at, n, n, 10);
    }
    lay_long(out, at, n)
}

// A number in decimal.
pub fn put_digits(out: &mut [u8], at: usize, n: u64) -> usize
    ensures { PutAt at (if_room at (digits n) out.old) out.old out.new result }
{
    if lacks_room(out.len(), at, 0, n) {
        return at;
    }
    lay_digits(out, at, n)
}

// A byte, and a number in decimal after it: one piece, so that neither is written without the other.
pub fn put_digits_after(out: &mut [u8], at: usize, byte: u8, n: u64) -> usize
    ensures { PutAt at (if_room at (byte ∷ digits n) out.old) out.old out.new result }
{
    if lacks_room(out.len(), at, 1, n) {
        return at;
    }
    out[at] = byte;
    lay_digits(out, at + 1, n)
}

// A literal in decimal: its size, after a minus if it is negative. The first digit of one that is not is laid over the minus, so that no branch goes by the sign, which could not be foretold.
pub fn put_literal(out: &mut [u8], at: usize, literal: i32) -> usize
    ensures { PutAt at (if_room at (signed_digits literal) out.old) out.old out.new result }
{
    let size = magnitude(literal);
    let before = sign_length(literal);
    if lacks_room(out.len(), at, before, size) {
        return at;
    }
    out[at] = b'-';
    lay_digits(out, at + before, size)
}
