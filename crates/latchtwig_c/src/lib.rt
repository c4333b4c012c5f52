// The calls of `latchtwig` by the C calling convention, for callers in other languages. host/latchtwig.h declares them for C, host/rust for Rust.
#![tactic(auto)]

ghost use Rattle.std.specs.Prelude.{◌≡◌};
ghost use Rattle.latchtwig.specs.Outcomes.{outcome, number_told, place_told, Checks};

// The number of the refusal that the text comes to, or 0 if it is read to its end.
#[unsafe(no_mangle)]
pub extern "C" fn latchtwig_refusal(format: u32, mode: u32, text: &[u8]) -> u32
    ensures { result ≡ number_told (outcome format mode text.now) }
{
    latchtwig::latchtwig_refusal(format, mode, text)
}

// The place of the refusal that the text comes to, or the text's length if it is read to its end.
#[unsafe(no_mangle)]
pub extern "C" fn latchtwig_place(format: u32, mode: u32, text: &[u8]) -> u64
    ensures { result ≡ place_told text.now (outcome format mode text.now) }
{
    latchtwig::latchtwig_place(format, mode, text)
}

// That number, which is answered and left in the array, and after it there the refusal's place, line and column. Of a text read to its end the place is its length, and line and column are 0.
#[unsafe(no_mangle)]
pub extern "C" fn latchtwig_check(format: u32, mode: u32, text: &[u8], answer: &mut [u64; 4]) -> u32
    ensures { Checks text.now (outcome format mode text.now) answer.new result }
{
    latchtwig::latchtwig_check(format, mode, text, answer)
}
