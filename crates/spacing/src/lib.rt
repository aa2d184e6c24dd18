// Elements and closers written behind what is written so far, with what comes before them; and an output made zero. No `Writer` as in `writing`: what does not fit is
// counted here, since 15 comes after a full reading, and the count goes on by value with the state.
#![tactic(auto)]

ghost use Rattle.std.specs.Prelude.{◌≡◌, List, [], ◌∷◌, ◌++◌, ℕ, ◌+◌, ◌<◌, ◌≤◌, ◌^◌, length, replicate};
ghost use Rattle.spacing.specs.Respaced.{add_element, add_closer};
ghost use Rattle.spacing.specs.Machinery.Over.{over, Puts};

// Writes a byte behind what is written so far, if it fits; the next place is counted in any case. No `get_mut`: what is left in the output is not told by it.
pub fn put_byte(output: &mut [u8], at: usize, b: u8) -> usize
    requires { at < 2 ^ 32 }
    ensures { (result ≡ at + 1) × ((written old : List ℕ) → at ≡ length written → output.old ≡ over written old → output.new ≡ over (written ++ (b ∷ [])) old) }
{
    if at < output.len() {
        output[at] = b;
    }
    at + 1
}

// Writes bytes so.
pub fn put_bytes(output: &mut [u8], at: usize, bytes: &[u8]) -> usize
    requires { (at < 2 ^ 31) × (length bytes.now < 2 ^ 31) }
    ensures { (result ≡ at + length bytes.now) × ((written old : List ℕ) → at ≡ length written → output.old ≡ over written old → output.new ≡ over (written ++ bytes.now) old) }
{
    let mut to = at;
    for &b in bytes {
        to = put_byte(output, to, b);
    }
    to
}

// Writes what comes before an element that has a record, and its bytes.
pub fn put_element(
    text: &[u8],
    output: &mut [u8],
    at: usize,
    first: usize,
    end: usize,
    newline: bool,
) -> usize
    requires { (at + 1 < 2 ^ 31) × (first ≤ end) × (end ≤ length text.now) × (end < 2 ^ 31) }
    ensures { (result + first ≤ at + end + 1) × Puts (λ w. add_element text.now w first end newline) output.old output.new at result }
{
    let next = if newline {
        put_byte(output, at, b'\n')
    } else if at == 0 {
        at
    } else {
        put_byte(output, at, b' ')
    };
    put_bytes(output, next, &text[first..end])
}

// Writes a blank and a closer.
pub fn put_closer(text: &[u8], output: &mut [u8], at: usize, first: usize, end: usize) -> usize
    requires { (at + 1 < 2 ^ 31) × (first ≤ end) × (end ≤ length text.now) × (end < 2 ^ 31) }
    ensures { (result + first ≤ at + end + 1) × Puts (λ w. add_closer text.now w first end) output.old output.new at result }
{
    let next = put_byte(output, at, b' ');
    put_bytes(output, next, &text[first..end])
}

// Every byte of an output becomes 0. A function of its own, since a wrong program changes what it does.
pub fn clear(output: &mut [u8])
    ensures { output.new ≡ replicate (length output.old) 0 }
{
    output.fill(0);
}
