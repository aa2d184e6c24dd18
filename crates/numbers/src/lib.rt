// Numbers, as in ES5.1 section 7.8.3. Each part is asked for its end; where there is none, that is the place where it would start, since
// its length is 0 then by the definitions, and the next part is looked for there. That a place lies
// in the text is asked where that matters, as in `elements`.
#![tactic(auto)]

ghost use Rattle.std.specs.Prelude.{◌≡◌, cond, ◌||◌, ◌+◌, ◌<◌, eqb, length, drop};
ghost use Rattle.text.specs.Bytes.{digit};
ghost use Rattle.text.specs.Runs.{run};
ghost use Rattle.numbers.specs.Numbers.{hex_digit, hex_length, integer_length, fraction_length, exponent_length, decimal_length, number_length, number_from};

use answers::faults::Fault;
use text::Codes;

fn is_either(b: u8, x: u8, y: u8) -> bool
    ensures { result ≡ (eqb b x || eqb b y) }
{
    b == x || b == y
}

// No `position` over a slice: `from` may lie past the text's end.
fn hex_digits_end(text: &[u8], from: usize) -> usize
    ensures { result ≡ from + run hex_digit (drop from text.now) }
{
    for i in from..text.len() {
        if !text[i].is_ascii_hexdigit() {
            return i;
        }
    }
    from.max(text.len())
}

// A hexadecimal number: `0x` or `0X`, and digits.
fn hex_end(text: &[u8], at: usize) -> usize
    requires { at < length text.now }
    ensures { result ≡ at + hex_length (drop at text.now) }
{
    if text[at] != b'0' {
        return at;
    }
    if text.len() <= at + 1 {
        return at;
    }
    if !is_either(text[at + 1], b'x', b'X') {
        return at;
    }
    let end = hex_digits_end(text, at + 2);
    if end == at + 2 { at } else { end }
}

// `0`, or digits not starting with 0.
fn integer_end(codes: &Codes, text: &[u8], at: usize) -> usize
    requires { at < length text.now }
    ensures { result ≡ at + integer_length (drop at text.now) }
{
    if text[at] == b'0' {
        return at + 1;
    }
    runs::digits_end(codes, text, at)
}

// A dot, and digits, possibly none.
fn fraction_end(codes: &Codes, text: &[u8], at: usize) -> usize
    ensures { result ≡ at + fraction_length (drop at text.now) }
{
    if text.len() <= at {
        return at;
    }
    if text[at] != b'.' {
        return at;
    }
    runs::digits_end(codes, text, at + 1)
}

// The end of the digits from `digits` on; `start` if there are none.
fn digits_or(codes: &Codes, text: &[u8], start: usize, digits: usize) -> usize
    ensures { result ≡ cond (eqb (run digit (drop digits text.now)) 0) start (digits + run digit (drop digits text.now)) }
{
    let end = runs::digits_end(codes, text, digits);
    if end == digits { start } else { end }
}

// `e` or `E`, a plus or minus or neither, and digits.
fn exponent_end(codes: &Codes, text: &[u8], at: usize) -> usize
    ensures { result ≡ at + exponent_length (drop at text.now) }
{
    if text.len() <= at {
        return at;
    }
    if !is_either(text[at], b'e', b'E') {
        return at;
    }
    if text.len() <= at + 1 {
        return at;
    }
    if is_either(text[at + 1], b'+', b'-') {
        return digits_or(codes, text, at, at + 2);
    }
    digits_or(codes, text, at, at + 1)
}

fn decimal_end(codes: &Codes, text: &[u8], at: usize) -> usize
    requires { at < length text.now }
    ensures { result ≡ at + decimal_length (drop at text.now) }
{
    let whole = integer_end(codes, text, at);
    let fraction = fraction_end(codes, text, whole);
    exponent_end(codes, text, fraction)
}

fn number_end(codes: &Codes, text: &[u8], at: usize) -> usize
    requires { at < length text.now }
    ensures { result ≡ at + number_length (drop at text.now) }
{
    let end = hex_end(text, at);
    if end != at {
        return end;
    }
    decimal_end(codes, text, at)
}

// The number that starts at `first`.
pub fn number_at(codes: &Codes, text: &[u8], first: usize) -> Result<usize, Fault>
    ensures { result ≡ number_from first (drop first text.now) }
{
    if text.len() <= first {
        return Ok(first);
    }
    let end = number_end(codes, text, first);
    if end < text.len() && text::BLANK < codes.of(text[end]) {
        return Err(Fault::BadNumber(first));
    }
    Ok(end)
}
