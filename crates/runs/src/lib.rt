// Runs of bytes of one class, and two texts compared byte for byte.
#![tactic(auto)]

ghost use Rattle.std.specs.Prelude.{◌≡◌, ◌+◌, drop};
ghost use Rattle.text.specs.Bytes.{digit, name_byte};
ghost use Rattle.text.specs.Machinery.Codes.{code_over};
ghost use Rattle.text.specs.Runs.{run, same};

use text::Codes;

// Whether two slices hold the same bytes: a function of its own, since its clause ties `==` to the definition's `same`.
pub fn equal(a: &[u8], b: &[u8]) -> bool
    ensures { result ≡ same a.now b.now }
{
    a == b
}

// The end of the run from `from` of bytes whose code is over a limit, byte by byte. No `position` over a slice: `from` may lie past the text's end.
fn short_run_end(codes: &Codes, text: &[u8], from: usize, limit: u8) -> usize
    ensures { result ≡ from + run (code_over limit) (drop from text.now) }
{
    for i in from..text.len() {
        if codes.of(text[i]) <= limit {
            return i;
        }
    }
    from.max(text.len())
}

// The same, with four bytes for each look at the text's end: names, comments and strings are long enough to gain by it. So the place goes
// by four, and stands between two turns where no iterator over bytes or chunks is.
pub fn run_end(codes: &Codes, text: &[u8], from: usize, limit: u8) -> usize
    ensures { result ≡ from + run (code_over limit) (drop from text.now) }
{
    let mut i = from;
    if 3 < text.len() {
        let tail = text.len() - 3;
        while i < tail {
            if codes.of(text[i]) <= limit {
                return i;
            }
            if codes.of(text[i + 1]) <= limit {
                return i + 1;
            }
            if codes.of(text[i + 2]) <= limit {
                return i + 2;
            }
            if codes.of(text[i + 3]) <= limit {
                return i + 3;
            }
            i += 4;
        }
    }
    short_run_end(codes, text, i, limit)
}

// The end of the run of name bytes from `from`.
pub fn name_end(codes: &Codes, text: &[u8], from: usize) -> usize
    ensures { result ≡ from + run name_byte (drop from text.now) }
{
    run_end(codes, text, from, text::BLANK)
}

// The end of the run of digits from `from`.
pub fn digits_end(codes: &Codes, text: &[u8], from: usize) -> usize
    ensures { result ≡ from + run digit (drop from text.now) }
{
    run_end(codes, text, from, text::LETTER)
}
