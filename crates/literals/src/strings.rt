// Strings: from a quote to the same quote.
ghost use Rattle.std.specs.Prelude.{◌≡◌, true, false, drop};
ghost use Rattle.literals.specs.Strings.{quote, string_rest};

use answers::faults::Fault;
use text::Codes;

#[tactic(auto, unfolding(crate::specs::Strings::quote))]
pub fn is_quote(b: u8) -> bool
    ensures { result ≡ quote b }
{
    b == b'\'' || b == b'"'
}

// The string that the quote `q` at `first` opens, from the byte after it on.
pub fn string_rest(
    codes: &Codes,
    text: &[u8],
    q: u8,
    first: usize,
    from: usize,
) -> Result<usize, Fault>
    requires { quote q ≡ true }
    ensures { result ≡ string_rest q first false from (drop from text.now) }
{
    let mut taken = false;
    let mut i = from;
    // The place goes by whole runs, so that no iterator over bytes gives it.
    while i < text.len() {
        let b = text[i];
        let code = codes.of(b);
        if text::TURNING < code {
            taken = false;
            i = runs::run_end(codes, text, i + 1, text::TURNING);
            continue;
        }
        if code == text::LINE_END {
            return Err(Fault::OpenString(first));
        }
        if code == text::ILLEGAL {
            return Err(Fault::Stray(i));
        }
        if taken {
            taken = false;
        } else if b == q {
            return Ok(i + 1);
        } else {
            taken = b == b'\\';
        }
        i += 1;
    }
    Err(Fault::OpenString(first))
}
