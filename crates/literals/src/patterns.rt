// Regular expressions: to a slash that stands outside classes and that no backslash takes, and the flags after it.
ghost use Rattle.std.specs.Prelude.{◌≡◌, false, drop};
ghost use Rattle.literals.specs.Patterns.{pattern_rest};

use answers::faults::Fault;
use text::Codes;

// The regular expression that the slash at `first` opens, from the byte after it on.
pub fn pattern_rest(codes: &Codes, text: &[u8], first: usize, from: usize) -> Result<usize, Fault>
    ensures { result ≡ pattern_rest first false false from (drop from text.now) }
{
    let mut class = false;
    let mut taken = false;
    let mut i = from;
    // The place goes by whole runs, so that no iterator over bytes gives it.
    while i < text.len() {
        let b = text[i];
        let code = codes.of(b);
        if text::TURNING < code {
            taken = false;
            i = runs::run_end(codes, text, i + 1, text::TURNING);
            continue;
        }
        if code == text::LINE_END {
            return Err(Fault::OpenPattern(first));
        }
        if code == text::ILLEGAL {
            return Err(Fault::Stray(i));
        }
        match b {
            _ if taken => taken = false,
            b'\\' => taken = true,
            b'[' => class = true,
            b']' => class = false,
            b'/' if !class => return Ok(runs::name_end(codes, text, i + 1)),
            _ => {}
        }
        i += 1;
    }
    Err(Fault::OpenPattern(first))
}
