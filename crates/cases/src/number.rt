// A number in decimal, with a blank after it.
// `as` from `u32` to `usize` and back, or to a narrower type: std has no `From` there, and the check proves that nothing is lost.

ghost use Rattle.std.specs.Prelude.{◌<◌, length, IfSome};

// A larger number is a bad case.
const LARGEST: usize = 1000000;

// The number at the start of a line, and what stands behind its blank.
pub fn number_at(line: &[u8]) -> Option<(usize, &[u8])>
    ensures { IfSome result (λ r. length r.1.now < length line.now) }
{
    let blank = line.iter().position(|b| *b == b' ')?;
    if blank == 0 {
        return None;
    }
    let value = value_of(&line[..blank])?;
    Some((value, &line[blank + 1..]))
}

fn value_of(digits: &[u8]) -> Option<usize> {
    digits.iter().try_fold(0usize, |value, b| {
        let digit = char::from(*b).to_digit(10)?;
        let more = value.checked_mul(10)?.checked_add(digit as usize)?;
        (more <= LARGEST).then_some(more)
    })
}
