// The cases, one to a line: a letter, a blank, and the text up to the line end. The letter says what is stated of each
// element. `d`: a slash met divides, `p`: it opens a regular expression, and a reserved word is a word. `n` and `m` are `d`
// and `p` where a reserved word is a name. `D`, `P`, `N` and `M` are the same of every prefix of the text, from the empty
// one on; `e` and `r` are `d` and `p` with each element shown as its part of the text. `spelling.rt` of `cases` says how
// the text is spelled.
use cases::{CaseError, spelling};
use elements::Stated;
use std::alloc::Global;

// The most bytes of a text: a longer one is a bad case.
const MOST_CUT: usize = 256;

// What is shown of a text: its elements, those of every prefix, or each element's part of the text.
#[derive(Clone, Copy)]
pub enum Shown {
    Elements,
    Prefixes,
    Parts,
}

#[derive(Clone, Copy)]
pub struct Case {
    pub shown: Shown,
    pub stated: Stated,
}

// The case of a line, and its text.
pub fn case_of(alloc: Global, line: &[u8]) -> Result<(Case, Vec<u8>), CaseError> {
    let [letter, b' ', spelled @ ..] = line else {
        return Err(CaseError::Bad);
    };
    let (shown, stated) = asked(*letter).ok_or(CaseError::Bad)?;
    let text = spelling::text_of(alloc, spelled)?;
    if text.len() > MOST_CUT {
        return Err(CaseError::Bad);
    }
    Ok((Case { shown, stated }, text))
}

fn asked(letter: u8) -> Option<(Shown, Stated)> {
    let shown = match letter {
        b'd' | b'p' | b'n' | b'm' => Shown::Elements,
        b'D' | b'P' | b'N' | b'M' => Shown::Prefixes,
        b'e' | b'r' => Shown::Parts,
        _ => return None,
    };
    let pattern = matches!(letter, b'p' | b'm' | b'P' | b'M' | b'r');
    let name = matches!(letter, b'n' | b'm' | b'N' | b'M');
    Some((shown, Stated { pattern, name }))
}
