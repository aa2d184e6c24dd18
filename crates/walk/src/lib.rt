// A walk over one text: it keeps that text and gives the next element at each call. A caller that keeps the text and the
// place itself takes one turn at a time, by `turn_at` and `lexeme_of`.
#![tactic(auto)]

ghost use Rattle.std.specs.Prelude.{◌≡◌};
ghost use Rattle.elements.specs.Lexemes.{lexeme_of};
ghost use Rattle.walk.specs.Walks.{place_after, begun, met, moved, turn_at};

use answers::faults::Fault;
use elements::{Element, Stated};

// The text, and the place from which the next element is looked for.
#[derive(Clone, Copy)]
pub struct Walk<'a> {
    pub text: &'a [u8],
    pub at: usize,
}

// One turn of a walk: what it met, and the place where it stands then.
#[derive(Clone, Copy)]
pub struct Turn {
    pub next: Result<Option<Element>, Fault>,
    pub at: usize,
}

// The place of a walk that stood at `at`, once it has met `next`.
fn place_after(at: usize, next: Result<Option<Element>, Fault>) -> usize
    ensures { result ≡ place_after at next }
{
    match next {
        Ok(Some(e)) => e.end,
        Ok(None) | Err(_) => at,
    }
}

// The part of a text that an element is; of an element of another text, as far as this one goes.
pub fn lexeme_of(text: &[u8], e: Element) -> &[u8]
    ensures { result.now ≡ lexeme_of text.now e }
{
    let end = e.end.min(text.len());
    let first = e.first.min(end);
    &text[first..end]
}

impl<'a> Walk<'a> {
    // A walk that stands at the text's start.
    pub fn new(text: &'a [u8]) -> Walk<'a>
        ensures { result ≡ begun text.entry }
    {
        Walk { text, at: 0 }
    }

    // The next element, under stated answers. The walk then stands behind it; at the text's end and at a fault it stays
    // where it is. No `Iterator`: what is next depends on what is stated, turn by turn.
    pub fn next(&mut self, stated: Stated) -> Result<Option<Element>, Fault>
        ensures { (result ≡ met self.old stated) × (self.new ≡ moved self.old result) }
    {
        let next = elements::element_at(self.text, self.at, stated);
        self.at = place_after(self.at, next);
        next
    }

    // The part of the walk's text that an element is.
    pub fn lexeme(self, e: Element) -> &'a [u8]
        ensures { result.now ≡ lexeme_of self.entry.text.now e }
    {
        lexeme_of(self.text, e)
    }
}

// One turn of a walk over `text` that stands at `at`.
pub fn turn_at(text: &[u8], at: usize, stated: Stated) -> Turn
    ensures { result ≡ turn_at text.now at stated }
{
    let mut walk = Walk { text, at };
    let next = walk.next(stated);
    Turn { next, at: walk.at }
}
