// The cutting of a text into elements: the element at a place under stated answers. That a place lies in the text is asked where that matters: a struct of text and place would
// be made anew for each element.
#![tactic(auto)]

ghost use Rattle.std.specs.Prelude.{◌≡◌, ◌&&◌, ◌||◌, ◌+◌, ◌<◌, eqb, length, drop, get_or};
ghost use Rattle.text.specs.Bytes.{digit};
ghost use Rattle.text.specs.Machinery.Codes.{code_of};
ghost use Rattle.numbers.specs.Numbers.{number_from};
ghost use Rattle.elements.specs.Elements.{element, number_kind, literal_element, named, delimiter, sign_or_stray, element_from, Finds};
ghost use Rattle.signs.specs.Signs.{longest_sign};

use answers::faults::Fault;
use literals::{patterns, strings};
use text::Codes;

// The kinds of elements, as document 01 numbers those of its tree records. A delimiter's group has a kind of its own. Numbers, and no enum: the
// tables that are lent from C hold them, and the definitions of elements give them.
pub const DELIMITER: u32 = 0;

pub const NAME: u32 = 1;

pub const WORD: u32 = 2;

pub const NUMBER: u32 = 3;

pub const STRING: u32 = 4;

pub const PATTERN: u32 = 5;

pub const SIGN: u32 = 6;

// An element: its kind; which reserved word, sign or delimiter it is, by its number, else 0; its first byte; the byte
// after its last; whether a line end lies between it and the place from which it was looked for. `which` is 0 and no option where there is none, as `element` of the
// definitions makes it.
#[derive(Clone, Copy)]
pub struct Element {
    pub kind: u32,
    pub which: u32,
    pub first: usize,
    pub end: usize,
    pub newline: bool,
}

// What is stated of the place where an element is looked for: whether a slash met there opens a regular expression, and
// whether a reserved word met there is a name.
#[derive(Clone, Copy)]
pub struct Stated {
    pub pattern: bool,
    pub name: bool,
}

// An element, as what is next.
fn found(
    kind: u32,
    which: u32,
    first: usize,
    end: usize,
    newline: bool,
) -> Result<Option<Element>, Fault>
    ensures { result ≡ element kind which newline first end }
{
    Ok(Some(Element {
        kind,
        which,
        first,
        end,
        newline,
    }))
}

// A literal that was cut, as an element.
fn literal_element(
    kind: u32,
    first: usize,
    newline: bool,
    cut: Result<usize, Fault>,
) -> Result<Option<Element>, Fault>
    ensures { result ≡ literal_element kind newline first cut }
{
    found(kind, 0, first, cut?, newline)
}

// The number at `first`.
fn number_element(
    codes: &Codes,
    text: &[u8],
    first: usize,
    newline: bool,
) -> Result<Option<Element>, Fault>
    ensures { result ≡ literal_element number_kind newline first (number_from first (drop first text.now)) }
{
    literal_element(
        NUMBER,
        first,
        newline,
        numbers::number_at(codes, text, first),
    )
}

// The name or reserved word at `first`, where reserved words are names or not.
fn name_element(
    codes: &Codes,
    text: &[u8],
    first: usize,
    newline: bool,
    as_name: bool,
) -> Result<Option<Element>, Fault>
    requires { first < length text.now }
    ensures { result ≡ named as_name newline first (drop first text.now) }
{
    let end = runs::name_end(codes, text, first);
    let which = words::word_number(&text[first..end]);
    if which == 0 || as_name {
        return found(NAME, which, first, end, newline);
    }
    if words::is_taken(which) {
        return found(WORD, which, first, end, newline);
    }
    Err(Fault::BarredWord(first))
}

// Whether the sign of a number is a delimiter.
fn is_delimiter(sign: u32) -> bool
    ensures { result ≡ delimiter sign }
{
    matches!(
        sign,
        signs::OPEN_BRACE
            | signs::CLOSE_BRACE
            | signs::OPEN_PAREN
            | signs::CLOSE_PAREN
            | signs::OPEN_BRACKET
            | signs::CLOSE_BRACKET
    )
}

// The sign or delimiter at `first`.
fn sign_element(text: &[u8], first: usize, newline: bool) -> Result<Option<Element>, Fault>
    requires { first < length text.now }
    ensures { result ≡ sign_or_stray newline first (longest_sign (drop first text.now)) }
{
    let Some(sign) = signs::sign_at(text, first) else {
        return Err(Fault::Stray(first));
    };
    let kind = if is_delimiter(sign.number) {
        DELIMITER
    } else {
        SIGN
    };
    found(kind, sign.number, first, first + sign.len, newline)
}

// The byte behind a place; 0 past the text's end, as `get_or` of the definition has it. With a test that asks the text there, and no byte past its end, reading the stored
// script took 58,000 instructions more, 1.43 times the yardstick's in place of 1.40.
fn byte_after(text: &[u8], at: usize) -> u8
    requires { at < length text.now }
    ensures { result ≡ get_or text.now (at + 1) 0 }
{
    if at + 1 < text.len() { text[at + 1] } else { 0 }
}

// Whether the byte `b` at a place is a dot directly before a digit.
fn is_dot_before_digit(codes: &Codes, text: &[u8], b: u8, at: usize) -> bool
    requires { at < length text.now }
    ensures { result ≡ (eqb b 46 && digit (get_or text.now (at + 1) 0)) }
{
    b == b'.' && codes.of(byte_after(text, at)) == text::DIGIT
}

// Whether a number starts with the byte `b` of a code at a place. One test for both forms: a scanner with two callers is not set into the reading loop.
fn starts_number(codes: &Codes, text: &[u8], code: u8, b: u8, at: usize) -> bool
    requires { (at < length text.now) × (code ≡ code_of b) }
    ensures { result ≡ (digit b || (eqb b 46 && digit (get_or text.now (at + 1) 0))) }
{
    code == text::DIGIT || is_dot_before_digit(codes, text, b, at)
}

// The element at `first`, where no blank, line end or comment starts.
fn element_from(
    codes: &Codes,
    text: &[u8],
    first: usize,
    newline: bool,
    stated: Stated,
) -> Result<Option<Element>, Fault>
    ensures { result ≡ element_from stated newline first (drop first text.now) }
{
    if text.len() <= first {
        return Ok(None);
    }
    let b = text[first];
    let code = codes.of(b);
    if code == text::LETTER {
        return name_element(codes, text, first, newline, stated.name);
    }
    if starts_number(codes, text, code, b, first) {
        return number_element(codes, text, first, newline);
    }
    if strings::is_quote(b) {
        return literal_element(
            STRING,
            first,
            newline,
            strings::string_rest(codes, text, b, first, first + 1),
        );
    }
    if stated.pattern && b == b'/' {
        return literal_element(
            PATTERN,
            first,
            newline,
            patterns::pattern_rest(codes, text, first, first + 1),
        );
    }
    sign_element(text, first, newline)
}

// The next element of a text from a place on, under stated answers, by a table of codes that is lent.
pub fn element_by(
    codes: &Codes,
    text: &[u8],
    place: usize,
    stated: Stated,
) -> Result<Option<Element>, Fault>
    ensures { Finds text.now place stated result }
{
    let gap = gaps::gap_from(codes, text, place)?;
    element_from(codes, text, gap.end, gap.newline, stated)
}

// The next element of a text from a place on, under stated answers. A place at or past the text's end has none.
pub fn element_at(text: &[u8], place: usize, stated: Stated) -> Result<Option<Element>, Fault>
    ensures { Finds text.now place stated result }
{
    let codes = Codes::new();
    element_by(&codes, text, place, stated)
}
