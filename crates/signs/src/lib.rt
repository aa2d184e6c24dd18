// The 48 signs of ES5.1 section 7.7: the longest that stands at a place of a text.
#![tactic(auto)]

ghost use Rattle.std.specs.Prelude.{◌≡◌, List, ◌∷◌, ℕ, ◌<◌, ◌≤◌, drop, get_or, length, IfSome};
ghost use Rattle.signs.specs.Signs.{longest_sign, found};
ghost use Rattle.signs.specs.Machinery.Rows.{order, table, first_of, goes_on};

// The numbers of the signs of one byte: their places among the 48, from 1. Numbers, and no enum: an element's `which` holds them, and the definitions
// (`longest_sign`) give them.
pub const OPEN_BRACE: u32 = 1;

pub const CLOSE_BRACE: u32 = 2;

pub const OPEN_PAREN: u32 = 3;

pub const CLOSE_PAREN: u32 = 4;

pub const OPEN_BRACKET: u32 = 5;

pub const CLOSE_BRACKET: u32 = 6;

pub const DOT: u32 = 7;

pub const SEMICOLON: u32 = 8;

pub const COMMA: u32 = 9;

pub const LESS: u32 = 10;

pub const GREATER: u32 = 11;

pub const PLUS: u32 = 18;

pub const MINUS: u32 = 19;

pub const MULTIPLY: u32 = 20;

pub const REMAINDER: u32 = 21;

pub const BIT_AND: u32 = 27;

pub const BIT_OR: u32 = 28;

pub const BIT_XOR: u32 = 29;

pub const NEGATION: u32 = 30;

pub const COMPLEMENT: u32 = 31;

pub const QUESTION: u32 = 34;

pub const COLON: u32 = 35;

pub const ASSIGN: u32 = 36;

pub const SLASH: u32 = 47;

// A row of the table: the bytes of a sign, and 0 for the others of the four; its length; its number. Bytes with a length beside, and no slice: the table is one constant, which
// is copied where it is used, as the rules ask for a constant table of the signs.
#[derive(Clone, Copy)]
struct Entry {
    bytes: [u8; 4],
    len: u8,
    number: u8,
}

// The table of the 48 signs, a row for each. Signs with the same first byte stand together, the longest first, so that the first of them that a text starts with is the
// longest.
#[rattlefmt::skip]
const SIGNS: [Entry; 48] = [
    Entry { bytes: [b'{', 0, 0, 0], len: 1, number: 1 },
    Entry { bytes: [b'}', 0, 0, 0], len: 1, number: 2 },
    Entry { bytes: [b'(', 0, 0, 0], len: 1, number: 3 },
    Entry { bytes: [b')', 0, 0, 0], len: 1, number: 4 },
    Entry { bytes: [b'[', 0, 0, 0], len: 1, number: 5 },
    Entry { bytes: [b']', 0, 0, 0], len: 1, number: 6 },
    Entry { bytes: [b'.', 0, 0, 0], len: 1, number: 7 },
    Entry { bytes: [b';', 0, 0, 0], len: 1, number: 8 },
    Entry { bytes: [b',', 0, 0, 0], len: 1, number: 9 },
    Entry { bytes: [b'~', 0, 0, 0], len: 1, number: 31 },
    Entry { bytes: [b'?', 0, 0, 0], len: 1, number: 34 },
    Entry { bytes: [b':', 0, 0, 0], len: 1, number: 35 },
    Entry { bytes: [b'<', b'<', b'=', 0], len: 3, number: 41 },
    Entry { bytes: [b'<', b'=', 0, 0], len: 2, number: 12 },
    Entry { bytes: [b'<', b'<', 0, 0], len: 2, number: 24 },
    Entry { bytes: [b'<', 0, 0, 0], len: 1, number: 10 },
    Entry { bytes: [b'>', b'>', b'>', b'='], len: 4, number: 43 },
    Entry { bytes: [b'>', b'>', b'>', 0], len: 3, number: 26 },
    Entry { bytes: [b'>', b'>', b'=', 0], len: 3, number: 42 },
    Entry { bytes: [b'>', b'=', 0, 0], len: 2, number: 13 },
    Entry { bytes: [b'>', b'>', 0, 0], len: 2, number: 25 },
    Entry { bytes: [b'>', 0, 0, 0], len: 1, number: 11 },
    Entry { bytes: [b'+', b'+', 0, 0], len: 2, number: 22 },
    Entry { bytes: [b'+', b'=', 0, 0], len: 2, number: 37 },
    Entry { bytes: [b'+', 0, 0, 0], len: 1, number: 18 },
    Entry { bytes: [b'-', b'-', 0, 0], len: 2, number: 23 },
    Entry { bytes: [b'-', b'=', 0, 0], len: 2, number: 38 },
    Entry { bytes: [b'-', 0, 0, 0], len: 1, number: 19 },
    Entry { bytes: [b'*', b'=', 0, 0], len: 2, number: 39 },
    Entry { bytes: [b'*', 0, 0, 0], len: 1, number: 20 },
    Entry { bytes: [b'%', b'=', 0, 0], len: 2, number: 40 },
    Entry { bytes: [b'%', 0, 0, 0], len: 1, number: 21 },
    Entry { bytes: [b'&', b'&', 0, 0], len: 2, number: 32 },
    Entry { bytes: [b'&', b'=', 0, 0], len: 2, number: 44 },
    Entry { bytes: [b'&', 0, 0, 0], len: 1, number: 27 },
    Entry { bytes: [b'|', b'|', 0, 0], len: 2, number: 33 },
    Entry { bytes: [b'|', b'=', 0, 0], len: 2, number: 45 },
    Entry { bytes: [b'|', 0, 0, 0], len: 1, number: 28 },
    Entry { bytes: [b'^', b'=', 0, 0], len: 2, number: 46 },
    Entry { bytes: [b'^', 0, 0, 0], len: 1, number: 29 },
    Entry { bytes: [b'!', b'=', b'=', 0], len: 3, number: 17 },
    Entry { bytes: [b'!', b'=', 0, 0], len: 2, number: 15 },
    Entry { bytes: [b'!', 0, 0, 0], len: 1, number: 30 },
    Entry { bytes: [b'=', b'=', b'=', 0], len: 3, number: 16 },
    Entry { bytes: [b'=', b'=', 0, 0], len: 2, number: 14 },
    Entry { bytes: [b'=', 0, 0, 0], len: 1, number: 36 },
    Entry { bytes: [b'/', b'=', 0, 0], len: 2, number: 48 },
    Entry { bytes: [b'/', 0, 0, 0], len: 1, number: 47 },
];

// A sign that stands at a place: its number, and how many bytes it has.
#[derive(Clone, Copy)]
pub struct Sign {
    pub number: u32,
    pub len: usize,
}

// The first of the table's signs, from its row `from` on, that a text starts with.
fn scan(signs: &[Entry], text: &[u8], from: usize) -> Option<Sign>
    requires { (signs.now ≡ table) × (from ≤ 48) }
    ensures { result ≡ first_of text.now (drop from order) }
{
    for row in &signs[from..] {
        let len = usize::from(row.len);
        if text.starts_with(&row.bytes[..len]) {
            return Some(Sign {
                number: u32::from(row.number),
                len,
            });
        }
    }
    None
}

// The row at which the signs that start with `b` begin.
#[tactic(auto, unfolding(crate::specs::Machinery::Rows::first_of, text::specs::Runs::same, vocabulary::specs::Vocabulary::row_at))]
fn first_row(b: u8) -> usize
    ensures { (result ≤ 48) × ((t : List ℕ) → first_of (b ∷ t) (drop result order) ≡ first_of (b ∷ t) order) }
{
    match b {
        b'<' => 12,
        b'>' => 16,
        b'+' => 22,
        b'-' => 25,
        b'*' => 28,
        b'%' => 30,
        b'&' => 32,
        b'|' => 35,
        b'^' => 38,
        b'!' => 40,
        b'=' => 43,
        b'/' => 46,
        _ => 0,
    }
}

// The longest sign that a text starts with, by the table.
fn by_table(text: &[u8]) -> Option<Sign>
    requires { 0 < length text.now }
    ensures { result ≡ longest_sign text.now }
{
    scan(&SIGNS, text, first_row(text[0]))
}

// The number of the sign that the byte `b` is where no other sign starts with it.
fn lone(b: u8) -> Option<u32>
    ensures { IfSome result (λ number. (t : List ℕ) → longest_sign (b ∷ t) ≡ found number 1) }
{
    match b {
        b'(' => Some(OPEN_PAREN),
        b')' => Some(CLOSE_PAREN),
        b'{' => Some(OPEN_BRACE),
        b'}' => Some(CLOSE_BRACE),
        b';' => Some(SEMICOLON),
        b'.' => Some(DOT),
        b',' => Some(COMMA),
        b':' => Some(COLON),
        b'[' => Some(OPEN_BRACKET),
        b']' => Some(CLOSE_BRACKET),
        b'?' => Some(QUESTION),
        b'~' => Some(COMPLEMENT),
        _ => None,
    }
}

// Whether some sign goes on with the byte `next` behind its first.
fn goes_on(next: u8) -> bool
    ensures { result ≡ goes_on next }
{
    matches!(next, b'<' | b'=' | b'>' | b'+' | b'-' | b'&' | b'|')
}

// The number of the sign that the byte `b` is where no sign goes on with the byte `next` behind it; where there is none, the table decides.
#[tactic(auto, using(crate::proofs::Singles::longest_single), unfolding(crate::specs::Signs::longest_sign, crate::specs::Signs::longest_of, text::specs::Runs::same))]
fn single(b: u8, next: u8) -> Option<u32>
    ensures { IfSome result (λ number. (t : List ℕ) → get_or t 0 0 ≡ next → longest_sign (b ∷ t) ≡ found number 1) }
{
    match b {
        _ if goes_on(next) => None,
        b'<' => Some(LESS),
        b'>' => Some(GREATER),
        b'+' => Some(PLUS),
        b'-' => Some(MINUS),
        b'*' => Some(MULTIPLY),
        b'%' => Some(REMAINDER),
        b'&' => Some(BIT_AND),
        b'|' => Some(BIT_OR),
        b'^' => Some(BIT_XOR),
        b'!' => Some(NEGATION),
        b'=' => Some(ASSIGN),
        b'/' => Some(SLASH),
        _ => None,
    }
}

// The longest sign at a place; none past the text's end.
pub fn sign_at(text: &[u8], at: usize) -> Option<Sign>
    ensures { result ≡ longest_sign (drop at text.now) }
{
    let b = *text.get(at)?;
    if let Some(number) = lone(b) {
        return Some(Sign { number, len: 1 });
    }
    // 0 past the text's end: no sign goes on with it.
    let next = text.get(at + 1).copied().unwrap_or(0);
    if let Some(number) = single(b, next) {
        return Some(Sign { number, len: 1 });
    }
    by_table(&text[at..])
}
