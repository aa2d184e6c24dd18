// The 36 reserved words of ES5.1 section 7.6.1, held as one run of their letters with their lengths, and compared byte for byte with a name.
// `as` from `u32` to `usize` and back, or to a narrower type: std has no `From` there, and the check proves that nothing is lost.
#![tactic(auto)]

ghost use Rattle.std.specs.Prelude.{◌≡◌, true, List, ℕ, ◌+◌, ◌*◌, ◌≤◌, ◌<◌, T, length, get_or, IfSome, Some};
ghost use Rattle.text.specs.Runs.{same};
ghost use Rattle.words.specs.Words.{word_number, taken};
ghost use Rattle.words.specs.Machinery.Run.{word, word_letters, word_lengths, letters_before, admits, slot_of, option_of};

// The numbers of the words that the prefix rule tells apart. Numbers, and no enum: an element's `which` holds them, and the definition (`word_number`) gives them.
pub const INSTANCEOF: u32 = 3;

pub const TYPEOF: u32 = 4;

pub const CASE: u32 = 5;

pub const NEW: u32 = 7;

pub const RETURN: u32 = 11;

pub const VOID: u32 = 12;

pub const FOR: u32 = 14;

pub const WHILE: u32 = 16;

pub const FUNCTION: u32 = 18;

pub const THIS: u32 = 19;

pub const WITH: u32 = 20;

pub const IF: u32 = 22;

pub const THROW: u32 = 23;

pub const DELETE: u32 = 24;

pub const IN: u32 = 25;

pub const NULL: u32 = 34;

pub const TRUE: u32 = 35;

pub const FALSE: u32 = 36;

// The letters of the words in the order of their numbers, with nothing between two words: the rules ask for one run of letters with their lengths.
const LETTERS: [u8; 181] = *b"\
    breakdoinstanceoftypeofcaseelsenewvarcatchfinallyreturnvoid\
    continueforswitchwhiledebuggerfunctionthiswithdefaultifthrowdelete\
    intryclassenumextendssuperconstexportimportnulltruefalse";

// How many of them each word has.
#[rattlefmt::skip]
const LENGTHS: [u8; 36] = [
    5, 2, 10, 6, 4, 4, 3, 3, 5, 7, 6, 4,
    8, 3, 6, 5, 8, 8, 4, 4, 7, 2, 5, 6,
    2, 3, 5, 4, 7, 5, 5, 6, 6, 4, 4, 5,
];

// The numbers of the words, each at its slot; 0 where no word has the slot: an `Option` would take two bytes, of a table that is copied where it is used.
#[rattlefmt::skip]
const NUMBERS: [u8; 64] = [
    31, 35, 0, 28, 0, 22, 13, 24, 36, 21, 1, 17, 8, 30, 19, 0,
    23, 0, 0, 0, 0, 0, 0, 0, 0, 0, 0, 0, 0, 5, 11, 9,
    0, 25, 0, 20, 0, 14, 15, 0, 10, 0, 0, 0, 6, 0, 0, 12,
    34, 3, 2, 0, 18, 4, 7, 0, 0, 16, 32, 0, 29, 27, 33, 26,
];

// What the words of a length start with: a bit for each first letter, at its code modulo 64, and one for each second letter, at its code modulo 32.
// Those of first letters are in the upper half, those of second letters in the lower half. This and `before_fourth` are tables, of one shape alone.
fn initials(len: usize) -> u64
    ensures { ((name : List ℕ) → (word_number name ≡ 0 → ⊥) → length name ≡ len → T (admits result name)) × ((result ≡ 0 → ⊥) → len ≤ 10) }
{
    match len {
        2 => 0x210_0000c040,
        3 => 0x504040_00048022,
        4 => 0xd04028_0024d302,
        5 => 0x98004c_00249102,
        6 => 0x1c0230_03802020,
        7 => 0x70_01000220,
        8 => 0x58_00208020,
        10 => 0x200_00004000,
        _ => 0,
    }
}

// Whether a word of the name's length may start with its first two letters: most names that are no words are turned away here, before the run is
// looked at. Others, some with capitals among them, may pass.
fn may_be_word(name: &[u8]) -> bool
    ensures { ((word_number name.now ≡ 0 → ⊥) → result ≡ true) × (result ≡ true → (2 ≤ length name.now) × (length name.now ≤ 10)) }
{
    let [first, second, ..] = name else {
        return false;
    };
    let initials = initials(name.len());
    initials >> (first % 64) & 1 == 1 && initials >> (second % 32) & 1 == 1
}

// A name's slot, by its length and first two letters. The factors were found by trial: no two words share a slot.
fn slot(len: usize, first: u8, second: u8) -> usize
    requires { len ≤ 10 }
    ensures { result ≡ slot_of len first second }
{
    (4 * len + 113 * usize::from(first) + 87 * usize::from(second)) / 2 % 64
}

// The number of the word that has a slot.
fn at_slot(numbers: &[u8], slot: usize) -> Option<usize>
    requires { slot < length numbers.now }
    ensures { result ≡ option_of (get_or numbers.now slot 0) }
{
    match numbers[slot] {
        0 => None,
        number => Some(usize::from(number)),
    }
}

// The only number that a name can have as a word.
fn candidate(name: &[u8]) -> Option<usize>
    requires { (2 ≤ length name.now) × (length name.now ≤ 10) }
    ensures some { IfSome result (λ number. (1 ≤ number) × (number ≤ 36)) }
    ensures own { (word_number name.now ≡ 0 → ⊥) → result ≡ Some (word_number name.now) }
{
    at_slot(&NUMBERS, slot(name.len(), name[0], name[1]))
}

// How many letters stand before each fourth word, from the first on: before the word at the index 4 * `fours`.
#[tactic(auto, unfolding(crate::specs::Machinery::Run::letters_before, crate::specs::Machinery::Run::word_lengths))]
fn before_fourth(fours: usize) -> u8
    requires { fours < 9 }
    ensures { result ≡ letters_before (4 * fours) }
{
    match fours {
        1 => 23,
        2 => 37,
        3 => 59,
        4 => 81,
        5 => 105,
        6 => 125,
        7 => 139,
        8 => 162,
        _ => 0,
    }
}

// How many letters stand before the word at an index, from 0.
fn start(lengths: &[u8], index: usize) -> usize
    requires { (lengths.now ≡ word_lengths) × (index < 36) }
    ensures { result ≡ letters_before index }
{
    let mut at = usize::from(before_fourth(index / 4));
    for len in &lengths[4 * (index / 4)..index] {
        at += usize::from(*len);
    }
    at
}

// Whether a name is the word at an index of the run.
fn stands_at(letters: &[u8], lengths: &[u8], index: usize, name: &[u8]) -> bool
    requires { (letters.now ≡ word_letters) × (lengths.now ≡ word_lengths) × (index < 36) }
    ensures { result ≡ same name.now (word (index + 1)) }
{
    let at = start(lengths, index);
    let len = usize::from(lengths[index]);
    runs::equal(name, &letters[at..at + len])
}

// Whether a name is the word of a number.
fn is_word(name: &[u8], number: usize) -> bool
    requires { (1 ≤ number) × (number ≤ 36) }
    ensures { result ≡ same name.now (word number) }
{
    stands_at(&LETTERS, &LENGTHS, number - 1, name)
}

// The number of the reserved word that a name is: its place among the 36, from 1; 0 where it is none of them, as an element's `which` and the definition have it.
pub fn word_number(name: &[u8]) -> u32
    ensures { result ≡ word_number name.now }
{
    if !may_be_word(name) {
        return 0;
    }
    match candidate(name) {
        Some(number) if is_word(name, number) => number as u32,
        _ => 0,
    }
}

// The first of the seven future reserved words, which are not taken here; a number as those above. Next behind them is `null`.
const CLASS: u32 = 27;

// Whether the word of a number is taken here.
pub fn is_taken(number: u32) -> bool
    ensures { result ≡ taken number }
{
    matches!(number, 1..CLASS | NULL..=FALSE)
}
