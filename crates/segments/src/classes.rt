// The class of a record: its kind tells it, and of a word or sign its length and its first and last bytes. What no token is has the class
// 0, as in `look_up` of the definitions: the machine's table is asked with the number, and an option would be turned into it at once.
// Tables of one shape say different things.
ghost use Rattle.std.specs.Prelude.{◌≡◌, cond, eqb};
ghost use Rattle.text.specs.Quoted.{byte};
ghost use Rattle.machine.specs.Tokens.{default_word, finally_word};
ghost use Rattle.segments.specs.Machinery.Segments.{low_singles, high_singles, assigned, doubled, compared, two_letters, three_letters, five_letters, six_letters, eight_letters, look_up, four_by, single_by, pair_by, triple_by, sign_by, word_by, kind_by, is_spelled};

use machine::tokens;

// A sign of one byte up to `?`, where they stand so close that the compiler makes a table of them.
fn low_class(b: u8) -> u32
    ensures { result ≡ look_up low_singles b }
{
    match b {
        b'!' => tokens::NEGATION,
        b'%' => tokens::REMAINDER,
        b'&' => tokens::BIT_AND,
        b'*' => tokens::MULTIPLY,
        b'+' => tokens::PLUS,
        b',' => tokens::COMMA,
        b'-' => tokens::MINUS,
        b'.' => tokens::DOT,
        b'/' => tokens::DIVIDE,
        b':' => tokens::COLON,
        b';' => tokens::SEMICOLON,
        b'<' => tokens::LESS,
        b'=' => tokens::ASSIGN,
        b'>' => tokens::GREATER,
        b'?' => tokens::QUESTION,
        _ => 0,
    }
}

// One above it.
fn high_class(b: u8) -> u32
    ensures { result ≡ look_up high_singles b }
{
    match b {
        b'^' => tokens::BIT_XOR,
        b'|' => tokens::BIT_OR,
        b'~' => tokens::COMPLEMENT,
        _ => 0,
    }
}

// A sign of one byte.
pub fn single_class(b: u8) -> u32
    ensures { result ≡ single_by b }
{
    if b'?' < b {
        return high_class(b);
    }
    low_class(b)
}

// A sign of two bytes that ends with `=`.
fn assigned_class(b: u8) -> u32
    ensures { result ≡ look_up assigned b }
{
    match b {
        b'=' => tokens::EQUAL,
        b'!' => tokens::UNEQUAL,
        b'<' => tokens::AT_MOST,
        b'>' => tokens::AT_LEAST,
        b'+' => tokens::PLUS_ASSIGN,
        b'-' => tokens::MINUS_ASSIGN,
        b'*' => tokens::MULTIPLY_ASSIGN,
        b'/' => tokens::DIVIDE_ASSIGN,
        b'%' => tokens::REMAINDER_ASSIGN,
        b'&' => tokens::AND_ASSIGN,
        b'|' => tokens::OR_ASSIGN,
        b'^' => tokens::XOR_ASSIGN,
        _ => 0,
    }
}

// A sign of two bytes that are the same, but `==`.
fn doubled_class(b: u8) -> u32
    ensures { result ≡ look_up doubled b }
{
    match b {
        b'&' => tokens::LOGICAL_AND,
        b'|' => tokens::LOGICAL_OR,
        b'+' => tokens::INCREMENT,
        b'-' => tokens::DECREMENT,
        b'<' => tokens::LEFT_SHIFT,
        b'>' => tokens::RIGHT_SHIFT,
        _ => 0,
    }
}

fn pair_class(b: u8, last: u8) -> u32
    ensures { result ≡ pair_by b last }
{
    if last == b'=' {
        return assigned_class(b);
    }
    doubled_class(b)
}

// A sign of three bytes that ends with `=`.
fn compared_class(b: u8) -> u32
    ensures { result ≡ look_up compared b }
{
    match b {
        b'=' => tokens::IDENTICAL,
        b'!' => tokens::UNIDENTICAL,
        b'<' => tokens::LEFT_SHIFT_ASSIGN,
        b'>' => tokens::RIGHT_SHIFT_ASSIGN,
        _ => 0,
    }
}

fn triple_class(b: u8, last: u8) -> u32
    ensures { result ≡ triple_by b last }
{
    if last == b'=' {
        return compared_class(b);
    }
    tokens::UNSIGNED_SHIFT
}

// The class of a sign that has not one byte, by its length and its first and last bytes.
#[tactic(auto, unfolding(crate::specs::Machinery::Segments::sign_by))]
pub fn longer_class(len: usize, b: u8, last: u8) -> u32
    requires { len ≡ 1 → ⊥ }
    ensures { result ≡ sign_by len b last }
{
    if len == 2 {
        return pair_class(b, last);
    }
    if len == 3 {
        return triple_class(b, last);
    }
    tokens::UNSIGNED_SHIFT_ASSIGN
}

// Words of two letters by the last, and of three, five, six and eight by the first.
fn two_class(last: u8) -> u32
    ensures { result ≡ look_up two_letters last }
{
    match last {
        b'o' => tokens::DO,
        b'f' => tokens::IF,
        b'n' => tokens::IN,
        _ => 0,
    }
}

fn three_class(b: u8) -> u32
    ensures { result ≡ look_up three_letters b }
{
    match b {
        b'n' => tokens::NEW,
        b'v' => tokens::VAR,
        b'f' => tokens::FOR,
        b't' => tokens::TRY,
        _ => 0,
    }
}

fn five_class(b: u8) -> u32
    ensures { result ≡ look_up five_letters b }
{
    match b {
        b'b' => tokens::BREAK,
        b'c' => tokens::CATCH,
        b'f' => tokens::FALSE,
        b't' => tokens::THROW,
        b'w' => tokens::WHILE,
        _ => 0,
    }
}

fn six_class(b: u8) -> u32
    ensures { result ≡ look_up six_letters b }
{
    match b {
        b'r' => tokens::RETURN,
        b't' => tokens::TYPEOF,
        b'd' => tokens::DELETE,
        b's' => tokens::SWITCH,
        _ => 0,
    }
}

fn eight_class(b: u8) -> u32
    ensures { result ≡ look_up eight_letters b }
{
    match b {
        b'f' => tokens::FUNCTION,
        b'c' => tokens::CONTINUE,
        b'd' => tokens::DEBUGGER,
        _ => 0,
    }
}

// Words of four letters: `this` and `true` start alike.
fn four_class(b: u8, last: u8) -> u32
    ensures { result ≡ four_by b last }
{
    match b {
        b't' => {
            if last == b's' {
                return tokens::THIS;
            }
            tokens::TRUE
        }
        b'c' => tokens::CASE,
        b'e' => tokens::ELSE,
        b'n' => tokens::NULL,
        b'v' => tokens::VOID,
        b'w' => tokens::WITH,
        _ => 0,
    }
}

// Words of seven letters.
fn seven_class(b: u8) -> u32
    ensures { result ≡ cond (eqb b (byte "d")) default_word finally_word }
{
    if b == b'd' {
        return tokens::DEFAULT;
    }
    tokens::FINALLY
}

// The class of a reserved word that is taken, by its length and its first and last bytes.
#[tactic(auto, unfolding(crate::specs::Machinery::Segments::word_by))]
pub fn word_class(len: usize, b: u8, last: u8) -> u32
    ensures { result ≡ word_by len b last }
{
    match len {
        8 => eight_class(b),
        6 => six_class(b),
        4 => four_class(b, last),
        2 => two_class(last),
        3 => three_class(b),
        5 => five_class(b),
        10 => tokens::INSTANCEOF,
        7 => seven_class(b),
        _ => 0,
    }
}

// Whether a record of a kind is a sign that its bytes tell.
pub fn is_spelled(kind: u32) -> bool
    ensures { result ≡ is_spelled kind }
{
    matches!(kind, elements::SIGN | prefix::BEFORE | prefix::AFTER)
}

// The class that a kind alone tells; 0 for that of words and of signs.
#[tactic(auto, unfolding(crate::specs::Machinery::Segments::kind_by))]
pub fn kind_class(kind: u32) -> u32
    ensures { result ≡ kind_by kind }
{
    match kind {
        elements::NAME => tokens::NAME,
        elements::NUMBER => tokens::NUMBER,
        elements::STRING => tokens::STRING,
        elements::PATTERN => tokens::PATTERN,
        prefix::PARENS => tokens::OPEN_PAREN,
        prefix::OBJECT => tokens::OPEN_BRACE,
        prefix::BLOCK => tokens::OPEN_BRACE,
        prefix::BRACKETS => tokens::OPEN_BRACKET,
        prefix::ANSWER => tokens::COLON,
        _ => 0,
    }
}
