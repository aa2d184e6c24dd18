// The prefix rule by a summary of the trees before on a level: the level after a leaf, an element that is no delimiter.
#![tactic(auto)]

ghost use Rattle.std.specs.Prelude.{◌≡◌, ◌<◌, ◌^◌, ℕ, Bool};
ghost use Rattle.rule.specs.Rule.{answer, comma, word_class, sign_class, element_class};
ghost use Rattle.rule.specs.Machinery.LevelCodes.{with, level_after_name, level_after};

use elements::Element;
use summaries::{
    AFTER_DOT, AFTER_HEAD_WORD, AFTER_OPERATOR, AFTER_OTHER, AFTER_RETURN, AFTER_SEPARATOR, ANSWER,
    BEFORE, Level, OBJECT, OPERAND, OPERAND_FUNCTION, OPERAND_FUNCTION_NAME, PROPERTY_DUE,
    STATEMENT_FUNCTION, STATEMENT_FUNCTION_NAME,
};

// The number of the last of the 48 signs, which are numbers as in `signs`.
const LAST_SIGN: u32 = 48;

// The level after a name.
#[tactic(auto, unfolding(rule::specs::Machinery::LevelCodes::level_after_name))]
fn after_name(level: Level) -> Level
    ensures { result.code ≡ level_after_name level.code }
{
    level.with_summary(match level.summary() {
        STATEMENT_FUNCTION => STATEMENT_FUNCTION_NAME,
        OPERAND_FUNCTION => OPERAND_FUNCTION_NAME,
        _ => OPERAND,
    })
}

// The summary after a reserved word but `function`.
#[tactic(auto, unfolding(rule::specs::Machinery::LevelCodes::level_after, vocabulary::specs::Vocabulary::row_at))]
fn summary_after(which: u32) -> u32
    ensures { (result < 64) × ((level : ℕ) (newline : Bool) → (which ≡ 18 → ⊥) → with level result ≡ level_after level (word_class which) newline) }
{
    match which {
        words::FOR | words::WHILE | words::WITH | words::IF => AFTER_HEAD_WORD,
        words::RETURN | words::THROW => AFTER_RETURN,
        words::NULL | words::THIS | words::TRUE | words::FALSE => OPERAND,
        words::NEW
        | words::CASE
        | words::DELETE
        | words::VOID
        | words::TYPEOF
        | words::IN
        | words::INSTANCEOF => AFTER_OPERATOR,
        _ => AFTER_OTHER,
    }
}

// The level after a reserved word.
#[tactic(auto, unfolding(rule::specs::Machinery::LevelCodes::level_after, vocabulary::specs::Vocabulary::row_at))]
fn after_word(level: Level, which: u32, newline: bool) -> Level
    ensures { result.code ≡ level_after level.code (word_class which) newline }
{
    match which {
        words::FUNCTION if level.brace_opens(newline) => level.with_summary(OPERAND_FUNCTION),
        words::FUNCTION => level.with_summary(STATEMENT_FUNCTION),
        _ => level.with_summary(summary_after(which)),
    }
}

// The level after a comma: outside an object it is like an operator.
#[tactic(auto, unfolding(rule::specs::Machinery::LevelCodes::level_after))]
fn after_comma(level: Level) -> Level
    ensures { (newline : Bool) → result.code ≡ level_after level.code comma newline }
{
    level.with_summary(if level.kind() == OBJECT {
        PROPERTY_DUE
    } else {
        AFTER_OPERATOR
    })
}

// The level after a `:` that answers a `?`.
#[tactic(auto, unfolding(rule::specs::Machinery::LevelCodes::level_after))]
fn after_answer(level: Level) -> Level
    ensures { (newline : Bool) → result.code ≡ level_after level.code answer newline }
{
    level.with_question_answered().with_summary(AFTER_OPERATOR)
}

// The level after a sign.
#[tactic(auto, unfolding(rule::specs::Machinery::LevelCodes::level_after, vocabulary::specs::Vocabulary::row_at))]
fn after_sign(level: Level, which: u32) -> Level
    requires { level.code < 2 ^ 31 }
    ensures { (newline : Bool) → result.code ≡ level_after level.code (sign_class which) newline }
{
    match which {
        signs::DOT => level.with_summary(AFTER_DOT),
        signs::SEMICOLON => level.without_questions().with_summary(AFTER_SEPARATOR),
        signs::COMMA => after_comma(level),
        signs::QUESTION => level.with_summary(AFTER_OPERATOR).with_question(),
        signs::COLON => level.with_summary(AFTER_SEPARATOR),
        signs::LESS..=LAST_SIGN => level.with_summary(AFTER_OPERATOR),
        _ => level.with_summary(AFTER_OTHER),
    }
}

// The level after an element that is no delimiter.
#[tactic(auto, unfolding(rule::specs::Machinery::LevelCodes::level_after, rule::specs::Rule::element_class))]
pub fn after_leaf(level: Level, e: Element) -> Level
    requires { level.code < 2 ^ 31 }
    ensures { result.code ≡ level_after level.code (element_class e) e.newline }
{
    match e.kind {
        elements::NAME => after_name(level),
        elements::WORD => after_word(level, e.which, e.newline),
        elements::SIGN => after_sign(level, e.which),
        BEFORE => level.with_summary(AFTER_OPERATOR),
        ANSWER => after_answer(level),
        _ => level.with_summary(OPERAND),
    }
}
