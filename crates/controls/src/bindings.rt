// Operators: how tight they bind, where they may stand, and the kinds of their parts, by ranges of their classes.
ghost use Rattle.std.specs.Prelude.{◌≡◌, ◌≤◌};
ghost use Rattle.machine.specs.Operators.{precedence, assignment_operators, binary_operators, prefix_operators, postfix_operators, prefix_kind, postfix_kind, is_among};
ghost use Rattle.machine.specs.Machinery.Machine.{threshold, tightness};

use crate::records;
use machine::tokens;

// How tight an operator between two operands binds; 0 for a class that is none, as the table of words and signs (`precedence`) has it.
pub fn precedence(class: u32) -> u32
    ensures { result ≡ precedence class }
{
    match class {
        tokens::DIVIDE | tokens::MULTIPLY | tokens::REMAINDER => 12,
        tokens::PLUS | tokens::MINUS => 11,
        tokens::LEFT_SHIFT..=tokens::UNSIGNED_SHIFT => 10,
        tokens::LESS..=tokens::IN => 9,
        tokens::EQUAL..=tokens::UNIDENTICAL => 8,
        // `&`, `^`, `|`, `&&` and `||` have a precedence each.
        tokens::BIT_AND..=tokens::LOGICAL_OR => tokens::LOGICAL_OR + 3 - class,
        tokens::ASSIGN | tokens::MULTIPLY_ASSIGN..=tokens::OR_ASSIGN => 2,
        tokens::COMMA => 1,
        _ => 0,
    }
}

// How tight a pending operator must bind to be closed by one of a class.
pub fn threshold(class: u32) -> u32
    ensures { result ≡ threshold class }
{
    if is_assignment(class) {
        return 3;
    }
    precedence(class)
}

// How tight what waits binds.
pub fn tightness(kind: u32) -> u32
    ensures { result ≡ tightness kind }
{
    match kind {
        tokens::NEW => 14,
        tokens::DELETE..=tokens::NEGATION => 13,
        tokens::QUESTION => 2,
        _ => precedence(kind),
    }
}

pub fn is_assignment(class: u32) -> bool
    ensures { result ≡ is_among assignment_operators class }
{
    matches!(
        class,
        tokens::ASSIGN | tokens::MULTIPLY_ASSIGN..=tokens::OR_ASSIGN
    )
}

// From `||` up.
pub fn is_binary(class: u32) -> bool
    ensures { result ≡ is_among binary_operators class }
{
    matches!(
        class,
        tokens::DIVIDE | tokens::PLUS | tokens::MULTIPLY..=tokens::LOGICAL_OR
    )
}

pub fn is_prefix(class: u32) -> bool
    ensures { result ≡ is_among prefix_operators class }
{
    matches!(
        class,
        tokens::PLUS
            | tokens::MINUS
            | tokens::DELETE..=tokens::DECREMENT
            | tokens::COMPLEMENT..=tokens::NEGATION
    )
}

pub fn is_postfix(class: u32) -> bool
    ensures { result ≡ is_among postfix_operators class }
{
    matches!(class, tokens::INCREMENT | tokens::DECREMENT)
}

// The kind of the part that an operator before its operand makes, or `new`: a table, as `start_kind` is of what starts with a token.
pub fn prefix_kind(class: u32) -> u32
    ensures { result ≡ prefix_kind class }
{
    match class {
        tokens::PLUS => records::POSITIVE,
        tokens::MINUS => records::NEGATIVE,
        _ => class,
    }
}

// That of one after it.
pub fn postfix_kind(class: u32) -> u32
    ensures { result ≡ postfix_kind class }
{
    match class {
        tokens::INCREMENT => records::INCREMENTED,
        _ => records::DECREMENTED,
    }
}
