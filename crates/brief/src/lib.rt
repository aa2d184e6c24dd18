// Groups that need no level: those that may be empty and are, and those that may hold one operand or parameter alone and do. More than a
// third of the groups of both measured scripts are such, and a call for their inside would take more time than what it does.
#![tactic(auto)]

ghost use Rattle.std.specs.Prelude.{◌≡◌, true, IfSome, List, T, ℕ};
ghost use Rattle.machine.specs.Tokens.{close_paren};
ghost use Rattle.machine.specs.Machinery.Classes.{is_end};
ghost use Rattle.controls.specs.Machinery.Numbers.{inside_by};
ghost use Rattle.segments.specs.Machinery.Segments.{Fine, segment};
ghost use Rattle.brief.specs.Machinery.Brief.{MayBeEmpty, HoldsOperand, Lone, FindsInside};

use controls::Closing;
use machine::tokens;
use segments::Segment;
use tables::TreeRecord;

// What is found inside a group: nothing that makes a record; one operand, of a class; or what may need a level. Three answers, which an
// option of an option would not name.
#[derive(Clone, Copy)]
pub enum Found {
    Nothing,
    Operand(u32),
    NeedsLevel,
}

// The closer of a group that may be empty.
fn empty_closer(closing: Closing) -> Option<u32>
    ensures { IfSome result (MayBeEmpty (inside_by closing)) }
{
    match closing {
        Closing::Call | Closing::Parameter => Some(tokens::CLOSE_PAREN),
        Closing::Array => Some(tokens::CLOSE_BRACKET),
        Closing::Object | Closing::Clauses => Some(tokens::CLOSE_BRACE),
        Closing::Block | Closing::Declaration | Closing::Function => Some(tokens::CLOSE_BRACE),
        _ => None,
    }
}

// The parentheses that may hold one operand alone.
fn parens_hold(closing: Closing) -> bool
    ensures { result ≡ true → HoldsOperand (inside_by closing) close_paren }
{
    matches!(
        closing,
        Closing::Parens | Closing::Call | Closing::Condition | Closing::Head | Closing::Test
    )
}

// Whether one operand alone may stand in a group before its closer. The closer is told first: that took fewer instructions than one look
// by what the group is.
fn holds_operand(closing: Closing, closer: u32) -> bool
    ensures { result ≡ true → HoldsOperand (inside_by closing) closer }
{
    if closer == tokens::CLOSE_PAREN {
        return parens_hold(closing);
    }
    closer == tokens::CLOSE_BRACKET && matches!(closing, Closing::Array | Closing::Index)
}

// The one record inside a group, by its class as an operand: the only parameter, or an operand.
fn alone(leaf: Option<u32>, closer: u32, closing: Closing) -> Found
    ensures { Lone leaf closer closing result }
{
    let Some(class) = leaf else {
        return Found::NeedsLevel;
    };
    if holds_operand(closing, closer) {
        return Found::Operand(class);
    }
    if matches!(closing, Closing::Parameter)
        && closer == tokens::CLOSE_PAREN
        && class == tokens::NAME
    {
        return Found::Nothing;
    }
    Found::NeedsLevel
}

// What stands inside a group, before its closer. The records tell it, whatever text they are of.
pub fn look_inside(part: Segment, closer: u32, closing: Closing) -> Found
    ensures { (text : List ℕ) (base close : ℕ) → Fine (segment text part.entry.trees.now base close) → T (is_end closer) → FindsInside closer (segment text part.entry.trees.now base close) (inside_by closing) result }
{
    if part.trees.len() == TreeRecord::WIDTH {
        return alone(part.leaf_at(0), closer, closing);
    }
    if part.trees.is_empty() && empty_closer(closing) == Some(closer) {
        return Found::Nothing;
    }
    Found::NeedsLevel
}
