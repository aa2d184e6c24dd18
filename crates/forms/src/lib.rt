// Rows of the machine's table inside a form: operands, members, labels, heads of statements, items of lists, functions and their parameters.
// Rows of one shape say different things: one function for two would be told all that they say.
#![tactic(auto)]

ghost use Rattle.std.specs.Prelude.{◌≡◌, Bool, false, [], ◌∷◌, ◌≤◌, T};
ghost use Rattle.machine.specs.Tokens.{colon, open_paren};
ghost use Rattle.machine.specs.Scopes.{array_elements};
ghost use Rattle.machine.specs.Machinery.Machine.{item_due, property_named, name_first, if_first, on, goto, push, look, names, operand, member, item_row, row};
ghost use Rattle.controls.specs.Machinery.Numbers.{setting_by, items_by, ending_by, target_by, control_by, control_of, effect_by, closing_by, inside_by};
ghost use Rattle.machine.specs.Machinery.Classes.{is_opener, is_single};
ghost use Rattle.controls.specs.Machinery.Steps.{Due, takes_prefix, Leads, Spans, Means, Goes, Opens, Settled};
ghost use Rattle.forms.specs.Machinery.Places.{rows_at};

mod functions;
mod statements;

use controls::{Closing, Control, Effect, Ending, Place, Setting, Step, bindings};
use machine::tokens;

// Goes on to a place, with an effect.
pub fn goto(at: Control, place: Place, effect: Effect) -> Option<Step>
    ensures { Goes result (control_by place at.ending at.setting at.flag) effect }
{
    Some(Step::Goto(Control { place, ..at }, effect))
}

// Opens a group, behind which the machine stands at a place.
pub fn push(at: Control, place: Place, closing: Closing) -> Option<Step>
    ensures { Opens result (control_by place at.ending at.setting at.flag) closing }
{
    Some(Step::Push(Control { place, ..at }, closing))
}

// Where an operand is due, and may be assigned to or not: an operator before one, or what `member_row` takes. It is set into each of its
// callers, since a step that is handed over through memory is slow.
#[inline(always)]
pub fn operand_row(at: Control, class: u32) -> Option<Step>
    ensures { (from : Rattle.machine.specs.Machinery.Machine.Control) (due : Due from (ending_by at.ending at.setting) (target_by at.ending at.flag)) → T (takes_prefix due) → Means from class result (look class (operand (ending_by at.ending at.setting) (target_by at.ending at.flag))) }
{
    if class == tokens::NAME {
        return goto(at, Place::OperandDone, Effect::TakeLeaf);
    }
    if bindings::is_prefix(class) {
        let operand = Control { flag: false, ..at };
        return goto(operand, Place::OperandDue, Effect::TakePrefix);
    }
    member_row(at, class)
}

// Behind `new`, where no operator may come.
fn member_row(at: Control, class: u32) -> Option<Step>
    ensures { (from : Rattle.machine.specs.Machinery.Machine.Control) → Due from (ending_by at.ending at.setting) (target_by at.ending at.flag) → Means from class result (look class (member (ending_by at.ending at.setting) (target_by at.ending at.flag))) }
{
    if controls::is_leaf(class) {
        return goto(at, Place::OperandDone, Effect::TakeLeaf);
    }
    match class {
        tokens::OPEN_PAREN => push(at, Place::OperandDone, Closing::Parens),
        tokens::OPEN_BRACE => push(at, Place::OperandDone, Closing::Object),
        tokens::OPEN_BRACKET => push(at, Place::OperandDone, Closing::Array),
        tokens::FUNCTION => goto(at, Place::FunctionFirst, Effect::HoldWord),
        tokens::NEW => goto(at, Place::MemberDue, Effect::TakePrefix),
        _ => None,
    }
}

// One class goes on to a place, and no other.
fn only(at: Control, class: u32, one: u32, place: Place, effect: Effect) -> Option<Step>
    ensures { (from : Rattle.machine.specs.Machinery.Machine.Control) → T (is_single one) → Leads (effect_by effect one) from (control_by place at.ending at.setting at.flag) → Means from class result (look class (on one (goto (control_by place at.ending at.setting at.flag) (effect_by effect one)) ∷ [])) }
{
    if class == one {
        goto(at, place, effect)
    } else {
        None
    }
}

// A name goes on, and so does a reserved word that is taken as one; no other class does.
fn only_names(at: Control, class: u32, place: Place, effect: Effect) -> Option<Step>
    ensures { (from : Rattle.machine.specs.Machinery.Machine.Control) → Leads (effect_by effect class) from (control_by place at.ending at.setting at.flag) → Means from class result (look class (names (goto (control_by place at.ending at.setting at.flag) (effect_by effect class)) [])) }
{
    match class {
        tokens::NAME | tokens::WORD_NAME => goto(at, place, effect),
        _ => None,
    }
}

// One class opens a group, behind which the machine stands at a place, and no other does anything.
fn opens(at: Control, class: u32, one: u32, place: Place, closing: Closing) -> Option<Step>
    ensures { (from : Rattle.machine.specs.Machinery.Machine.Control) → T (is_opener one) → Spans (closing_by closing) from (control_by place at.ending at.setting at.flag) → Means from class result (look class (on one (push (inside_by closing) (control_by place at.ending at.setting at.flag) (closing_by closing)) ∷ [])) }
{
    if class == one {
        push(at, place, closing)
    } else {
        None
    }
}

// A head in parentheses.
fn head_row(at: Control, class: u32, place: Place, closing: Closing) -> Option<Step>
    ensures { (from : Rattle.machine.specs.Machinery.Machine.Control) → Spans (closing_by closing) from (control_by place at.ending at.setting at.flag) → Means from class result (look class (on open_paren (push (inside_by closing) (control_by place at.ending at.setting at.flag) (closing_by closing)) ∷ [])) }
{
    opens(at, class, tokens::OPEN_PAREN, place, closing)
}

// An element of an array, or the `,` of a hole.
fn element_row(at: Control, class: u32) -> Option<Step>
    ensures { Means (item_due array_elements) class result (look class (item_row array_elements)) }
{
    let element = Control {
        ending: Ending::Element,
        flag: true,
        ..at
    };
    match class {
        tokens::COMMA => goto(element, Place::ItemDue, Effect::Keep),
        _ => operand_row(element, class),
    }
}

// Where an item of a list is due.
fn item_row(at: Control, class: u32) -> Option<Step>
    ensures { Means (item_due (items_by at.ending)) class result (look class (item_row (items_by at.ending))) }
{
    match at.ending {
        Ending::Argument => operand_row(Control { flag: true, ..at }, class),
        Ending::Element => element_row(at, class),
        _ => only_names(at, class, Place::PropertyNamed, Effect::Keep),
    }
}

// The places inside a form whose next token is settled.
pub fn form_row(at: Control, class: u32) -> Option<Step>
    ensures { 1 ≤ rows_at at.place → Settled at class → (newline : Bool) → Means (control_of at) class result (look class (row (control_of at) newline)) }
{
    match at.place {
        Place::DotLast => only_names(at, class, Place::OperandDone, Effect::TakeMember),
        Place::NameFirst => label_row(at, class),
        Place::IfFirst => condition_row(at, class),
        Place::ItemDue => item_row(at, class),
        Place::MemberDue => member_row(at, class),
        Place::PropertyNamed => value_row(at, class),
        Place::StatementDone => {
            let other = Control {
                setting: Setting::ElseNest,
                flag: true,
                ..at
            };
            goto(other, Place::StatementDue, Effect::TakeElse)
        }
        Place::CatchDone => goto(at, Place::FinallyFirst, Effect::StartStatement),
        Place::TryEnded => None,
        _ => statements::word_form_row(at, class),
    }
}

// Behind a name that is a label.
fn label_row(at: Control, class: u32) -> Option<Step>
    ensures { class ≡ colon → (newline : Bool) → Means (name_first (setting_by at.setting)) class result (look class (row (name_first (setting_by at.setting)) newline)) }
{
    let statement = Control { flag: true, ..at };
    only(
        statement,
        class,
        tokens::COLON,
        Place::StatementDue,
        Effect::TakeLabel,
    )
}

// Behind `if`.
fn condition_row(at: Control, class: u32) -> Option<Step>
    ensures { Means if_first class result (look class (row if_first false)) }
{
    let statement = Control {
        setting: Setting::IfNest,
        flag: true,
        ..at
    };
    head_row(statement, class, Place::StatementDue, Closing::Condition)
}

// Behind the name of a property.
fn value_row(at: Control, class: u32) -> Option<Step>
    ensures { Means property_named class result (look class (row property_named false)) }
{
    let value = Control {
        ending: Ending::Property,
        flag: true,
        ..at
    };
    only(value, class, tokens::COLON, Place::OperandDue, Effect::Keep)
}
