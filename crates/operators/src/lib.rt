// The rows of the token machine's table behind an operand: operators, `,`, `;`, `:`, what makes a chain longer, and where these lead. They
// are named after those of machine/specs/Machinery/Machine.antt, as the others are (`rows`).
#![tactic(auto)]

ghost use Rattle.std.specs.Prelude.{◌≡◌, Bool, not, cond, ◌&&◌, eqb, ◌≤◌, ◌<◌};
ghost use Rattle.machine.specs.Tokens.{in_word, semicolon, comma, colon};
ghost use Rattle.machine.specs.Operators.{assignment_operators, postfix_operators, is_among};
ghost use Rattle.machine.specs.Machinery.Machine.{no_target, some_target, behind_variables, later_variables, behind_statement, variable_due, operand_due, operand_done, postfix_done, by_object, look, ending_row, after_unary, after_operand, row};
ghost use Rattle.controls.specs.declared.Effect.TheVariants.{TakeOperator, EndValue, EndVariable};
ghost use Rattle.controls.specs.Machinery.Numbers.{setting_by, variables_by, ending_by, is_lone, target_by};
ghost use Rattle.controls.specs.Machinery.Steps.{Ended, Goes, Means};

use controls::{
    Closing, Control, Effect, Ending, Nest, Place, Setting, Step, behind_statement, bindings,
    past_start,
};
use forms::{goto, push};
use machine::tokens;

// Ends a statement.
pub fn end_statement(setting: Setting, effect: Effect) -> Option<Step>
    ensures { Goes result (behind_statement (setting_by setting)) effect }
{
    Some(Step::Goto(behind_statement(setting), effect))
}

// Behind an operator between two operands one is due that may not be assigned to.
fn behind_operator(at: Control) -> Option<Step>
    ensures { Goes result (operand_due (ending_by at.ending at.setting) no_target) TakeOperator }
{
    let operand = Control { flag: false, ..at };
    goto(operand, Place::OperandDue, Effect::TakeOperator)
}

// Behind an assignment or a `,` one is due that may, but it is not all of the start of a `for`'s head.
fn behind_assignment(at: Control) -> Option<Step>
    ensures { Goes result (operand_due (ending_by at.ending at.setting) some_target) TakeOperator }
{
    let operand = Control {
        ending: past_start(at.ending),
        flag: true,
        ..at
    };
    goto(operand, Place::OperandDue, Effect::TakeOperator)
}

// `;` behind the last of variables.
pub fn variables_end(at: Control) -> Option<Step>
    ensures { Goes result (behind_variables (variables_by at.ending at.setting)) EndValue }
{
    match at.ending {
        Ending::FirstVariable | Ending::LaterVariable => goto(at, Place::TestDue, Effect::EndValue),
        _ => end_statement(at.setting, Effect::EndValue),
    }
}

// Behind the `,` of a variable a later one is due.
pub fn next_variable(at: Control) -> Option<Step>
    ensures { Goes result (variable_due (later_variables (variables_by at.ending at.setting))) EndVariable }
{
    match at.ending {
        Ending::FirstVariable => {
            let later = Control {
                ending: Ending::LaterVariable,
                ..at
            };
            goto(later, Place::VariableDue, Effect::EndVariable)
        }
        _ => goto(at, Place::VariableDue, Effect::EndVariable),
    }
}

// The `in` of a `for`.
pub fn in_row(at: Control) -> Option<Step>
    ensures { Goes result (operand_due by_object some_target) EndValue }
{
    let object = Control {
        ending: Ending::Object,
        flag: true,
        ..at
    };
    goto(object, Place::OperandDue, Effect::EndValue)
}

// `;` behind an expression.
fn semicolon_row(at: Control) -> Option<Step>
    ensures { (from : Rattle.machine.specs.Machinery.Machine.Control) → Ended from (ending_by at.ending at.setting) → Means from semicolon result (look semicolon (ending_row (ending_by at.ending at.setting))) }
{
    match at.ending {
        Ending::Statement => end_statement(at.setting, Effect::EndExpression),
        Ending::Return => end_statement(at.setting, Effect::EndValue),
        Ending::Variable | Ending::FirstVariable | Ending::LaterVariable => variables_end(at),
        Ending::LoneStart | Ending::Start => goto(at, Place::TestDue, Effect::EndValue),
        Ending::Test => goto(at, Place::StepDue, Effect::EndValue),
        _ => None,
    }
}

// `,` behind an expression: an item of a list or a variable ends, and behind an argument another must come; elsewhere it is an operator,
// but not in the middle of a conditional.
fn comma_row(at: Control) -> Option<Step>
    ensures { (from : Rattle.machine.specs.Machinery.Machine.Control) → Ended from (ending_by at.ending at.setting) → Means from comma result (look comma (ending_row (ending_by at.ending at.setting))) }
{
    match at.ending {
        Ending::Argument => {
            let argument = Control { flag: true, ..at };
            goto(argument, Place::OperandDue, Effect::EndValue)
        }
        Ending::Element | Ending::Property => goto(at, Place::ItemDue, Effect::EndValue),
        Ending::Variable | Ending::FirstVariable | Ending::LaterVariable => next_variable(at),
        Ending::Colon => None,
        _ => behind_assignment(at),
    }
}

// `:` behind an expression: it answers a `?`, or the statements of a `case` follow.
fn colon_row(at: Control) -> Option<Step>
    ensures { (from : Rattle.machine.specs.Machinery.Machine.Control) → Ended from (ending_by at.ending at.setting) → Means from colon result (look colon (ending_row (ending_by at.ending at.setting))) }
{
    match at.ending {
        Ending::Colon => Some(Step::Turn),
        Ending::Case => Some(Step::Enter(Nest::Clause, Setting::Body)),
        Ending::LastCase => Some(Step::Enter(Nest::LastClause, Setting::Body)),
        _ => None,
    }
}

// `in` behind an expression: an operator, but not before the first `;` of a `for`'s head, where it may stand behind one variable.
fn in_operator_row(at: Control) -> Option<Step>
    ensures { (from : Rattle.machine.specs.Machinery.Machine.Control) → Ended from (ending_by at.ending at.setting) → Means from in_word result (look in_word (after_unary (ending_by at.ending at.setting))) }
{
    match at.ending {
        Ending::FirstVariable => in_row(at),
        Ending::LaterVariable | Ending::LoneStart | Ending::Start => None,
        _ => behind_operator(at),
    }
}

// Behind a whole Unary, an operator or `?`.
fn binary_row(at: Control, class: u32) -> Option<Step>
    ensures { class < comma → (from : Rattle.machine.specs.Machinery.Machine.Control) → Ended from (ending_by at.ending at.setting) → Means from class result (look class (after_unary (ending_by at.ending at.setting))) }
{
    match class {
        tokens::IN => in_operator_row(at),
        tokens::QUESTION => Some(Step::Ask),
        _ if bindings::is_binary(class) => behind_operator(at),
        _ => None,
    }
}

// A chain that may be assigned to takes an assignment.
fn takes_assignment(class: u32, target: bool, chain: bool) -> bool
    ensures { result ≡ (chain && (target && is_among assignment_operators class)) }
{
    chain && target && bindings::is_assignment(class)
}

// One that is all there is so far may stand before the `in` of a `for`.
fn takes_in(class: u32, ending: Ending, target: bool, chain: bool) -> bool
    ensures { result ≡ (chain && (target && (eqb class in_word && is_lone ending))) }
{
    chain && target && class == tokens::IN && matches!(ending, Ending::LoneStart)
}

// `++` and `--` want no line end before them.
fn takes_postfix(class: u32, newline: bool, chain: bool) -> bool
    ensures { result ≡ (chain && (not newline && is_among postfix_operators class)) }
{
    chain && !newline && bindings::is_postfix(class)
}

// Operators behind an operand.
fn operation_row(at: Control, class: u32, newline: bool, chain: bool) -> Option<Step>
    ensures { class < comma → Means (cond chain (operand_done (ending_by at.ending at.setting) (target_by at.ending at.flag)) (postfix_done (ending_by at.ending at.setting))) class result (look class (row (cond chain (operand_done (ending_by at.ending at.setting) (target_by at.ending at.flag)) (postfix_done (ending_by at.ending at.setting))) newline)) }
{
    if takes_assignment(class, at.flag, chain) {
        return behind_assignment(at);
    }
    if takes_in(class, at.ending, at.flag, chain) {
        return in_row(at);
    }
    if takes_postfix(class, newline, chain) {
        return goto(at, Place::PostfixDone, Effect::TakePostfix);
    }
    binary_row(at, class)
}

// What makes a chain longer.
fn link_row(at: Control, class: u32) -> Option<Step>
    ensures { comma < class → (class ≡ semicolon → ⊥) → (class ≡ colon → ⊥) → (newline : Bool) → Means (operand_done (ending_by at.ending at.setting) (target_by at.ending at.flag)) class result (look class (after_operand (ending_by at.ending at.setting) (target_by at.ending at.flag) newline)) }
{
    match class {
        tokens::DOT => goto(at, Place::DotLast, Effect::Keep),
        tokens::OPEN_PAREN => push(at, Place::OperandDone, Closing::Call),
        tokens::OPEN_BRACKET => push(at, Place::OperandDone, Closing::Index),
        _ => None,
    }
}

// `,` and the signs behind an operand.
fn sign_row(at: Control, class: u32, chain: bool) -> Option<Step>
    ensures { comma ≤ class → (newline : Bool) → Means (cond chain (operand_done (ending_by at.ending at.setting) (target_by at.ending at.flag)) (postfix_done (ending_by at.ending at.setting))) class result (look class (row (cond chain (operand_done (ending_by at.ending at.setting) (target_by at.ending at.flag)) (postfix_done (ending_by at.ending at.setting))) newline)) }
{
    match class {
        tokens::SEMICOLON => semicolon_row(at),
        tokens::COMMA => comma_row(at),
        tokens::COLON => colon_row(at),
        _ if chain => link_row(at, class),
        _ => None,
    }
}

// Behind an operand: a chain, or behind `++` or `--` a Unary that is none. Both are one row, so that each row beneath has one call: the
// compiler sets in what has one, and a step that is handed over through memory is slow.
pub fn operator_row(at: Control, class: u32, newline: bool, chain: bool) -> Option<Step>
    ensures { Means (cond chain (operand_done (ending_by at.ending at.setting) (target_by at.ending at.flag)) (postfix_done (ending_by at.ending at.setting))) class result (look class (row (cond chain (operand_done (ending_by at.ending at.setting) (target_by at.ending at.flag)) (postfix_done (ending_by at.ending at.setting))) newline)) }
{
    // No operator has a class from that of `,` on, but `,` itself.
    if class < tokens::COMMA {
        operation_row(at, class, newline, chain)
    } else {
        sign_row(at, class, chain)
    }
}
