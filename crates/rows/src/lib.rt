// The token machine's table as code: what a token of a class does where the machine stands. Rows are named after those of
// machine/specs/Machinery/Machine.antt, so that the two can be laid side by side.
#![tactic(auto)]

ghost use Rattle.std.specs.Prelude.{◌≡◌, Bool, true, false, ◌&&◌, [], ◌∷◌};
ghost use Rattle.machine.specs.Tokens.{in_word, semicolon, var_word, function_word};
ghost use Rattle.machine.specs.Machinery.Machine.{behind_statement, statement_due, jump_first, variable_named, some_target, by_variable, end_value, on, goto, word_row, look, no_statement, row};
ghost use Rattle.controls.specs.declared.Setting.{Setting};
ghost use Rattle.controls.specs.declared.Setting.TheVariants.{Clause};
ghost use Rattle.controls.specs.declared.Place.TheVariants.{StatementDue, ClauseStatement};
ghost use Rattle.controls.specs.Machinery.Numbers.{setting_by, variables_by, ending_by, target_by, must_by, control_of};
ghost use Rattle.controls.specs.Machinery.Steps.{Leads, Means, Settled};
ghost use Rattle.forms.specs.Machinery.Places.{IsDue, bars_line, due_ending};

use controls::{Closing, Control, Effect, Ending, Nest, Place, Setting, Step, behind_statement};
use forms::{form_row, goto, operand_row};
use machine::tokens;
use operators::{end_statement, in_row, next_variable, operator_row, variables_end};

// `function` where a statement is due: a declaration, in a body where none must come.
fn declaration_row(at: Control) -> Option<Step>
    ensures { (must' : Bool) → look function_word (no_statement must' (setting_by at.setting)) ≡ look function_word (no_statement (must_by at.flag at.setting) (setting_by at.setting)) → Means (statement_due must' (setting_by at.setting)) function_word result (look function_word (no_statement must' (setting_by at.setting))) }
{
    if at.flag {
        return None;
    }
    match at.setting {
        Setting::Body => goto(at, Place::DeclaredFirst, Effect::HoldWord),
        _ => None,
    }
}

// Where a statement is due, or another may come and no token ends the statements there.
fn statement_row(at: Control, class: u32) -> Option<Step>
    ensures { (must' newline : Bool) → look class (no_statement must' (setting_by at.setting)) ≡ look class (no_statement (must_by at.flag at.setting) (setting_by at.setting)) → Means (statement_due must' (setting_by at.setting)) class result (look class (row (statement_due must' (setting_by at.setting)) newline)) }
{
    match class {
        tokens::NAME => goto(at, Place::NameFirst, Effect::HoldName),
        // The words of statements follow the operators, but for `if`, `return` and `function`, which stand among the signs.
        tokens::VAR..=tokens::DEBUGGER => word_row(at, class),
        tokens::IF => Some(Step::Enter(Nest::If, at.setting)),
        tokens::RETURN => goto(at, Place::ReturnFirst, Effect::StartStatement),
        tokens::OPEN_BRACE => Some(Step::Push(behind_statement(at.setting), Closing::Block)),
        tokens::FUNCTION => declaration_row(at),
        tokens::SEMICOLON => end_statement(at.setting, Effect::EndEmpty),
        _ => operand_row(
            Control {
                ending: Ending::Statement,
                flag: true,
                ..at
            },
            class,
        ),
    }
}

// The statements that start with a word, but for `if` and `return`.
fn word_row(at: Control, class: u32) -> Option<Step>
    ensures { (must : Bool) → (class ≡ semicolon → ⊥) → Means (statement_due must (setting_by at.setting)) class result (look class (word_row (setting_by at.setting) [])) }
{
    match class {
        tokens::VAR => goto(
            Control {
                ending: Ending::Variable,
                ..at
            },
            Place::VariableDue,
            Effect::StartStatement,
        ),
        tokens::DO => Some(Step::Enter(Nest::Do, at.setting)),
        tokens::TRY => Some(Step::Enter(Nest::Try, at.setting)),
        tokens::FOR => goto(at, Place::ForFirst, Effect::StartStatement),
        tokens::SWITCH => goto(at, Place::SwitchFirst, Effect::StartStatement),
        tokens::WHILE | tokens::WITH => goto(at, Place::HeadFirst, Effect::StartStatement),
        tokens::CONTINUE | tokens::BREAK => goto(at, Place::JumpFirst, Effect::StartStatement),
        tokens::THROW => goto(at, Place::ThrowFirst, Effect::StartStatement),
        tokens::DEBUGGER => goto(at, Place::SemicolonDue, Effect::StartStatement),
        _ => None,
    }
}

// `;` where an expression is due: behind `return` and in the head of a `for` it may be left out.
fn left_out_row(at: Control) -> Option<Step>
    ensures { IsDue at.place → (newline : Bool) → Means (control_of at) semicolon result (look semicolon (row (control_of at) newline)) }
{
    match at.place {
        Place::ReturnFirst => end_statement(at.setting, Effect::EndBare),
        Place::StartDue => goto(at, Place::TestDue, Effect::EndValue),
        Place::TestDue => goto(at, Place::StepDue, Effect::EndValue),
        _ => None,
    }
}

// `var` there: the head of a `for` may start with it.
fn head_variable_row(at: Control) -> Option<Step>
    ensures { IsDue at.place → (newline : Bool) → Means (control_of at) var_word result (look var_word (row (control_of at) newline)) }
{
    match at.place {
        Place::StartDue => goto(
            Control {
                ending: Ending::FirstVariable,
                ..at
            },
            Place::VariableDue,
            Effect::StartStatement,
        ),
        _ => None,
    }
}

// What ends the expression that is due.
fn due_ending(place: Place) -> Ending
    ensures { result ≡ due_ending place }
{
    match place {
        Place::StartDue => Ending::LoneStart,
        Place::TestDue => Ending::Test,
        Place::StepDue => Ending::Step,
        _ => Ending::Return,
    }
}

// `return` and `throw` want no line end behind them.
fn bars_line(place: Place, newline: bool) -> bool
    ensures { result ≡ (bars_line place && newline) }
{
    matches!(place, Place::ReturnFirst | Place::ThrowFirst) && newline
}

// Behind `return` or `throw`, and in the head of a `for`: one row, with one call of `operand_row`.
fn due_row(at: Control, class: u32, newline: bool) -> Option<Step>
    ensures { IsDue at.place → Means (control_of at) class result (look class (row (control_of at) newline)) }
{
    match class {
        tokens::SEMICOLON => left_out_row(at),
        tokens::VAR => head_variable_row(at),
        _ if bars_line(at.place, newline) => None,
        _ => operand_row(
            Control {
                ending: due_ending(at.place),
                flag: true,
                ..at
            },
            class,
        ),
    }
}

// Behind `continue` or `break`.
fn jump_row(at: Control, class: u32, newline: bool) -> Option<Step>
    ensures { Means (jump_first (setting_by at.setting)) class result (look class (row (jump_first (setting_by at.setting)) newline)) }
{
    match class {
        tokens::SEMICOLON => end_statement(at.setting, Effect::EndBare),
        tokens::NAME if !newline => goto(at, Place::SemicolonDue, Effect::Keep),
        _ => None,
    }
}

// Behind the name of a variable.
fn variable_row(at: Control, class: u32) -> Option<Step>
    ensures { Means (variable_named (variables_by at.ending at.setting)) class result (look class (row (variable_named (variables_by at.ending at.setting)) false)) }
{
    match class {
        tokens::ASSIGN => goto(
            Control {
                ending: variable_ending(at.ending),
                flag: true,
                ..at
            },
            Place::OperandDue,
            Effect::Keep,
        ),
        tokens::COMMA => next_variable(at),
        tokens::SEMICOLON => variables_end(at),
        tokens::IN => variable_in_row(at),
        _ => None,
    }
}

// `in` there, which may stand behind the first variable of a `for`'s head.
fn variable_in_row(at: Control) -> Option<Step>
    ensures { Means (variable_named (variables_by at.ending at.setting)) in_word result (look in_word (row (variable_named (variables_by at.ending at.setting)) false)) }
{
    match at.ending {
        Ending::FirstVariable => in_row(at),
        _ => None,
    }
}

// What ends a variable, by where it stands: what is none in a head is one of a statement.
fn variable_ending(ending: Ending) -> Ending
    ensures same { (setting : Setting) → ending_by result setting ≡ by_variable (variables_by ending setting) }
    ensures target { target_by result true ≡ some_target }
{
    match ending {
        Ending::FirstVariable | Ending::LaterVariable => ending,
        _ => Ending::Variable,
    }
}

// Only `;` may come, with which a statement ends.
fn semicolon_due(class: u32, setting: Setting) -> Option<Step>
    ensures { (from : Rattle.machine.specs.Machinery.Machine.Control) → Leads end_value from (behind_statement (setting_by setting)) → Means from class result (look class (on semicolon (goto (behind_statement (setting_by setting)) end_value) ∷ [])) }
{
    match class {
        tokens::SEMICOLON => end_statement(setting, Effect::EndValue),
        _ => None,
    }
}

// The setting of a statement that is due.
fn statement_setting(at: Control) -> Setting
    ensures due { at.place ≡ StatementDue → result ≡ at.setting }
    ensures another { at.place ≡ ClauseStatement → result ≡ Clause }
{
    match at.place {
        Place::StatementDue => at.setting,
        _ => Setting::Clause,
    }
}

// The machine's table, for a token that a record makes. A `match` and no closures: the rows of the machine's table are its arms.
pub fn row(at: Control, class: u32, newline: bool) -> Option<Step>
    ensures { Settled at class → Means (control_of at) class result (look class (row (control_of at) newline)) }
{
    match at.place {
        Place::OperandDone | Place::PostfixDone => operator_row(
            at,
            class,
            newline,
            matches!(at.place, Place::OperandDone),
        ),
        Place::OperandDue => operand_row(at, class),
        Place::JumpFirst => jump_row(at, class, newline),
        Place::VariableNamed => variable_row(at, class),
        Place::SemicolonDue => semicolon_due(class, at.setting),
        Place::ReturnFirst
        | Place::ThrowFirst
        | Place::StartDue
        | Place::TestDue
        | Place::StepDue => due_row(at, class, newline),
        Place::StatementDue | Place::ClauseStatement => statement_row(
            Control {
                setting: statement_setting(at),
                ..at
            },
            class,
        ),
        _ => form_row(at, class),
    }
}
