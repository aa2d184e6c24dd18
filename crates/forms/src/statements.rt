// Rows of the statements that start with a word: behind the word, in a `switch` and in a `try`.
ghost use Rattle.std.specs.Prelude.{◌≡◌, Bool, false, [], ◌∷◌, ◌≤◌};
ghost use Rattle.machine.specs.Tokens.{open_brace};
ghost use Rattle.machine.specs.Scopes.{block};
ghost use Rattle.machine.specs.Machinery.Machine.{among, some_target, by_case, to_block, statement_due, operand_due, switch_past, clause_due, default_first, try_done, on, push, look, row};
ghost use Rattle.controls.specs.declared.Effect.TheVariants.{StartStatement};
ghost use Rattle.controls.specs.Machinery.Numbers.{setting_by, control_by, control_of};
ghost use Rattle.controls.specs.Machinery.Steps.{Spans, Means, Goes};
ghost use Rattle.forms.specs.Machinery.Places.{rows_at};

use crate::functions::function_row;
use crate::{goto, head_row, only, opens};
use controls::{Closing, Control, Effect, Ending, Nest, Place, Setting, Step, behind_statement};
use machine::tokens;

// The places behind the word of a statement at which one class alone goes on: a head, a variable's name, the `while` of a `do` and its
// test, the block of a `switch`; and the later ones.
pub fn word_form_row(at: Control, class: u32) -> Option<Step>
    ensures { 2 ≤ rows_at at.place → (newline : Bool) → Means (control_of at) class result (look class (row (control_of at) newline)) }
{
    let must = Control { flag: true, ..at };
    match at.place {
        Place::HeadFirst => head_row(must, class, Place::StatementDue, Closing::Head),
        Place::VariableDue => only(
            at,
            class,
            tokens::NAME,
            Place::VariableNamed,
            Effect::StartStatement,
        ),
        Place::BodyDone => only(at, class, tokens::WHILE, Place::TestFirst, Effect::Keep),
        Place::TestFirst => head_row(at, class, Place::SemicolonDue, Closing::Test),
        Place::ForFirst => head_row(must, class, Place::StatementDue, Closing::For),
        Place::SwitchFirst => head_row(at, class, Place::SwitchPast, Closing::Head),
        Place::SwitchPast => switch_row(class, at.setting),
        _ => try_row(at, class),
    }
}

// The block of a `switch`.
fn switch_row(class: u32, setting: Setting) -> Option<Step>
    ensures { Means (switch_past (setting_by setting)) class result (look class (row (switch_past (setting_by setting)) false)) }
{
    match class {
        tokens::OPEN_BRACE => Some(Step::Push(behind_statement(setting), Closing::Clauses)),
        _ => None,
    }
}

// Where a clause of a `switch` is due: no other `default` may come behind one.
fn clause_row(at: Control, class: u32) -> Option<Step>
    ensures { Means (clause_due at.flag) class result (look class (row (clause_due at.flag) false)) }
{
    match class {
        tokens::CASE => case_row(at),
        tokens::DEFAULT if !at.flag => goto(at, Place::DefaultFirst, Effect::StartStatement),
        _ => None,
    }
}

// The value of a `case` tells whether a `default` has come.
fn case_row(at: Control) -> Option<Step>
    ensures { Goes result (operand_due (by_case at.flag) some_target) StartStatement }
{
    let ending = if at.flag {
        Ending::LastCase
    } else {
        Ending::Case
    };
    goto(
        Control {
            ending,
            flag: true,
            ..at
        },
        Place::OperandDue,
        Effect::StartStatement,
    )
}

// Behind `default`.
fn default_row(class: u32) -> Option<Step>
    ensures { Means default_first class result (look class (row default_first false)) }
{
    match class {
        tokens::COLON => Some(Step::Enter(Nest::LastClause, Setting::Body)),
        _ => None,
    }
}

// The places of a clause and of a `try`, and the later ones.
fn try_row(at: Control, class: u32) -> Option<Step>
    ensures { 3 ≤ rows_at at.place → (newline : Bool) → Means (control_of at) class result (look class (row (control_of at) newline)) }
{
    match at.place {
        Place::ClauseDue => clause_row(at, class),
        Place::DefaultFirst => default_row(class),
        Place::TryFirst => block_row(at, class, Place::TryDone),
        Place::TryDone => handler_row(at, class),
        Place::CatchFirst => head_row(at, class, Place::CatchPast, Closing::Catch),
        Place::CatchDue => only(at, class, tokens::NAME, Place::CatchNamed, Effect::Keep),
        Place::CatchNamed => None,
        Place::CatchPast => block_row(at, class, Place::CatchDone),
        Place::FinallyFirst => block_row(at, class, Place::TryEnded),
        _ => function_row(at, class),
    }
}

// A block of a `try`, behind which the machine stands at a place.
fn block_row(at: Control, class: u32, place: Place) -> Option<Step>
    ensures { (from : Rattle.machine.specs.Machinery.Machine.Control) → Spans to_block from (control_by place at.ending at.setting at.flag) → Means from class result (look class (on open_brace (push (statement_due false (among block)) (control_by place at.ending at.setting at.flag) to_block) ∷ [])) }
{
    opens(at, class, tokens::OPEN_BRACE, place, Closing::Block)
}

// Behind the block of a `try`.
fn handler_row(at: Control, class: u32) -> Option<Step>
    ensures { Means try_done class result (look class (row try_done false)) }
{
    match class {
        tokens::CATCH => goto(at, Place::CatchFirst, Effect::StartStatement),
        tokens::FINALLY => goto(at, Place::FinallyFirst, Effect::StartStatement),
        _ => None,
    }
}
