// Rows of functions and of their parameters.
ghost use Rattle.std.specs.Prelude.{Bool, false, ◌≤◌};
ghost use Rattle.machine.specs.Machinery.Machine.{operand_in, function_first, parameter_named, look, row};
ghost use Rattle.controls.specs.Machinery.Numbers.{ending_by, target_by, control_of};
ghost use Rattle.controls.specs.Machinery.Steps.{Means};
ghost use Rattle.forms.specs.Machinery.Places.{rows_at};

use crate::{goto, only, opens, push};
use controls::{Closing, Control, Effect, Place, Setting, Step};
use machine::tokens;

// The places of a function's parameters, of a function that is an operand, and the later ones.
pub fn function_row(at: Control, class: u32) -> Option<Step>
    ensures { 4 ≤ rows_at at.place → (newline : Bool) → Means (control_of at) class result (look class (row (control_of at) newline)) }
{
    match at.place {
        Place::ParameterDue => only(at, class, tokens::NAME, Place::ParameterNamed, Effect::Keep),
        Place::ParameterNamed => next_parameter(at, class),
        Place::FunctionFirst => unnamed_row(at, class),
        Place::FunctionNamed => opens(
            at,
            class,
            tokens::OPEN_PAREN,
            Place::ParameterPast,
            Closing::Parameter,
        ),
        Place::ParameterPast => opens(
            at,
            class,
            tokens::OPEN_BRACE,
            Place::OperandDone,
            Closing::Function,
        ),
        _ => declared_row(at, class),
    }
}

// Behind a parameter: another must come.
fn next_parameter(at: Control, class: u32) -> Option<Step>
    ensures { Means parameter_named class result (look class (row parameter_named false)) }
{
    let must = Control { flag: true, ..at };
    only(
        must,
        class,
        tokens::COMMA,
        Place::ParameterDue,
        Effect::Keep,
    )
}

// The places of a function that is declared.
fn declared_row(at: Control, class: u32) -> Option<Step>
    ensures { 5 ≤ rows_at at.place → (newline : Bool) → Means (control_of at) class result (look class (row (control_of at) newline)) }
{
    match at.place {
        Place::DeclaredFirst => only(at, class, tokens::NAME, Place::DeclaredNamed, Effect::Keep),
        Place::DeclaredNamed => opens(
            at,
            class,
            tokens::OPEN_PAREN,
            Place::DeclaredPast,
            Closing::Parameter,
        ),
        Place::DeclaredPast => {
            let among = Control {
                setting: Setting::Body,
                flag: false,
                ..at
            };
            opens(
                among,
                class,
                tokens::OPEN_BRACE,
                Place::StatementDue,
                Closing::Declaration,
            )
        }
        _ => None,
    }
}

// Behind `function` in an expression, which needs no name.
fn unnamed_row(at: Control, class: u32) -> Option<Step>
    ensures { Means (function_first (operand_in (ending_by at.ending at.setting) (target_by at.ending at.flag))) class result (look class (row (function_first (operand_in (ending_by at.ending at.setting) (target_by at.ending at.flag))) false)) }
{
    match class {
        tokens::NAME => goto(at, Place::FunctionNamed, Effect::Keep),
        tokens::OPEN_PAREN => push(at, Place::ParameterPast, Closing::Parameter),
        _ => None,
    }
}
