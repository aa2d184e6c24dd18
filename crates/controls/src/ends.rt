// Where a level may end: the rows of the machine's table at a closer, or at the text's end.
ghost use Rattle.std.specs.Prelude.{false, ◌≡◌, T};
ghost use Rattle.machine.specs.Machinery.Machine.{statement_due, parameter_due, look, list_closer, row};
ghost use Rattle.controls.specs.Machinery.Numbers.{setting_by, items_by, ending_by, must_by, control_of};
ghost use Rattle.machine.specs.Machinery.Classes.{is_end};
ghost use Rattle.controls.specs.Machinery.Steps.{Ended, Settled, Ends};

use crate::{Control, Ending, Place, Setting};
use machine::tokens;

// Whether a level may end at a closer, or at the text's end, where the machine stands.
pub fn ends(at: Control, closer: u32) -> bool
    ensures { Settled at closer → T (is_end closer) → Ends closer (control_of at) result (look closer (row (control_of at) false)) }
{
    match at.place {
        Place::StatementDue => statements_end(at.setting, at.flag, closer),
        Place::OperandDone | Place::PostfixDone => expression_ends(at.ending, at.setting, closer),
        Place::ItemDue => closer == list_closer(at.ending),
        Place::ParameterDue => parameters_end(at.flag, closer),
        Place::StepDue | Place::CatchNamed | Place::ParameterNamed => closer == tokens::CLOSE_PAREN,
        Place::ClauseDue => closer == tokens::CLOSE_BRACE,
        _ => false,
    }
}

fn statements_end(setting: Setting, must: bool, closer: u32) -> bool
    ensures { T (is_end closer) → Ends closer (statement_due (must_by must setting) (setting_by setting)) result (look closer (row (statement_due (must_by must setting) (setting_by setting)) false)) }
{
    !must
        && match setting {
            Setting::Body => closer == tokens::CLOSE_BRACE || closer == tokens::END_OF_TEXT,
            Setting::Block => closer == tokens::CLOSE_BRACE,
            _ => false,
        }
}

// The closer of a list.
fn list_closer(ending: Ending) -> u32
    ensures { result ≡ list_closer (items_by ending) }
{
    match ending {
        Ending::Argument => tokens::CLOSE_PAREN,
        Ending::Element => tokens::CLOSE_BRACKET,
        _ => tokens::CLOSE_BRACE,
    }
}

// No parameter needs to come.
fn parameters_end(must: bool, closer: u32) -> bool
    ensures { T (is_end closer) → Ends closer (parameter_due must) result (look closer (row (parameter_due must) false)) }
{
    !must && closer == tokens::CLOSE_PAREN
}

// A `?` that is not answered ends no level.
fn expression_ends(ending: Ending, setting: Setting, closer: u32) -> bool
    ensures { (from : Rattle.machine.specs.Machinery.Machine.Control) → Ended from (ending_by ending setting) → T (is_end closer) → Ends closer from result (look closer (row from false)) }
{
    match ending {
        Ending::Step | Ending::Object | Ending::Paren => closer == tokens::CLOSE_PAREN,
        Ending::Bracket => closer == tokens::CLOSE_BRACKET,
        Ending::Argument | Ending::Element | Ending::Property => closer == list_closer(ending),
        _ => false,
    }
}
