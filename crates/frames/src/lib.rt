// What a level has so far: the token machine's frames, as syntax records in order and a lent stack of what waits; what is done before a
// token, and at the level's end. Stack and records are lent apart, as in `waiting`: functions differ in which of the two they write.
#![tactic(auto)]

ghost use Rattle.std.specs.Prelude.{◌≡◌, List};
ghost use Rattle.controls.specs.declared.Nest.TheVariants.{Do};
ghost use Rattle.controls.specs.Machinery.Numbers.{setting_by, control_of, behind_by};
ghost use Rattle.waiting.specs.Machinery.Waiting.{Backed};
ghost use Rattle.frames.specs.Machinery.Effects.{StandsSomewhere, ends_clause, is_done, MayLeaveOne, Leaves, MayLeave, MayName, Names, Readies, EndsLevel};

use controls::{Control, Ending, Nest, Place, Setting};
use machine::tokens;
use waiting::{Level, Waiting};

// Where the machine stands, and what its level has.
#[derive(Clone, Copy)]
pub struct Standing {
    pub control: Control,
    pub level: Level,
}

// Where the machine stands behind a nest.
fn behind_nest(nest: Nest, setting: Setting) -> Control
    ensures { (nest ≡ Do → ⊥) → control_of result ≡ behind_by nest (setting_by setting) }
{
    match nest {
        Nest::If | Nest::Do | Nest::Try => controls::behind_statement(setting),
        Nest::Clause => controls::stand(Place::ClauseDue, Ending::Case, Setting::Clause, false),
        Nest::LastClause => controls::stand(Place::ClauseDue, Ending::Case, Setting::Clause, true),
    }
}

// Leaves the nest that is done: the statement of a `do` waits for its test; an `if`, a `try` or a clause is complete in what stands around.
fn left(l: Level, waiting: &mut [Waiting], syntax: &mut [u32]) -> Standing
    requires { MayLeaveOne l waiting.old syntax.old }
    ensures { Leaves l waiting.old syntax.old result waiting.new syntax.new }
{
    let part = waiting[l.top - 1];
    let number = u32::from(part.kind) - waiting::NEST;
    let nest = Nest::numbered(number / waiting::SETTINGS);
    let setting = Setting::numbered(number % waiting::SETTINGS);
    match nest {
        Nest::Do => Standing {
            control: controls::stand(Place::BodyDone, Ending::Statement, setting, true),
            level: l.joined(tokens::DO, waiting),
        },
        Nest::Try => {
            let around = l.popped(waiting);
            let one = around.made(tokens::TRY, usize::from(part.mark), syntax);
            Standing {
                control: controls::behind_statement(setting),
                level: one.completed(waiting, syntax),
            }
        }
        _ => {
            let around = l.popped(waiting);
            Standing {
                control: behind_nest(nest, setting),
                level: around.completed(waiting, syntax),
            }
        }
    }
}

// Whether a token of a class stands behind the statements of a clause.
#[tactic(auto, unfolding(crate::specs::Machinery::Effects::ends_clause))]
fn ends_clause(class: u32) -> bool
    ensures { result ≡ ends_clause class }
{
    matches!(class, tokens::CASE | tokens::DEFAULT | tokens::CLOSE_BRACE)
}

// Whether a nest is done that a token of a class does not go on with.
fn is_done(at: Control, class: u32) -> bool
    ensures { result ≡ is_done at class }
{
    match at.place {
        Place::StatementDone => class != tokens::ELSE || !matches!(at.setting, Setting::IfNest),
        Place::CatchDone => class != tokens::FINALLY,
        Place::TryEnded => true,
        Place::ClauseStatement => ends_clause(class),
        _ => false,
    }
}

// The nests that a token of a class does not go on with are left before it.
fn left_all(
    at: Control,
    class: u32,
    l: Level,
    waiting: &mut [Waiting],
    syntax: &mut [u32],
) -> Standing
    requires { MayLeave at l waiting.old syntax.old }
    ensures { Readies at class l waiting.old syntax.old result waiting.new syntax.new }
{
    let mut s = Standing {
        control: at,
        level: l,
    };
    // What is left tells whether another nest is done.
    while is_done(s.control, class) {
        s = left(s.level, waiting, syntax);
    }
    s
}

// The name that is held is an operand.
fn named(at: Control, l: Level, syntax: &mut [u32]) -> Standing
    requires { MayName at l syntax.old }
    ensures { Names at l syntax.old result syntax.new }
{
    Standing {
        control: controls::stand(Place::OperandDone, Ending::Statement, at.setting, true),
        level: l.made(tokens::NAME, l.held, syntax),
    }
}

// The same once more (see `controls::copied`).
fn copied(s: Standing) -> Standing
    ensures { result ≡ s }
{
    Standing {
        control: controls::copied(s.control),
        level: waiting::copied(s.level),
    }
}

// Behind a name that a statement starts with: one that is no label is an operand.
fn name_ready(at: Control, class: u32, l: Level, syntax: &mut [u32]) -> Standing
    requires { MayName at l syntax.old }
    ensures { (stack : List Waiting) → Readies at class l stack syntax.old result stack syntax.new }
{
    if class == tokens::COLON {
        return Standing {
            control: at,
            level: l,
        };
    }
    named(at, l, syntax)
}

// Before a token of a class, or at a level's end before its closer: a name that is no label is an operand, and nests that are done are
// left. It is set into the loop over tokens, which would else pay for a call at each.
#[inline(always)]
pub fn ready(
    at: Control,
    class: u32,
    l: Level,
    waiting: &mut [Waiting],
    syntax: &mut [u32],
) -> Standing
    requires { StandsSomewhere (control_of at) l waiting.old syntax.old }
    ensures { Readies at class l waiting.old syntax.old result waiting.new syntax.new }
{
    // Only where a nest may be done, and behind a name that a statement starts with, is there something to do.
    match at.place {
        Place::StatementDone | Place::CatchDone | Place::TryEnded | Place::ClauseStatement => {
            let s = left_all(
                controls::copied(at),
                class,
                waiting::copied(l),
                waiting,
                syntax,
            );
            copied(s)
        }
        Place::NameFirst => name_ready(at, class, l, syntax),
        _ => Standing {
            control: at,
            level: l,
        },
    }
}

// A level's end: nothing waits any more.
pub fn ended(l: Level, waiting: &[Waiting], syntax: &mut [u32]) -> usize
    requires { Backed l waiting.now syntax.old }
    ensures { EndsLevel l waiting.now syntax.old result syntax.new }
{
    l.closed(2, waiting, syntax).count
}
