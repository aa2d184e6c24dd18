// A level's end, what a group does to the level around it, the beginning of a nest, and a `?` and its `:`.
// Stack and records are lent apart, as in `waiting`: functions differ in which of the two they write.
#![tactic(auto)]

ghost use Rattle.std.specs.Prelude.{◌≡◌, T, cond};
ghost use Rattle.machine.specs.Machinery.Machine.{in_for};
ghost use Rattle.machine.specs.Machinery.Classes.{is_end};
ghost use Rattle.controls.specs.Machinery.Numbers.{control_of, closing_by};
ghost use Rattle.waiting.specs.Machinery.Waiting.{Backed};
ghost use Rattle.controls.specs.declared.Closing.TheVariants.{Call};
ghost use Rattle.frames.specs.Machinery.Effects.{StandsSomewhere, MayClose, ClosesGroup, MayEnter, EntersNest, Heads, MayAsk, Asks, MayTurn, Turns};
ghost use Rattle.groups.specs.Machinery.Closers.{is_object, AsksIn, ComesTo};

use answers::faults::Fault;
use controls::{Closing, Control, Ending, Nest, Place, Setting, ends, records};
use frames::Standing;
use machine::tokens;
use waiting::{Level, Waiting};

// What a parser answers: the number of syntax records so far, and whether they are the head of a `for` with `in`. Its fault is that they
// begin no program with the element at a place.
#[derive(Clone, Copy)]
pub struct Parsed {
    pub count: usize,
    pub within: bool,
}

// What a level comes to behind its last record: a token of the class `closer` stands there, at the place `close`.
pub fn at_closer(
    at: Control,
    closer: u32,
    close: usize,
    l: Level,
    waiting: &mut [Waiting],
    syntax: &mut [u32],
) -> Result<Parsed, Fault>
    requires { StandsSomewhere (control_of at) l waiting.old syntax.old × T (is_end closer) }
    ensures { ComesTo at closer close l waiting.old syntax.old result waiting.new syntax.new }
{
    let s = frames::ready(at, closer, l, waiting, syntax);
    if ends::ends(s.control, closer) {
        return Ok(Parsed {
            count: frames::ended(s.level, waiting, syntax),
            within: is_object(s.control),
        });
    }
    Err(Fault::NoProgram(close))
}

// Whether what stands behind the `in` of a `for` has ended.
fn is_object(at: Control) -> bool
    ensures { result ≡ is_object (control_of at) }
{
    matches!(at.ending, Ending::Object)
        && matches!(at.place, Place::OperandDone | Place::PostfixDone)
}

// What a group does when it closes, if its inside is the head of a `for` with `in` or not.
pub fn closing_by(closing: Closing, within: bool) -> Closing
    ensures { closing_by result ≡ cond within (in_for (closing_by closing)) (closing_by closing) }
{
    match closing {
        Closing::For if within => Closing::ForIn,
        _ => closing,
    }
}

// What a group that closes does to the level around it, when there are so many records with its own. A `match` and no closures: the rows of the machine's table are its arms.
pub fn close(
    closing: Closing,
    mark: usize,
    count: usize,
    l: Level,
    waiting: &mut [Waiting],
    syntax: &mut [u32],
) -> Level
    requires { MayClose closing mark count l waiting.old syntax.old }
    ensures { ClosesGroup closing mark count l waiting.old syntax.old result waiting.new syntax.new }
{
    let g = Level { count, ..l };
    match closing {
        Closing::Parens => g.made(records::PARENTHESISED, mark, syntax),
        Closing::Call => called(l, mark, count, waiting, syntax),
        Closing::Object => g.made(records::OBJECT, mark, syntax),
        Closing::Condition => g.wait(records::IF, l.held, waiting),
        Closing::Block => {
            let one = g.made(records::BLOCK, mark, syntax);
            one.completed(waiting, syntax)
        }
        Closing::Declaration => {
            let one = g.made(records::DECLARATION, l.held, syntax);
            one.completed(waiting, syntax)
        }
        Closing::Function => g.made(records::FUNCTION, l.held, syntax),
        Closing::Array => g.made(records::ARRAY, mark, syntax),
        Closing::Index => g.made(records::INDEX, mark, syntax),
        Closing::ForIn => g.joined(records::FOR_IN, waiting),
        Closing::Clauses => g.completed(waiting, syntax),
        Closing::Head | Closing::For => Level { start: count, ..g },
        Closing::Parameter | Closing::Catch | Closing::Test => g,
    }
}

// Arguments belong to the `new` that waits uppermost, if one does, or make a call.
fn called(l: Level, mark: usize, count: usize, waiting: &[Waiting], syntax: &mut [u32]) -> Level
    requires { MayClose Call mark count l waiting.now syntax.old }
    ensures { ClosesGroup Call mark count l waiting.now syntax.old result waiting.now syntax.new }
{
    let g = Level { count, ..l };
    if l.floor < l.top {
        let word = waiting[l.top - 1];
        if u32::from(word.kind) == tokens::NEW {
            return g
                .popped(waiting)
                .made(records::CONSTRUCT, usize::from(word.mark), syntax);
        }
    }
    g.made(records::CALL, mark, syntax)
}

// The number that stands for an open `?` tells what ends the expression that it is in.
fn asking(ending: Ending, setting: Setting) -> u32
    ensures { AsksIn ending setting result }
{
    let past = controls::past_start(ending);
    waiting::ASK + past.number() * waiting::SETTINGS + setting.number()
}

// A `?` is open: what is binary or tighter is closed, the operand is its condition, and behind it an expression is due that a `:` ends.
pub fn asked(
    at: Control,
    l: Level,
    mark: usize,
    waiting: &mut [Waiting],
    syntax: &mut [u32],
) -> Standing
    requires { MayAsk at mark l waiting.old syntax.old }
    ensures { Asks at mark l waiting.old syntax.old result waiting.new syntax.new }
{
    let condition = l.closed(4, waiting, syntax);
    let number = asking(at.ending, at.setting);
    Standing {
        control: controls::stand(Place::OperandDue, Ending::Colon, Setting::Body, true),
        level: condition.wait(number, mark, waiting),
    }
}

// The innermost `?` is answered: what stands behind it is closed, and it waits for its last part.
pub fn turned(l: Level, waiting: &mut [Waiting], syntax: &mut [u32]) -> Standing
    requires { MayTurn l waiting.old syntax.old }
    ensures { Turns l waiting.old syntax.old result waiting.new syntax.new }
{
    let answer = l.closed(2, waiting, syntax);
    let number = u32::from(waiting[answer.top - 1].kind) - waiting::ASK;
    Standing {
        control: controls::stand(
            Place::OperandDue,
            Ending::numbered(number / waiting::SETTINGS),
            Setting::numbered(number % waiting::SETTINGS),
            true,
        ),
        level: answer.joined(tokens::QUESTION, waiting),
    }
}

// Opens a nest, with its word held, where a statement of a setting is due or behind the head of a clause.
pub fn entered(
    l: Level,
    nest: Nest,
    setting: Setting,
    word: usize,
    waiting: &mut [Waiting],
    syntax: &mut [u32],
) -> Level
    requires { MayEnter nest setting word l waiting.old syntax.old }
    ensures { EntersNest nest setting word l waiting.old syntax.old result waiting.new syntax.new }
{
    let number = waiting::NEST + nest.number() * waiting::SETTINGS + setting.number();
    let outside = headed(l, nest, waiting, syntax);
    let inside = outside.wait(number, word, waiting);
    inside.holding(word)
}

// Behind the head of a clause, what waits on its left has the head for its left side.
fn headed(l: Level, nest: Nest, waiting: &[Waiting], syntax: &mut [u32]) -> Level
    requires { Backed l waiting.now syntax.old }
    ensures { Heads nest l waiting.now syntax.old result syntax.new }
{
    match nest {
        Nest::Clause | Nest::LastClause => {
            let head = l.closed(2, waiting, syntax);
            Level {
                start: head.count,
                ..head
            }
        }
        _ => l,
    }
}
