// Statement, expression and function parsers, which call each other over nested groups. Each runs the token machine over a level: the
// part of the tree table inside a group, behind which a token of the class `closer` stands. Inside a level nothing is called for a part:
// what waits stands on the lent stack. Stack and records are lent apart, as in `waiting`, and `top` and `count` are no level yet: each part begins its own, with another floor. What each step asks is
// one definition, `MayRun`, of what it hands on.
#![tactic(auto)]

ghost use Rattle.controls.specs.Machinery.Numbers.{IsScope, inside_by};
ghost use Rattle.segments.specs.Machinery.Segments.{segment_of, inside};
ghost use Rattle.levels.specs.Machinery.Runs.{MayRun, MayOpen, Ran, RanStatements, RanExpression, RanFunction};

use answers::faults::Fault;
use brief::Found;
use controls::{Closing, Setting, Step, records};
use groups::Parsed;
use segments::Segment;
use waiting::{Level, Waiting};

// Runs the machine over a level, from where the inside of such a group starts to the closer. What the group is tells it, since a control
// would be handed over through memory.
#[cycle(level)]
fn level(
    part: Segment,
    closer: u32,
    inside: Closing,
    waiting: &mut [Waiting],
    top: usize,
    syntax: &mut [u32],
    count: usize,
) -> Result<Parsed, Fault>
    requires { MayRun (segment_of part) closer count top waiting.old }
    ensures { Ran closer (segment_of part.entry) (inside_by inside) count top syntax.old waiting.old result syntax.new waiting.new }
{
    let number = part.count();
    let mut control = controls::inside_of(inside);
    let mut l = Level::empty(count, top);
    let mut at = 0;
    // A group is passed as a whole, so that no range counts the turns.
    while at < number {
        let class = part.class_at(at);
        let newline = part.newline_at(at);
        let s = frames::ready(control, class, l, waiting, syntax);
        let Some(step) = rows::row(s.control, class, newline) else {
            return Err(Fault::NoProgram(part.place_at(at)));
        };
        // The steps of the machine.
        match step {
            Step::Goto(next, effect) => {
                l = effects::affect(effect, class, part.base + at, s.level, waiting, syntax);
                control = next;
                at += 1;
            }
            Step::Enter(nest, setting) => {
                l = groups::entered(s.level, nest, setting, part.base + at, waiting, syntax);
                control = controls::entered(nest);
                at += 1;
            }
            Step::Ask => {
                let inner = groups::asked(s.control, s.level, part.base + at, waiting, syntax);
                l = inner.level;
                control = inner.control;
                at += 1;
            }
            Step::Turn => {
                let behind = groups::turned(s.level, waiting, syntax);
                l = behind.level;
                control = behind.control;
                at += 1;
            }
            Step::Push(behind, closing) => {
                let inner = group(
                    part,
                    at,
                    class + 1,
                    closing,
                    waiting,
                    s.level.top,
                    syntax,
                    s.level.count,
                )?;
                let done = groups::closing_by(closing, inner.within);
                l = groups::close(done, part.base + at, inner.count, s.level, waiting, syntax);
                control = behind;
                at += part.size_at(at);
            }
        }
    }
    groups::at_closer(control, closer, part.close, l, waiting, syntax)
}

// A group: one that is empty, or holds one operand or parameter, may need no level.
#[cycle(level)]
fn group(
    part: Segment,
    at: usize,
    closer: u32,
    closing: Closing,
    waiting: &mut [Waiting],
    top: usize,
    syntax: &mut [u32],
    count: usize,
) -> Result<Parsed, Fault>
    requires { MayOpen (segment_of part) at closer count top waiting.old }
    ensures { Ran closer (inside (segment_of part.entry) at) (inside_by closing) count top syntax.old waiting.old result syntax.new waiting.new }
{
    let within = part.inside(at);
    match brief::look_inside(within, closer, closing) {
        Found::Nothing => Ok(Parsed {
            count,
            within: false,
        }),
        Found::Operand(class) => Ok(Parsed {
            count: records::put(syntax, count, class, within.base, count),
            within: false,
        }),
        Found::NeedsLevel => content(within, closer, closing, waiting, top, syntax, count),
    }
}

// The inside of a group, by what the group is.
#[cycle(level)]
fn content(
    part: Segment,
    closer: u32,
    closing: Closing,
    waiting: &mut [Waiting],
    top: usize,
    syntax: &mut [u32],
    count: usize,
) -> Result<Parsed, Fault>
    requires { MayRun (segment_of part) closer count top waiting.old }
    ensures { Ran closer (segment_of part.entry) (inside_by closing) count top syntax.old waiting.old result syntax.new waiting.new }
{
    match closing {
        Closing::Block => statements(part, closer, Setting::Block, waiting, top, syntax, count),
        Closing::Declaration | Closing::Function => {
            function(part, closer, waiting, top, syntax, count)
        }
        _ => expression(part, closer, closing, waiting, top, syntax, count),
    }
}

// Statements, and declarations in a body.
#[cycle(level)]
pub fn statements(
    part: Segment,
    closer: u32,
    scope: Setting,
    waiting: &mut [Waiting],
    top: usize,
    syntax: &mut [u32],
    count: usize,
) -> Result<Parsed, Fault>
    requires { MayRun (segment_of part) closer count top waiting.old × IsScope scope }
    ensures { RanStatements scope closer (segment_of part.entry) count top syntax.old waiting.old result syntax.new waiting.new }
{
    let inside = controls::group_of(scope);
    level(part, closer, inside, waiting, top, syntax, count)
}

// An expression, or what else stands inside parentheses, brackets, an object or the braces of a `switch`, whose clauses hold statements.
#[cycle(level)]
fn expression(
    part: Segment,
    closer: u32,
    closing: Closing,
    waiting: &mut [Waiting],
    top: usize,
    syntax: &mut [u32],
    count: usize,
) -> Result<Parsed, Fault>
    requires { MayRun (segment_of part) closer count top waiting.old }
    ensures { RanExpression closing closer (segment_of part.entry) count top syntax.old waiting.old result syntax.new waiting.new }
{
    level(part, closer, closing, waiting, top, syntax, count)
}

// A function's body.
#[cycle(level)]
fn function(
    part: Segment,
    closer: u32,
    waiting: &mut [Waiting],
    top: usize,
    syntax: &mut [u32],
    count: usize,
) -> Result<Parsed, Fault>
    requires { MayRun (segment_of part) closer count top waiting.old }
    ensures { RanFunction closer (segment_of part.entry) count top syntax.old waiting.old result syntax.new waiting.new }
{
    statements(part, closer, Setting::Body, waiting, top, syntax, count)
}
