// Where the token machine stands, and what it does: places and effects are named after those of machine/specs/Machinery/Machine.antt
// where there is one, so that the two can be laid side by side; specs/Machinery/Numbers.antt ties them.
#![tactic(auto)]

ghost use Rattle.std.specs.Prelude.{◌≡◌, false, ℕ, ◌≤◌};
ghost use Rattle.machine.specs.Machinery.Machine.{behind_statement, statement_due};
ghost use Rattle.machine.specs.Machinery.Classes.{is_leaf};
ghost use Rattle.controls.specs.declared.Ending.TheVariants.{LoneStart};
ghost use Rattle.controls.specs.Machinery.Numbers.{setting_by, ending_by, control_by, control_of, start_kind, inside_by, entered_by, IsScope, nest_number, setting_number, ending_number, setting_numbered, ending_numbered};

pub mod bindings;
pub mod ends;
pub mod records;

use machine::tokens;

// Where the machine stands: the place in a form; what ends the expression; the setting of the statement; and whether the chain may yet
// be assigned to, or whether a statement or a parameter must come.
#[derive(Clone, Copy)]
pub struct Control {
    pub place: Place,
    pub ending: Ending,
    pub setting: Setting,
    pub flag: bool,
}

// The places.
#[derive(Clone, Copy)]
pub enum Place {
    StatementDue,
    ReturnFirst,
    OperandDue,
    OperandDone,
    PostfixDone,
    ThrowFirst,
    JumpFirst,
    VariableNamed,
    SemicolonDue,
    StartDue,
    TestDue,
    StepDue,
    MemberDue,
    IfFirst,
    DotLast,
    ItemDue,
    PropertyNamed,
    HeadFirst,
    VariableDue,
    BodyDone,
    TestFirst,
    ForFirst,
    SwitchFirst,
    SwitchPast,
    ClauseDue,
    DefaultFirst,
    TryFirst,
    TryDone,
    CatchFirst,
    CatchDue,
    CatchNamed,
    CatchPast,
    FinallyFirst,
    ParameterDue,
    ParameterNamed,
    FunctionFirst,
    FunctionNamed,
    ParameterPast,
    DeclaredFirst,
    DeclaredNamed,
    DeclaredPast,
    // At the last five something may be done before a token, as `frames::ready` does it. The last is that where another statement of a
    // clause may come.
    StatementDone,
    NameFirst,
    CatchDone,
    TryEnded,
    ClauseStatement,
}

// The setting of a statement: among those of a body, a block or a clause, or in a nest.
#[derive(Clone, Copy)]
pub enum Setting {
    Body = 0,
    Block = 1,
    Clause = 2,
    IfNest = 3,
    ElseNest = 4,
    DoNest = 5,
}

impl Setting {
    // The number that stands for it on the lent stack, and back: no other number than one of these is written there, so that a `TryFrom` would have nothing to refuse. `as`,
    // since an enum has no `From` to its number, and a table of its own for each enum.
    pub fn number(self) -> u32
        ensures { result ≡ setting_number self }
    {
        self as u32
    }

    // A number past the last stands for what the last does.
    #[tactic(auto, unfolding(crate::specs::Machinery::Numbers::setting_numbered))]
    pub fn numbered(number: u32) -> Setting
        ensures { result ≡ setting_numbered number }
    {
        match number {
            0 => Setting::Body,
            1 => Setting::Block,
            2 => Setting::Clause,
            3 => Setting::IfNest,
            4 => Setting::ElseNest,
            _ => Setting::DoNest,
        }
    }
}

// What ends an expression; what ends a variable tells where it stands, and what ends an item the list. The start of a `for`'s head is
// alone as long as it is no more than a chain.
#[derive(Clone, Copy)]
pub enum Ending {
    Statement = 0,
    Return = 1,
    Variable = 2,
    FirstVariable = 3,
    LaterVariable = 4,
    LoneStart = 5,
    Start = 6,
    Test = 7,
    Case = 8,
    LastCase = 9,
    Step = 10,
    Object = 11,
    Paren = 12,
    Bracket = 13,
    Colon = 14,
    Argument = 15,
    Element = 16,
    Property = 17,
}

impl Ending {
    // The number that stands for it on the lent stack, and back: no other number than one of these is written there, so that a `TryFrom` would have nothing to refuse. `as`,
    // since an enum has no `From` to its number, and a table of its own for each enum.
    pub fn number(self) -> u32
        ensures { result ≡ ending_number self }
    {
        self as u32
    }

    // A number past the last stands for what the last does.
    #[tactic(auto, unfolding(crate::specs::Machinery::Numbers::ending_numbered))]
    pub fn numbered(number: u32) -> Ending
        ensures { result ≡ ending_numbered number }
    {
        match number {
            0 => Ending::Statement,
            1 => Ending::Return,
            2 => Ending::Variable,
            3 => Ending::FirstVariable,
            4 => Ending::LaterVariable,
            5 => Ending::LoneStart,
            6 => Ending::Start,
            7 => Ending::Test,
            8 => Ending::Case,
            9 => Ending::LastCase,
            10 => Ending::Step,
            11 => Ending::Object,
            12 => Ending::Paren,
            13 => Ending::Bracket,
            14 => Ending::Colon,
            15 => Ending::Argument,
            16 => Ending::Element,
            _ => Ending::Property,
        }
    }
}

// What a token does to the level.
#[derive(Clone, Copy)]
pub enum Effect {
    Keep,
    TakeLeaf,
    TakeMember,
    TakeOperator,
    TakeLabel,
    HoldWord,
    // A name that a statement starts with is held too: it is a label or an operand.
    HoldName,
    // Behind the word of a statement its parts are due, and behind the name of a variable its initialiser.
    StartStatement,
    EndExpression,
    EndValue,
    EndBare,
    TakePrefix,
    TakePostfix,
    EndEmpty,
    EndVariable,
    TakeElse,
}

// What a group is, and does to the level around it when it closes.
#[derive(Clone, Copy)]
pub enum Closing {
    Parens,
    Call,
    Object,
    Condition,
    Parameter,
    Block,
    Declaration,
    Function,
    Array,
    Index,
    Head,
    Test,
    For,
    Clauses,
    Catch,
    // The head of a `for` with `in`.
    ForIn,
}

// What a nest is: that of an `if`, of its `else` too; that of the statement of a `do`; a `try`; or the statements of a clause, behind
// which a `default` may come or not.
#[derive(Clone, Copy)]
pub enum Nest {
    If = 0,
    Do = 1,
    Try = 2,
    Clause = 3,
    LastClause = 4,
}

impl Nest {
    // The number that stands for it on the lent stack, and back: no other number than one of these is written there, so that a `TryFrom` would have nothing to refuse. `as`,
    // since an enum has no `From` to its number, and a table of its own for each enum.
    pub fn number(self) -> u32
        ensures { result ≡ nest_number self }
    {
        self as u32
    }

    pub fn numbered(number: u32) -> Nest
        ensures { (nest : Nest) → number ≡ nest_number nest → result ≡ nest }
    {
        match number {
            0 => Nest::If,
            1 => Nest::Do,
            2 => Nest::Try,
            3 => Nest::Clause,
            _ => Nest::LastClause,
        }
    }
}

// What a token does where it may come: it goes on, with an effect; opens a group, with where to stand behind it; opens a nest, with what it
// is and the setting around it; or is a `?`, or the `:` that answers one.
#[derive(Clone, Copy)]
pub enum Step {
    Goto(Control, Effect),
    Push(Control, Closing),
    Enter(Nest, Setting),
    Ask,
    Turn,
}

pub fn stand(place: Place, ending: Ending, setting: Setting, flag: bool) -> Control
    ensures { control_of result ≡ control_by place ending setting flag }
{
    Control {
        place,
        ending,
        setting,
        flag,
    }
}

// The same once more: what is passed on by its copy need not lie in memory where it comes from, which a loop over it would pay for.
pub fn copied(at: Control) -> Control
    ensures { result ≡ at }
{
    Control {
        place: at.place,
        ending: at.ending,
        setting: at.setting,
        flag: at.flag,
    }
}

// Behind a statement: another may come, or its nest is done.
pub fn behind_statement(setting: Setting) -> Control
    ensures { control_of result ≡ behind_statement (setting_by setting) }
{
    match setting {
        Setting::Body | Setting::Block => stand(
            Place::StatementDue,
            Ending::Statement,
            setting,
            false,
        ),
        Setting::Clause => stand(
            Place::ClauseStatement,
            Ending::Statement,
            Setting::Clause,
            false,
        ),
        _ => stand(Place::StatementDone, Ending::Statement, setting, false),
    }
}

// Where the inside of a group starts.
pub fn inside_of(closing: Closing) -> Control
    ensures { control_of result ≡ inside_by closing }
{
    match closing {
        Closing::Call => stand(Place::ItemDue, Ending::Argument, Setting::Body, true),
        Closing::Object => stand(Place::ItemDue, Ending::Property, Setting::Body, true),
        Closing::Parameter => stand(Place::ParameterDue, Ending::Paren, Setting::Body, false),
        Closing::Block => stand(
            Place::StatementDue,
            Ending::Statement,
            Setting::Block,
            false,
        ),
        Closing::Declaration => stand(Place::StatementDue, Ending::Statement, Setting::Body, false),
        Closing::Function => stand(Place::StatementDue, Ending::Statement, Setting::Body, false),
        Closing::Array => stand(Place::ItemDue, Ending::Element, Setting::Body, true),
        Closing::Index => stand(Place::OperandDue, Ending::Bracket, Setting::Body, true),
        Closing::For => stand(Place::StartDue, Ending::LoneStart, Setting::Body, true),
        Closing::Clauses => stand(Place::ClauseDue, Ending::Case, Setting::Clause, false),
        Closing::Catch => stand(Place::CatchDue, Ending::Paren, Setting::Body, true),
        Closing::Parens | Closing::Condition | Closing::Head | Closing::Test | Closing::ForIn =>
            stand(Place::OperandDue, Ending::Paren, Setting::Body, true),
    }
}

// A group whose inside has the statements of a scope, a body's or a block's.
pub fn group_of(scope: Setting) -> Closing
    ensures { IsScope scope → inside_by result ≡ statement_due false (setting_by scope) }
{
    match scope {
        Setting::Body => Closing::Function,
        _ => Closing::Block,
    }
}

// Where the inside of a nest starts.
pub fn entered(nest: Nest) -> Control
    ensures { control_of result ≡ entered_by nest }
{
    match nest {
        Nest::If => stand(Place::IfFirst, Ending::Statement, Setting::IfNest, true),
        Nest::Do => stand(
            Place::StatementDue,
            Ending::Statement,
            Setting::DoNest,
            true,
        ),
        Nest::Try => stand(Place::TryFirst, Ending::Statement, Setting::Body, true),
        Nest::Clause | Nest::LastClause => stand(
            Place::ClauseStatement,
            Ending::Statement,
            Setting::Clause,
            false,
        ),
    }
}

// Behind an operator the start of a `for`'s head is no more alone.
pub fn past_start(ending: Ending) -> Ending
    ensures { (result ≡ LoneStart → ⊥) × ((setting : Setting) → ending_by result setting ≡ ending_by ending setting) }
{
    match ending {
        Ending::LoneStart => Ending::Start,
        _ => ending,
    }
}

// The kind of what starts with a token of a class.
#[tactic(auto, unfolding(crate::specs::Machinery::Numbers::start_kind))]
pub fn start_kind(class: u32) -> u32
    ensures { result ≡ start_kind class }
{
    match class {
        tokens::NAME => records::VARIABLE,
        tokens::RETURN => records::FULL_RETURN,
        _ => class,
    }
}

// Whether a token of a class is a part by itself: a name, number, string or regular expression, or a value word.
pub fn is_leaf(class: u32) -> bool
    ensures { result ≡ is_leaf class }
{
    matches!(
        class,
        tokens::NAME..=tokens::PATTERN | tokens::THIS..=tokens::FALSE
    )
}
