// The prefix rule by a summary of the trees before on a level: what a level answers, and the level inside a group and after it (`leaves` has that after a leaf).
#![tactic(auto)]

ghost use Rattle.std.specs.Prelude.{◌≡◌, ◌<◌, ◌≤◌, ◌%◌, ◌+◌, ◌-◌, ◌^◌, Bool, cond, ltb};
ghost use Rattle.rule.specs.Machinery.Summary.{one_question};
ghost use Rattle.rule.specs.Levels.{is_expression};
ghost use Rattle.rule.specs.Rule.{group_class};
ghost use Rattle.rule.specs.Machinery.LevelCodes.{kind_in, with, level_in, slash_by_level, name_by_level, stated_by_level, brace_by_level, settled_by_level, level_after_parens, level_after_block, level_after};

use elements::Stated;

// The kinds of groups, as document 01 and request U2 number those of tree records.
// Numbers, and no enum: the tree table that C is lent holds them, and a level's code.
pub const PARENS: u32 = 7;

pub const OBJECT: u32 = 8;

pub const BLOCK: u32 = 9;

pub const BRACKETS: u32 = 10;

// The kinds of `++` or `--` before and after its operand, and of a `:` that answers a `?`, as request U4 numbers them.
pub const BEFORE: u32 = 11;

pub const AFTER: u32 = 12;

pub const ANSWER: u32 = 13;

// Room for summaries in the code of a level, and for kinds of groups above them; and what a `?` adds to it.
pub const SUMMARIES: u32 = 64;

const KINDS: u32 = 32;

pub const ONE_QUESTION: u32 = 2048;

// The numbers of the signs `++` and `--`: `signs` numbers its signs of one byte alone.
const INCREMENT: u32 = 22;

const DECREMENT: u32 = 23;

// The summaries, numbers since they are parts of a level's code, and compared by their order: after an operand; after the name, the parentheses and the word of a function, in a statement's place and in
// an operand's; and by what stands last. A slash divides after the first five.
pub const OPERAND: u32 = 0;

pub const STATEMENT_FUNCTION_NAME: u32 = 1;

pub const OPERAND_FUNCTION_NAME: u32 = 2;

const STATEMENT_FUNCTION_PARENS: u32 = 3;

const OPERAND_FUNCTION_PARENS: u32 = 4;

pub const STATEMENT_FUNCTION: u32 = 5;

pub const OPERAND_FUNCTION: u32 = 6;

pub const NOTHING: u32 = 7;

pub const AFTER_OPERATOR: u32 = 8;

pub const AFTER_SEPARATOR: u32 = 9;

pub const AFTER_OTHER: u32 = 10;

pub const AFTER_RETURN: u32 = 11;

pub const AFTER_HEAD_WORD: u32 = 12;

const AFTER_HEAD: u32 = 13;

const AFTER_BLOCK: u32 = 14;

pub const AFTER_DOT: u32 = 15;

// Where a property of an object is due: nothing or a comma is last.
pub const PROPERTY_DUE: u32 = 16;

// A level, by its code: that of its summary, which is below 64; 64 times the kind of its group, which is below 32 (0 for the whole text); and 2,048 times the count
// of its unanswered `?`s. No bound on that count is an invariant here: each `?` adds to the code, and a code comes back from a lent stack, which may hold any number.
// One number, and no struct of three: the stack of open groups keeps one for each, and the definitions of `rule` (`LevelCodes`) speak of it.
#[derive(Clone, Copy)]
pub struct Level {
    pub code: u32,
}

impl Level {
    // Where nothing stands yet in the whole text.
    pub const WHOLE_TEXT: Level = Level { code: NOTHING };

    // Where nothing stands yet in a group of a kind.
    pub fn inside(kind: u32) -> Self
        requires { kind ≤ 10 }
        ensures { result.code ≡ level_in kind }
    {
        let summary = if kind == OBJECT {
            PROPERTY_DUE
        } else {
            NOTHING
        };
        Level {
            code: SUMMARIES * kind + summary,
        }
    }

    // The kind of the level's group.
    pub fn kind(self) -> u32
        ensures { result ≡ kind_in self.code }
    {
        self.code / SUMMARIES % KINDS
    }

    pub fn summary(self) -> u32
        ensures { result ≡ self.code % 64 }
    {
        self.code % SUMMARIES
    }

    // The level with another summary.
    pub fn with_summary(self, summary: u32) -> Self
        requires { summary < 64 }
        ensures { result.code ≡ with self.code summary }
    {
        Level {
            code: SUMMARIES * (self.code / SUMMARIES) + summary,
        }
    }

    // The level with one more unanswered `?`.
    pub fn with_question(self) -> Self
        requires { self.code < 2 ^ 32 - 2048 }
        ensures { result.code ≡ self.code + one_question }
    {
        Level {
            code: self.code + ONE_QUESTION,
        }
    }

    // The level with its innermost unanswered `?` answered, if there is one.
    pub fn with_question_answered(self) -> Self
        ensures { result.code ≡ cond (ltb self.code one_question) self.code (self.code - one_question) }
    {
        if self.code < ONE_QUESTION {
            return self;
        }
        Level {
            code: self.code - ONE_QUESTION,
        }
    }

    // The level with no `?` unanswered.
    pub fn without_questions(self) -> Self
        ensures { result.code ≡ self.code % one_question }
    {
        Level {
            code: self.code % ONE_QUESTION,
        }
    }

    // Whether a slash opens a regular expression.
    #[tactic(auto, unfolding(rule::specs::Machinery::LevelCodes::slash_by_level))]
    fn slash_opens(self) -> bool
        ensures { result ≡ slash_by_level self.code }
    {
        OPERAND_FUNCTION_PARENS < self.summary()
    }

    // Whether a reserved word is a name: after a dot, and where a property is due.
    #[tactic(auto, unfolding(rule::specs::Machinery::LevelCodes::name_by_level))]
    fn names_word(self) -> bool
        ensures { result ≡ name_by_level self.code }
    {
        AFTER_DOT <= self.summary()
    }

    // What is stated of the next element of the level.
    pub fn stated(self) -> Stated
        ensures { result ≡ stated_by_level self.code }
    {
        Stated {
            pattern: self.slash_opens(),
            name: self.names_word(),
        }
    }

    // Whether it is an expression level.
    fn is_expression(self) -> bool
        ensures { result ≡ is_expression (kind_in self.code) }
    {
        matches!(self.kind(), PARENS | OBJECT | BRACKETS)
    }

    // Whether a brace opens an object, where a line end lies before it or not.
    #[tactic(auto, unfolding(rule::specs::Machinery::LevelCodes::brace_by_level))]
    pub fn brace_opens(self, newline: bool) -> bool
        ensures { result ≡ brace_by_level self.code newline }
    {
        match self.summary() {
            AFTER_OPERATOR | PROPERTY_DUE => true,
            AFTER_RETURN => !newline,
            NOTHING | AFTER_SEPARATOR => self.is_expression(),
            _ => false,
        }
    }

    // The kind of the sign of a number, before which a line end lies or not.
    #[tactic(auto, using(rule::proofs::SettledSigns::settled_low, rule::proofs::SettledSigns::settled_newline, rule::proofs::SettledSigns::settled_opens, rule::proofs::SettledSigns::settled_after, rule::proofs::SettledSigns::settled_answer, rule::proofs::SettledSigns::settled_colon, rule::proofs::SettledSigns::settled_high))]
    pub fn settled(self, which: u32, newline: bool) -> u32
        ensures { result ≡ settled_by_level self.code newline which }
    {
        match which {
            INCREMENT | DECREMENT => {
                if newline || self.slash_opens() {
                    BEFORE
                } else {
                    AFTER
                }
            }
            signs::COLON if ONE_QUESTION <= self.code => ANSWER,
            _ => elements::SIGN,
        }
    }

    // The level after `( )`.
    #[tactic(auto, unfolding(rule::specs::Machinery::LevelCodes::level_after_parens))]
    fn after_parens(self) -> Self
        ensures { result.code ≡ level_after_parens self.code }
    {
        self.with_summary(match self.summary() {
            AFTER_HEAD_WORD => AFTER_HEAD,
            STATEMENT_FUNCTION_NAME | STATEMENT_FUNCTION => STATEMENT_FUNCTION_PARENS,
            OPERAND_FUNCTION_NAME | OPERAND_FUNCTION => OPERAND_FUNCTION_PARENS,
            _ => OPERAND,
        })
    }

    // The level after a block.
    #[tactic(auto, unfolding(rule::specs::Machinery::LevelCodes::level_after_block))]
    fn after_block(self) -> Self
        ensures { result.code ≡ level_after_block self.code }
    {
        self.with_summary(match self.summary() {
            OPERAND_FUNCTION_PARENS => OPERAND,
            _ => AFTER_BLOCK,
        })
    }

    // The level after a group of a kind.
    #[tactic(auto, unfolding(rule::specs::Machinery::LevelCodes::level_after, rule::specs::Rule::group_class))]
    pub fn after_group(self, kind: u32) -> Self
        ensures { (newline : Bool) → result.code ≡ level_after self.code (group_class kind) newline }
    {
        match kind {
            PARENS => self.after_parens(),
            OBJECT | BRACKETS => self.with_summary(OPERAND),
            _ => self.after_block(),
        }
    }
}
