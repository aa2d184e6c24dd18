// Syntax records.
// `as` from `u32` to `usize` and back: std has no `From` there, and the check proves that nothing is lost.
ghost use Rattle.std.specs.Prelude.{◌≡◌, ◌+◌, ◌-◌, ◌≤◌, ◌<◌};
ghost use Rattle.tables.specs.Records.{most_trees, most_syntax};
ghost use Rattle.controls.specs.Machinery.Written.{put_record};

use tables::SyntaxRecord;

// Kinds of syntax records, as documents 01 and 02 number them, that no class of tokens has the number of.
// Numbers, and no enum: the syntax table that C is lent holds them.
pub const OBJECT: u32 = 5;

pub const PARENTHESISED: u32 = 6;

pub const FUNCTION: u32 = 7;

pub const MEMBER: u32 = 8;

pub const CALL: u32 = 9;

pub const EXPRESSION: u32 = 13;

pub const BARE_RETURN: u32 = 14;

pub const FULL_RETURN: u32 = 15;

pub const BLOCK: u32 = 16;

pub const LABEL: u32 = 17;

pub const IF: u32 = 18;

pub const DECLARATION: u32 = 19;

pub const PROGRAM: u32 = 20;

pub const ARRAY: u32 = 21;

pub const INDEX: u32 = 22;

pub const CONSTRUCT: u32 = 27;

pub const INCREMENTED: u32 = 29;

pub const DECREMENTED: u32 = 30;

pub const POSITIVE: u32 = 36;

pub const NEGATIVE: u32 = 37;

pub const VARIABLE: u32 = 75;

pub const EMPTY: u32 = 76;

pub const FOR_IN: u32 = 81;

// Writes the syntax record of a kind behind those so far, if it fits, and answers how many there are with it. Those from
// `start` on are in it.
pub fn put(syntax: &mut [u32], count: usize, kind: u32, mark: usize, start: usize) -> usize
    requires { (start ≤ count) × (count < most_syntax) × (mark ≤ most_trees) }
    ensures { (result ≡ count + 1) × (syntax.new ≡ put_record syntax.old count kind mark (count - start + 1)) }
{
    let at = count * SyntaxRecord::WIDTH;
    // A quotient would be reckoned anew for each level, before its first record. Three stores, as in `storing::put`.
    if at + SyntaxRecord::WIDTH <= syntax.len() {
        syntax[at] = kind;
        syntax[at + 1] = mark as u32;
        syntax[at + 2] = (count - start + 1) as u32;
    }
    count + 1
}
