// Classes of tokens: those that make a part by themselves have the kind of that part, the others numbers from 128 up.
// They are numbers and no enum, since a class is written as a record's kind into the syntax table that C is lent, and `kinds_marked` of `derivations` speaks of it.
pub const NAME: u32 = 1;

pub const NUMBER: u32 = 2;

pub const STRING: u32 = 3;

pub const PATTERN: u32 = 4;

pub const DIVIDE: u32 = 10;

pub const PLUS: u32 = 11;

pub const ASSIGN: u32 = 12;

pub const THIS: u32 = 23;

pub const NULL: u32 = 24;

pub const TRUE: u32 = 25;

pub const FALSE: u32 = 26;

pub const NEW: u32 = 28;

pub const DELETE: u32 = 31;

pub const VOID: u32 = 32;

pub const TYPEOF: u32 = 33;

pub const INCREMENT: u32 = 34;

pub const DECREMENT: u32 = 35;

pub const COMPLEMENT: u32 = 38;

pub const NEGATION: u32 = 39;

pub const MULTIPLY: u32 = 40;

pub const REMAINDER: u32 = 41;

pub const MINUS: u32 = 42;

pub const LEFT_SHIFT: u32 = 43;

pub const RIGHT_SHIFT: u32 = 44;

pub const UNSIGNED_SHIFT: u32 = 45;

pub const LESS: u32 = 46;

pub const GREATER: u32 = 47;

pub const AT_MOST: u32 = 48;

pub const AT_LEAST: u32 = 49;

pub const INSTANCEOF: u32 = 50;

pub const IN: u32 = 51;

pub const EQUAL: u32 = 52;

pub const UNEQUAL: u32 = 53;

pub const IDENTICAL: u32 = 54;

pub const UNIDENTICAL: u32 = 55;

pub const BIT_AND: u32 = 56;

pub const BIT_XOR: u32 = 57;

pub const BIT_OR: u32 = 58;

pub const LOGICAL_AND: u32 = 59;

pub const LOGICAL_OR: u32 = 60;

pub const QUESTION: u32 = 61;

pub const MULTIPLY_ASSIGN: u32 = 62;

pub const DIVIDE_ASSIGN: u32 = 63;

pub const REMAINDER_ASSIGN: u32 = 64;

pub const PLUS_ASSIGN: u32 = 65;

pub const MINUS_ASSIGN: u32 = 66;

pub const LEFT_SHIFT_ASSIGN: u32 = 67;

pub const RIGHT_SHIFT_ASSIGN: u32 = 68;

pub const UNSIGNED_SHIFT_ASSIGN: u32 = 69;

pub const AND_ASSIGN: u32 = 70;

pub const XOR_ASSIGN: u32 = 71;

pub const OR_ASSIGN: u32 = 72;

pub const COMMA: u32 = 73;

pub const VAR: u32 = 74;

pub const ELSE: u32 = 77;

pub const DO: u32 = 78;

pub const WHILE: u32 = 79;

pub const FOR: u32 = 80;

pub const CONTINUE: u32 = 83;

pub const BREAK: u32 = 85;

pub const WITH: u32 = 86;

pub const SWITCH: u32 = 87;

pub const CASE: u32 = 88;

pub const DEFAULT: u32 = 89;

pub const THROW: u32 = 90;

pub const TRY: u32 = 91;

pub const CATCH: u32 = 92;

pub const FINALLY: u32 = 93;

pub const DEBUGGER: u32 = 94;

pub const END_OF_TEXT: u32 = 128;

pub const COLON: u32 = 129;

pub const SEMICOLON: u32 = 130;

pub const DOT: u32 = 131;

pub const OPEN_PAREN: u32 = 132;

pub const CLOSE_PAREN: u32 = 133;

pub const OPEN_BRACE: u32 = 134;

pub const CLOSE_BRACE: u32 = 135;

pub const RETURN: u32 = 136;

pub const FUNCTION: u32 = 137;

pub const IF: u32 = 138;

// A reserved word that is taken as a name. Its record has the class of a name, so no record has this one: it is in the machine's table.
pub const WORD_NAME: u32 = 139;

pub const OPEN_BRACKET: u32 = 140;

pub const CLOSE_BRACKET: u32 = 141;
