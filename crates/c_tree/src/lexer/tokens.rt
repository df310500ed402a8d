// Tokens: reserved words, names, numbers, texts and signs (ISO C 6.4, and the words of the OP2 library).

use op_num::{Name, Text};

/// A place in the source: line and column, both from 1, the column in bytes.
#[derive(Clone, Copy, PartialEq, Eq, Debug)]
pub struct Pos {
    pub line: u32,
    pub column: u32,
}

/// A reserved word: one variant for each, named as the word is spelled. None of them is a name.
#[derive(Clone, Copy, PartialEq, Eq, Debug)]
pub enum Word {
    Extern,
    Const,
    Int,
    Void,
    Static,
    Inline,
    Char,
    If,
    Else,
    For,
    Return,
    Main,
    Argc,
    Argv,
    OpSet,
    OpMap,
    OpDat,
    OpInit,
    OpExit,
    OpDeclSet,
    OpDeclMap,
    OpDeclDat,
    OpDeclConst,
    OpParLoop,
    OpArgDat,
    OpArgGbl,
    OpPrintf,
    OpPrintDatToTxtfile,
    OpId,
    OpRead,
    OpWrite,
    OpRw,
    OpInc,
    OpMin,
    OpMax,
    Min,
    Max,
    Abs,
}

/// A sign: one variant for each, its spelling beside it.
#[derive(Clone, Copy, PartialEq, Eq, Debug)]
pub enum Sign {
    /// `(`
    LeftParen,
    /// `)`
    RightParen,
    /// `{`
    LeftBrace,
    /// `}`
    RightBrace,
    /// `[`
    LeftBracket,
    /// `]`
    RightBracket,
    /// `;`
    Semicolon,
    /// `,`
    Comma,
    /// `=`
    Assign,
    /// `+=`
    AddAssign,
    /// `-=`
    SubAssign,
    /// `*=`
    MulAssign,
    /// `/=`
    DivAssign,
    /// `%=`
    RemAssign,
    /// `<<=`
    ShlAssign,
    /// `>>=`
    ShrAssign,
    /// `&=`
    AndAssign,
    /// `|=`
    OrAssign,
    /// `^=`
    XorAssign,
    /// `?`
    Question,
    /// `:`
    Colon,
    /// `||`
    OrOr,
    /// `&&`
    AndAnd,
    /// `|`
    Or,
    /// `^`
    Xor,
    /// `&`
    And,
    /// `==`
    EqualEqual,
    /// `!=`
    NotEqual,
    /// `<`
    Less,
    /// `>`
    Greater,
    /// `<=`
    LessEqual,
    /// `>=`
    GreaterEqual,
    /// `<<`
    Shl,
    /// `>>`
    Shr,
    /// `+`
    Plus,
    /// `-`
    Minus,
    /// `*`
    Star,
    /// `/`
    Slash,
    /// `%`
    Percent,
    /// `!`
    Not,
    /// `~`
    Tilde,
    /// `++`
    PlusPlus,
    /// `--`
    MinusMinus,
}

/// What a token is. A number is 0 to 2147483647; a text holds the bytes that it stands for, its escapes decoded.
#[derive(PartialEq, Eq, Debug, Drop)]
pub enum Kind {
    Word(Word),
    Name(Name),
    Number(i32),
    Text(Text),
    Sign(Sign),
}

/// A token of the source: the bytes from `from` up to but not `to` spell `kind`, and the first of them stands at `at`.
#[derive(PartialEq, Eq, Debug, Drop)]
pub struct Token {
    pub kind: Kind,
    pub from: usize,
    pub to: usize,
    pub at: Pos,
}
