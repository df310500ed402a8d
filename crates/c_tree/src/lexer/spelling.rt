// The spellings of signs and reserved words, and where the longest one is looked for.

ghost use Rattle.std.specs.Prelude.{◌≡◌, find, nat_eq};
ghost use Rattle.std.specs.List.{starts_with};
ghost use Rattle.std.specs.Str.{bytes_eq};
ghost use Rattle.c_tree.specs.Spelling.{sign_spelling, word_spelling};

use crate::lexer::tokens::{Sign, Word};

/// The signs, a longer one before a shorter.
pub const SIGNS: [Sign; 43] = [
    Sign::ShlAssign,
    Sign::ShrAssign,
    Sign::AddAssign,
    Sign::SubAssign,
    Sign::MulAssign,
    Sign::DivAssign,
    Sign::RemAssign,
    Sign::AndAssign,
    Sign::OrAssign,
    Sign::XorAssign,
    Sign::OrOr,
    Sign::AndAnd,
    Sign::EqualEqual,
    Sign::NotEqual,
    Sign::LessEqual,
    Sign::GreaterEqual,
    Sign::Shl,
    Sign::Shr,
    Sign::PlusPlus,
    Sign::MinusMinus,
    Sign::LeftParen,
    Sign::RightParen,
    Sign::LeftBrace,
    Sign::RightBrace,
    Sign::LeftBracket,
    Sign::RightBracket,
    Sign::Semicolon,
    Sign::Comma,
    Sign::Assign,
    Sign::Question,
    Sign::Colon,
    Sign::Or,
    Sign::Xor,
    Sign::And,
    Sign::Less,
    Sign::Greater,
    Sign::Plus,
    Sign::Minus,
    Sign::Star,
    Sign::Slash,
    Sign::Percent,
    Sign::Not,
    Sign::Tilde,
];

/// The reserved words.
pub const WORDS: [Word; 38] = [
    Word::Extern,
    Word::Const,
    Word::Int,
    Word::Void,
    Word::Static,
    Word::Inline,
    Word::Char,
    Word::If,
    Word::Else,
    Word::For,
    Word::Return,
    Word::Main,
    Word::Argc,
    Word::Argv,
    Word::OpSet,
    Word::OpMap,
    Word::OpDat,
    Word::OpInit,
    Word::OpExit,
    Word::OpDeclSet,
    Word::OpDeclMap,
    Word::OpDeclDat,
    Word::OpDeclConst,
    Word::OpParLoop,
    Word::OpArgDat,
    Word::OpArgGbl,
    Word::OpPrintf,
    Word::OpPrintDatToTxtfile,
    Word::OpId,
    Word::OpRead,
    Word::OpWrite,
    Word::OpRw,
    Word::OpInc,
    Word::OpMin,
    Word::OpMax,
    Word::Min,
    Word::Max,
    Word::Abs,
];

/// The bytes of a sign.
pub fn sign_bytes(sign: Sign) -> &'static [u8]
    ensures { result.now ≡ sign_spelling sign }
{
    match sign {
        Sign::LeftParen => b"(",
        Sign::RightParen => b")",
        Sign::LeftBrace => b"{",
        Sign::RightBrace => b"}",
        Sign::LeftBracket => b"[",
        Sign::RightBracket => b"]",
        Sign::Semicolon => b";",
        Sign::Comma => b",",
        Sign::Assign => b"=",
        Sign::AddAssign => b"+=",
        Sign::SubAssign => b"-=",
        Sign::MulAssign => b"*=",
        Sign::DivAssign => b"/=",
        Sign::RemAssign => b"%=",
        Sign::ShlAssign => b"<<=",
        Sign::ShrAssign => b">>=",
        Sign::AndAssign => b"&=",
        Sign::OrAssign => b"|=",
        Sign::XorAssign => b"^=",
        Sign::Question => b"?",
        Sign::Colon => b":",
        Sign::OrOr => b"||",
        Sign::AndAnd => b"&&",
        Sign::Or => b"|",
        Sign::Xor => b"^",
        Sign::And => b"&",
        Sign::EqualEqual => b"==",
        Sign::NotEqual => b"!=",
        Sign::Less => b"<",
        Sign::Greater => b">",
        Sign::LessEqual => b"<=",
        Sign::GreaterEqual => b">=",
        Sign::Shl => b"<<",
        Sign::Shr => b">>",
        Sign::Plus => b"+",
        Sign::Minus => b"-",
        Sign::Star => b"*",
        Sign::Slash => b"/",
        Sign::Percent => b"%",
        Sign::Not => b"!",
        Sign::Tilde => b"~",
        Sign::PlusPlus => b"++",
        Sign::MinusMinus => b"--",
    }
}

/// The bytes of a reserved word.
pub fn word_bytes(word: Word) -> &'static [u8]
    ensures { result.now ≡ word_spelling word }
{
    match word {
        Word::Extern => b"extern",
        Word::Const => b"const",
        Word::Int => b"int",
        Word::Void => b"void",
        Word::Static => b"static",
        Word::Inline => b"inline",
        Word::Char => b"char",
        Word::If => b"if",
        Word::Else => b"else",
        Word::For => b"for",
        Word::Return => b"return",
        Word::Main => b"main",
        Word::Argc => b"argc",
        Word::Argv => b"argv",
        Word::OpSet => b"op_set",
        Word::OpMap => b"op_map",
        Word::OpDat => b"op_dat",
        Word::OpInit => b"op_init",
        Word::OpExit => b"op_exit",
        Word::OpDeclSet => b"op_decl_set",
        Word::OpDeclMap => b"op_decl_map",
        Word::OpDeclDat => b"op_decl_dat",
        Word::OpDeclConst => b"op_decl_const",
        Word::OpParLoop => b"op_par_loop",
        Word::OpArgDat => b"op_arg_dat",
        Word::OpArgGbl => b"op_arg_gbl",
        Word::OpPrintf => b"op_printf",
        Word::OpPrintDatToTxtfile => b"op_print_dat_to_txtfile",
        Word::OpId => b"OP_ID",
        Word::OpRead => b"OP_READ",
        Word::OpWrite => b"OP_WRITE",
        Word::OpRw => b"OP_RW",
        Word::OpInc => b"OP_INC",
        Word::OpMin => b"OP_MIN",
        Word::OpMax => b"OP_MAX",
        Word::Min => b"MIN",
        Word::Max => b"MAX",
        Word::Abs => b"ABS",
    }
}

/// The longest sign at the front.
pub fn longest_sign(bytes: &[u8]) -> Option<Sign>
    ensures { result ≡ find (λ s. starts_with nat_eq bytes.now (sign_spelling s)) SIGNS }
{
    SIGNS
        .iter()
        .copied()
        .find(|s| bytes.starts_with(sign_bytes(*s)))
}

/// The reserved word that these bytes are.
pub fn reserved(bytes: &[u8]) -> Option<Word>
    ensures { result ≡ find (λ w. bytes_eq bytes.now (word_spelling w)) WORDS }
{
    WORDS.iter().copied().find(|w| bytes == word_bytes(*w))
}
