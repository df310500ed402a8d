// What a sign or a word begins or joins, and which statement or part of the file a token begins.

ghost use Rattle.std.specs.Prelude.{◌≡◌};
ghost use Rattle.c_reader.specs.Leads.{binary_of, lead_of, word_lead_of, assign_of, access_of, stmt_lead_of, host_word_lead_of};
ghost use Rattle.c_reader.specs.Leads.{host_lead_of, top_lead_of};
ghost use Rattle.c_tree.specs.Signs.{level_of};

use c_tree::{AccessWord, AssignOp, BinaryOp, Kind, MinMax, Sign, UnaryOp, Word};

/// What a sign at the front of an expression begins.
#[derive(Clone, Copy)]
pub enum Lead {
    Paren,
    Deref,
    Unary(UnaryOp),
    Nothing,
}

/// The binary operator of a sign.
pub fn binary(sign: Sign) -> Option<BinaryOp>
    ensures { result ≡ binary_of sign }
{
    match sign {
        Sign::OrOr => Some(BinaryOp::LogicalOr),
        Sign::AndAnd => Some(BinaryOp::LogicalAnd),
        Sign::Or => Some(BinaryOp::BitOr),
        Sign::Xor => Some(BinaryOp::BitXor),
        Sign::And => Some(BinaryOp::BitAnd),
        Sign::EqualEqual => Some(BinaryOp::Equal),
        Sign::NotEqual => Some(BinaryOp::NotEqual),
        Sign::Less => Some(BinaryOp::Less),
        Sign::Greater => Some(BinaryOp::Greater),
        Sign::LessEqual => Some(BinaryOp::LessEqual),
        Sign::GreaterEqual => Some(BinaryOp::GreaterEqual),
        Sign::Shl => Some(BinaryOp::ShiftLeft),
        Sign::Shr => Some(BinaryOp::ShiftRight),
        Sign::Plus => Some(BinaryOp::Add),
        Sign::Minus => Some(BinaryOp::Sub),
        Sign::Star => Some(BinaryOp::Mul),
        Sign::Slash => Some(BinaryOp::Div),
        Sign::Percent => Some(BinaryOp::Rem),
        _ => None,
    }
}

/// What the sign begins.
pub fn begun_by(sign: Sign) -> Lead
    ensures { result ≡ lead_of sign }
{
    match sign {
        Sign::LeftParen => Lead::Paren,
        Sign::Star => Lead::Deref,
        Sign::Minus => Lead::Unary(UnaryOp::Minus),
        Sign::Plus => Lead::Unary(UnaryOp::Plus),
        Sign::Not => Lead::Unary(UnaryOp::Not),
        Sign::Tilde => Lead::Unary(UnaryOp::Complement),
        _ => Lead::Nothing,
    }
}

/// How tightly an operator binds.
pub fn level(op: BinaryOp) -> usize
    ensures { result ≡ level_of op }
{
    match op {
        BinaryOp::LogicalOr => 1,
        BinaryOp::LogicalAnd => 2,
        BinaryOp::BitOr => 3,
        BinaryOp::BitXor => 4,
        BinaryOp::BitAnd => 5,
        BinaryOp::Equal | BinaryOp::NotEqual => 6,
        BinaryOp::Less | BinaryOp::Greater | BinaryOp::LessEqual | BinaryOp::GreaterEqual => 7,
        BinaryOp::ShiftLeft | BinaryOp::ShiftRight => 8,
        BinaryOp::Add | BinaryOp::Sub => 9,
        BinaryOp::Mul | BinaryOp::Div | BinaryOp::Rem => 10,
    }
}

/// What a word at the front of an expression begins.
#[derive(Clone, Copy)]
pub enum WordLead {
    Extremum(MinMax),
    Absolute,
    Nothing,
}

/// What the word begins.
pub fn begun_by_word(word: Word) -> WordLead
    ensures { result ≡ word_lead_of word }
{
    match word {
        Word::Min => WordLead::Extremum(MinMax::Min),
        Word::Max => WordLead::Extremum(MinMax::Max),
        Word::Abs => WordLead::Absolute,
        _ => WordLead::Nothing,
    }
}

/// What a token at the front of a statement of a kernel begins.
#[derive(Clone, Copy)]
pub enum StmtLead {
    Declaration,
    Block,
    Empty,
    Assignment,
    If,
    For,
    Nothing,
}

/// What the token begins.
pub fn stmt_begun_by(kind: &Kind) -> StmtLead
    ensures { result ≡ stmt_lead_of kind.now }
{
    match kind {
        Kind::Word(Word::Int) => StmtLead::Declaration,
        Kind::Word(Word::If) => StmtLead::If,
        Kind::Word(Word::For) => StmtLead::For,
        Kind::Sign(Sign::LeftBrace) => StmtLead::Block,
        Kind::Sign(Sign::Semicolon) => StmtLead::Empty,
        Kind::Sign(Sign::Star) => StmtLead::Assignment,
        Kind::Name(_) => StmtLead::Assignment,
        _ => StmtLead::Nothing,
    }
}

/// What a token at the front of a call of the library begins.
#[derive(Clone, Copy)]
pub enum CallLead {
    Init,
    DeclSet,
    DeclMap,
    DeclDat,
    DeclConst,
    ParLoop,
    Printf,
    PrintDat,
}

/// What a token at the front of a statement of `main` begins.
#[derive(Clone, Copy)]
pub enum HostLead {
    Declaration,
    Block,
    Empty,
    Assignment,
    If,
    For,
    Call(CallLead),
    Nothing,
}

/// What the token begins.
pub fn host_begun_by(kind: &Kind) -> HostLead
    ensures { result ≡ host_lead_of kind.now }
{
    match kind {
        Kind::Word(word) => host_begun_by_word(*word),
        Kind::Sign(Sign::LeftBrace) => HostLead::Block,
        Kind::Sign(Sign::Semicolon) => HostLead::Empty,
        Kind::Sign(Sign::Star) => HostLead::Assignment,
        Kind::Name(_) => HostLead::Assignment,
        _ => HostLead::Nothing,
    }
}

// What the word begins.
fn host_begun_by_word(word: Word) -> HostLead
    ensures { result ≡ host_word_lead_of word }
{
    match word {
        Word::Int | Word::Const => HostLead::Declaration,
        Word::If => HostLead::If,
        Word::For => HostLead::For,
        Word::OpInit => HostLead::Call(CallLead::Init),
        Word::OpSet => HostLead::Call(CallLead::DeclSet),
        Word::OpMap => HostLead::Call(CallLead::DeclMap),
        Word::OpDat => HostLead::Call(CallLead::DeclDat),
        Word::OpDeclConst => HostLead::Call(CallLead::DeclConst),
        Word::OpParLoop => HostLead::Call(CallLead::ParLoop),
        Word::OpPrintf => HostLead::Call(CallLead::Printf),
        Word::OpPrintDatToTxtfile => HostLead::Call(CallLead::PrintDat),
        _ => HostLead::Nothing,
    }
}

/// What a token at the front of a part of the file begins.
#[derive(Clone, Copy)]
pub enum TopLead {
    Extern,
    Declaration,
    Kernel,
    Nothing,
}

/// What the token begins.
pub fn top_begun_by(kind: &Kind) -> TopLead
    ensures { result ≡ top_lead_of kind.now }
{
    match kind {
        Kind::Word(Word::Extern) => TopLead::Extern,
        Kind::Word(Word::Int) => TopLead::Declaration,
        Kind::Word(Word::Const) => TopLead::Declaration,
        Kind::Word(Word::Static) => TopLead::Kernel,
        Kind::Word(Word::Inline) => TopLead::Kernel,
        Kind::Word(Word::Void) => TopLead::Kernel,
        _ => TopLead::Nothing,
    }
}

/// The operator of a sign of assignment.
pub fn assign(sign: Sign) -> Option<AssignOp>
    ensures { result ≡ assign_of sign }
{
    match sign {
        Sign::Assign => Some(AssignOp::Set),
        Sign::AddAssign => Some(AssignOp::Add),
        Sign::SubAssign => Some(AssignOp::Sub),
        Sign::MulAssign => Some(AssignOp::Mul),
        Sign::DivAssign => Some(AssignOp::Div),
        Sign::RemAssign => Some(AssignOp::Rem),
        Sign::ShlAssign => Some(AssignOp::ShiftLeft),
        Sign::ShrAssign => Some(AssignOp::ShiftRight),
        Sign::AndAssign => Some(AssignOp::BitAnd),
        Sign::OrAssign => Some(AssignOp::BitOr),
        Sign::XorAssign => Some(AssignOp::BitXor),
        _ => None,
    }
}

/// The access of a word.
pub fn access(word: Word) -> Option<AccessWord>
    ensures { result ≡ access_of word }
{
    match word {
        Word::OpRead => Some(AccessWord::Read),
        Word::OpWrite => Some(AccessWord::Write),
        Word::OpRw => Some(AccessWord::Rw),
        Word::OpInc => Some(AccessWord::Inc),
        Word::OpMin => Some(AccessWord::Min),
        Word::OpMax => Some(AccessWord::Max),
        _ => None,
    }
}
