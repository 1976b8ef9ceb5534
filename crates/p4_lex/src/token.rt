//! Tokens.

use rp_base::Bytes;

/// A token, and which bytes of the text spell it: those from `at` up to `end`, which isn't one of them.
#[derive(Debug, Drop)]
pub struct Token {
    pub at: u64,
    pub end: u64,
    pub lexeme: Lexeme,
}

/// What a token says.
#[derive(Debug, Drop)]
pub enum Lexeme {
    Name(Bytes),
    /// A number: its value, and its width of 1 to 128 bits where one is written.
    Number { value: u128, width: Option<u8> },
    Sign(Sign),
}

/// A word that can't be a name, or a sign.
#[derive(Clone, Copy, Debug, PartialEq, Eq)]
pub enum Sign {
    Action,
    Actions,
    Apply,
    Bit,
    Bool,
    Const,
    Control,
    Default,
    DefaultAction,
    Else,
    Entries,
    Exact,
    False,
    FlowKey,
    FlowArray,
    FlowCell,
    Header,
    If,
    In,
    Inout,
    Key,
    Lpm,
    Out,
    PacketIn,
    PacketOut,
    Parser,
    Select,
    Size,
    State,
    StdT,
    Struct,
    Table,
    Ternary,
    Transition,
    True,
    Typedef,
    RpSwitch,
    /// `{`
    OpenBrace,
    /// `}`
    CloseBrace,
    /// `(`
    Open,
    /// `)`
    Close,
    /// `[`
    OpenSlice,
    /// `]`
    CloseSlice,
    /// `<`
    Less,
    /// `>`
    More,
    /// `.`
    Dot,
    /// `,`
    Comma,
    /// `;`
    Semicolon,
    /// `:`
    Colon,
    /// `=`
    Assign,
    /// `?`
    Ask,
    /// `!`
    Not,
    /// `~`
    Complement,
    /// `+`
    Plus,
    /// `-`
    Minus,
    /// `|+|`
    SatPlus,
    /// `|-|`
    SatMinus,
    /// `&`
    BitAnd,
    /// `|`
    BitOr,
    /// `^`
    BitXor,
    /// `<<`
    ShiftLeft,
    /// `>>`
    ShiftRight,
    /// `++`
    Concat,
    /// `==`
    Equal,
    /// `!=`
    NotEqual,
    /// `<=`
    LessEqual,
    /// `>=`
    MoreEqual,
    /// `&&`
    And,
    /// `||`
    Or,
    /// `&&&`
    Mask,
    /// `_`
    Any,
}
