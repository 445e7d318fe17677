//! The numbers of operators, as `TokenKind::Op` has them.

/// `**=`
pub const POWER_ASSIGN: u8 = 0;
/// `//=`
pub const FLOOR_ASSIGN: u8 = 1;
/// `>>=`
pub const SHIFT_RIGHT_ASSIGN: u8 = 2;
/// `<<=`
pub const SHIFT_LEFT_ASSIGN: u8 = 3;
/// `**`
pub const POWER: u8 = 4;
/// `//`
pub const FLOOR: u8 = 5;
/// `<<`
pub const SHIFT_LEFT: u8 = 6;
/// `>>`
pub const SHIFT_RIGHT: u8 = 7;
/// `<=`
pub const LESS_EQUAL: u8 = 8;
/// `>=`
pub const GREATER_EQUAL: u8 = 9;
/// `==`
pub const EQUAL: u8 = 10;
/// `!=` and `<>`
pub const NOT_EQUAL: u8 = 11;
/// `+=`
pub const PLUS_ASSIGN: u8 = 13;
/// `-=`
pub const MINUS_ASSIGN: u8 = 14;
/// `*=`
pub const STAR_ASSIGN: u8 = 15;
/// `/=`
pub const SLASH_ASSIGN: u8 = 16;
/// `%=`
pub const PERCENT_ASSIGN: u8 = 17;
/// `&=`
pub const AMPERSAND_ASSIGN: u8 = 18;
/// `|=`
pub const BAR_ASSIGN: u8 = 19;
/// `^=`
pub const CARET_ASSIGN: u8 = 20;
/// `+`
pub const PLUS: u8 = 21;
/// `-`
pub const MINUS: u8 = 22;
/// `*`
pub const STAR: u8 = 23;
/// `/`
pub const SLASH: u8 = 24;
/// `%`
pub const PERCENT: u8 = 25;
/// `&`
pub const AMPERSAND: u8 = 26;
/// `|`
pub const BAR: u8 = 27;
/// `^`
pub const CARET: u8 = 28;
/// `~`
pub const TILDE: u8 = 29;
/// `<`
pub const LESS: u8 = 30;
/// `>`
pub const GREATER: u8 = 31;
/// `(`
pub const OPEN_ROUND: u8 = 32;
/// `)`
pub const CLOSE_ROUND: u8 = 33;
/// `[`
pub const OPEN_SQUARE: u8 = 34;
/// `]`
pub const CLOSE_SQUARE: u8 = 35;
/// `{`
pub const OPEN_BRACE: u8 = 36;
/// `}`
pub const CLOSE_BRACE: u8 = 37;
/// `,`
pub const COMMA: u8 = 38;
/// `:`
pub const COLON: u8 = 39;
/// `.`
pub const DOT: u8 = 40;
/// `;`
pub const SEMICOLON: u8 = 41;
/// `=`
pub const ASSIGN: u8 = 42;
/// `@`
pub const AT: u8 = 43;
/// The backquote.
pub const BACKQUOTE: u8 = 44;

/// Each operator with its number, the longer ones first.
pub const OPERATORS: [(&[u8], u8); 45] = [
    (b"**=", POWER_ASSIGN),
    (b"//=", FLOOR_ASSIGN),
    (b">>=", SHIFT_RIGHT_ASSIGN),
    (b"<<=", SHIFT_LEFT_ASSIGN),
    (b"**", POWER),
    (b"//", FLOOR),
    (b"<<", SHIFT_LEFT),
    (b">>", SHIFT_RIGHT),
    (b"<=", LESS_EQUAL),
    (b">=", GREATER_EQUAL),
    (b"==", EQUAL),
    (b"!=", NOT_EQUAL),
    (b"<>", NOT_EQUAL),
    (b"+=", PLUS_ASSIGN),
    (b"-=", MINUS_ASSIGN),
    (b"*=", STAR_ASSIGN),
    (b"/=", SLASH_ASSIGN),
    (b"%=", PERCENT_ASSIGN),
    (b"&=", AMPERSAND_ASSIGN),
    (b"|=", BAR_ASSIGN),
    (b"^=", CARET_ASSIGN),
    (b"+", PLUS),
    (b"-", MINUS),
    (b"*", STAR),
    (b"/", SLASH),
    (b"%", PERCENT),
    (b"&", AMPERSAND),
    (b"|", BAR),
    (b"^", CARET),
    (b"~", TILDE),
    (b"<", LESS),
    (b">", GREATER),
    (b"(", OPEN_ROUND),
    (b")", CLOSE_ROUND),
    (b"[", OPEN_SQUARE),
    (b"]", CLOSE_SQUARE),
    (b"{", OPEN_BRACE),
    (b"}", CLOSE_BRACE),
    (b",", COMMA),
    (b":", COLON),
    (b".", DOT),
    (b";", SEMICOLON),
    (b"=", ASSIGN),
    (b"@", AT),
    (b"`", BACKQUOTE),
];
