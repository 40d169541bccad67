//! Tests of `bx_lex`: whole texts, as a reader of the rules by hand would cut them.

use crate::asserts::{is_text_in, is_text_in_row};
use bx_lex::{LexFault, Token, TokenKind, Tokens, read_tokens};
use std::alloc::{AllocError, Global};
use std::test::Fail;

// Texts and their tokens, each by the letter of its kind with its places, and behind them the length
// of the text; or their first fault.
const TEXTS: &[(&[u8], &str)] = &[
    (b"", "=0"),
    (b" \t\n\r\x0c", "=5"),
    (b"\x0b", "BadByte(0)"),
    (b"a // b\nc", "w0-1 w7-8 =8"),
    (b"a // /* b", "w0-1 =9"),
    (b"//", "=2"),
    (b"/ /", "s0-1 s2-3 =3"),
    (b"/**/a", "w4-5 =5"),
    (b"/* a\n*/ */", "s8-9 s9-10 =10"),
    (b"/* /* */ a", "w9-10 =10"),
    (b"/*/ */a", "w6-7 =7"),
    (b"/*/", "OpenComment(0)"),
    (b"a /*", "OpenComment(2)"),
    (b"/* *", "OpenComment(0)"),
    (b"(*)", "s0-1 s1-2 s2-3 =3"),
    (b"(*) *)", "s0-1 s1-2 s2-3 s4-5 s5-6 =6"),
    (b"(**)", "=4"),
    (b"(* x *)a (*", "OpenAttribute(9)"),
    (b"(* keep", "OpenAttribute(0)"),
    (b"(* /* *)", "=8"),
    (b"/* (* */", "=8"),
    (b"azAZ_09$ _", "w0-8 w9-10 =10"),
    (b"$a", "s0-1 w1-2 =2"),
    (b"a@b`c", "w0-1 s1-2 w2-3 s3-4 w4-5 =5"),
    (b"[{", "s0-1 s1-2 =2"),
    (b"\\", "BadByte(0)"),
    (b"\\ ", "BadByte(0)"),
    (b"a \\\n", "BadByte(2)"),
    (b"\\a ", "e0-2 =3"),
    (b"a\\!~ b", "w0-1 e1-4 w5-6 =6"),
    (b"\\\\/*", "e0-4 =4"),
    (b"\\\x7f", "BadByte(0)"),
    (b"\\a\x7f", "BadByte(2)"),
    (b"\0", "BadByte(0)"),
    (b"a \0 \x80", "BadByte(2)"),
    (b"\x7f", "BadByte(0)"),
    (b"\xff", "BadByte(0)"),
    (b"0189", "n0-4 =4"),
    (b"/0:9", "s0-1 n1-2 s2-3 n3-4 =4"),
    (b"12_3", "n0-2 w2-4 =4"),
    (b"8'hFF", "n0-5 =5"),
    (b"8 'hFF", "n0-1 s2-3 w3-6 =6"),
    (b"1'b", "n0-3 =3"),
    (b"1'", "n0-1 s1-2 =2"),
    (b"1'x0", "n0-1 s1-2 w2-4 =4"),
    (b"1'b0_zZ9$", "n0-8 s8-9 =9"),
    (b"1'B1 2'o3 3'O4 4'd5", "n0-4 n5-9 n10-14 n15-19 =19"),
    (b"5'D6 6'h7 7'H8", "n0-4 n5-9 n10-14 =14"),
    (b"1'd1'd2", "n0-4 s4-5 w5-7 =7"),
    (b"~^", "s0-2 =2"),
    (b"^~", "s0-2 =2"),
    (b"~^~", "s0-2 s2-3 =3"),
    (b"~~^", "s0-1 s1-3 =3"),
    (b"^^~^", "s0-1 s1-3 s3-4 =4"),
    (b"~ ^", "s0-1 s2-3 =3"),
    (b"(),;=~&", "s0-1 s1-2 s2-3 s3-4 s4-5 s5-6 s6-7 =7"),
    (
        b"|}#?.+-*%<>!'\"",
        "s0-1 s1-2 s2-3 s3-4 s4-5 s5-6 s6-7 s7-8 s8-9 s9-10 s10-11 s11-12 s12-13 s13-14 =14",
    ),
    (
        b"module top ( \\a[0] , b, c, y );",
        "w0-6 w7-10 s11-12 e13-18 s19-20 w21-22 s22-23 w24-25 s25-26 w27-28 s29-30 s30-31 =31",
    ),
    (
        b"module m(input [1:0] a, output y);",
        "w0-6 w7-8 s8-9 w9-14 s15-16 n16-17 s17-18 n18-19 s19-20 w21-22 s22-23 w24-30 w31-32 s32-33 s33-34 =34",
    ),
];

#[test]
fn texts_are_cut_by_the_rules(rt: HostRuntime) -> Result<(), Fail> {
    for (row, &(text, wanted)) in TEXTS.iter().enumerate() {
        let line = shown(rt.alloc(), text)?;
        is_text_in_row(&rt, row, line.as_str(), wanted);
    }
    Ok(())
}

// What a text reads as, in the letters of the table.
fn shown(alloc: Global, text: &[u8]) -> Result<String, AllocError> {
    match read_tokens(alloc, text) {
        Ok(tokens) => shown_tokens(alloc, &tokens),
        Err(fault) => format!(in alloc; "{fault:?}"),
    }
}

fn shown_tokens(alloc: Global, tokens: &Tokens) -> Result<String, AllocError> {
    let mut line = String::new(alloc);
    for k in 0..tokens.len() {
        push_token(alloc, &mut line, tokens.token(k))?;
    }
    let end = format!(in alloc; "={}", tokens.end())?;
    line.push_str(end.as_str())?;
    Ok(line)
}

fn push_token(alloc: Global, line: &mut String, token: Token) -> Result<(), AllocError> {
    let letter = letter_of(token.kind);
    let word = format!(in alloc; "{letter}{}-{} ", token.start, token.end)?;
    line.push_str(word.as_str())
}

fn letter_of(kind: TokenKind) -> char {
    match kind {
        TokenKind::Word => 'w',
        TokenKind::Escaped => 'e',
        TokenKind::Number => 'n',
        TokenKind::Symbol => 's',
    }
}

const MESSAGES: &[(LexFault, &str)] = &[
    (LexFault::BadByte(3), "no token begins at byte 3"),
    (
        LexFault::OpenComment(0),
        "the comment at byte 0 doesn't end",
    ),
    (
        LexFault::OpenAttribute(7),
        "the attribute at byte 7 doesn't end",
    ),
    (LexFault::NoMemory, "out of memory"),
];

#[test]
fn a_fault_says_what_and_where(rt: HostRuntime) -> Result<(), Fail> {
    for &(fault, wanted) in MESSAGES {
        let line = format!(in rt.alloc(); "{fault}")?;
        is_text_in(&rt, wanted, line.as_str(), wanted);
    }
    Ok(())
}
