//! What the lexer makes of small texts, however they are cut.
ghost use Rattle.std.specs.Prelude.{◌≡◌, false};

use crate::{LexStop, Lexer, Next, Sign, Signs, Token};
use jl_model::{Code, Scalar};
use std::alloc::{AllocError, Global};
use std::process::Abort;
use std::test::Fail;

/// Writes a byte string, whose bytes needn't be UTF-8.
fn show_bytes(out: &mut String, bytes: &[u8]) -> Result<(), AllocError> {
    match std::str::from_utf8(bytes) {
        Ok(text) => out.push_str(text),
        Err(_) => out.push_str("?"),
    }
}

fn show_scalar(out: &mut String, scalar: &Scalar) -> Result<(), AllocError> {
    match scalar {
        Scalar::Null => out.push_str("null"),
        Scalar::Bool(true) => out.push_str("true"),
        Scalar::Bool(false) => out.push_str("false"),
        Scalar::Number(text) => {
            out.push_str("#")?;
            show_bytes(out, text.bytes())
        }
        Scalar::Str(text) => {
            out.push_str("'")?;
            show_bytes(out, text.bytes())
        }
    }
}

fn show_place(out: &mut String, mark: &str, at: u64) -> Result<(), AllocError> {
    out.push_str(mark)?;
    write!(out, "{at} ")
}

fn show_token(out: &mut String, token: &Token) -> Result<(), AllocError> {
    match token {
        Token::OpenObject { at } => show_place(out, "{", *at),
        Token::CloseObject { at } => show_place(out, "}", *at),
        Token::OpenArray { at } => show_place(out, "[", *at),
        Token::CloseArray { at } => show_place(out, "]", *at),
        Token::Key { at, name } => {
            show_bytes(out, name.bytes())?;
            show_place(out, ":", *at)
        }
        Token::Value { at, scalar } => {
            show_scalar(out, scalar)?;
            show_place(out, "@", *at)
        }
    }
}

fn show_some(out: &mut String, token: &Option<Token>) -> Result<(), AllocError> {
    match token {
        Some(token) => show_token(out, token),
        None => Ok(()),
    }
}

fn code_name(code: Code) -> &'static str {
    match code {
        Code::Syntax => "syntax",
        Code::Utf8 => "utf8",
        Code::Truncated => "truncated",
        Code::DuplicateKey => "duplicate key",
        Code::TooDeep => "too deep",
        Code::TooLong => "too long",
        _ => "another code",
    }
}

fn show_stop(out: &mut String, stop: LexStop) -> Result<(), AllocError> {
    match stop {
        LexStop::Refused(fault) => {
            let name = code_name(fault.code);
            let at = fault.at;
            write!(out, "{name} at {at}")
        }
        LexStop::NoMemory => out.push_str("no memory"),
    }
}

/// How a piece is given to the lexer.
#[derive(Clone, Copy)]
enum By {
    Bytes,
    /// By runs, and single bytes between them.
    Runs,
    Tokens,
}

/// Gives a piece to the lexer, by bytes and perhaps runs. Says whether it goes on.
fn feed_bytes(
    lexer: &mut Lexer,
    alloc: Global,
    piece: &[u8],
    by_runs: bool,
    out: &mut String,
) -> Result<bool, AllocError>
    requires { lexer.old.ended ≡ false }
    ensures { lexer.new.ended ≡ false }
{
    let mut next = 0;
    while next < piece.len() {
        if by_runs {
            let Ok(count) = lexer.run(&piece[next..]) else {
                return Ok(false);
            };
            next += count;
            if next >= piece.len() {
                break;
            }
        }
        match lexer.step(alloc, piece[next]) {
            Ok(step) => {
                show_some(out, &step.first)?;
                show_some(out, &step.second)?;
            }
            Err(stop) => {
                show_stop(out, stop)?;
                return Ok(false);
            }
        }
        next += 1;
    }
    Ok(true)
}

fn show_text(out: &mut String, lexer: &Lexer, before: &str, mark: &str) -> Result<(), AllocError> {
    out.push_str(before)?;
    show_bytes(out, lexer.text().bytes())?;
    show_place(out, mark, lexer.token_place())
}

fn show_word(out: &mut String, lexer: &Lexer, word: &str) -> Result<(), AllocError> {
    out.push_str(word)?;
    show_place(out, "@", lexer.token_place())
}

/// Writes what the byte at a place completes.
fn show_signs(out: &mut String, lexer: &Lexer, signs: Signs, at: u64) -> Result<(), AllocError> {
    if signs.number {
        show_text(out, lexer, "#", "@")?;
    }
    match signs.sign {
        Sign::Nothing => Ok(()),
        Sign::OpenObject => show_place(out, "{", at),
        Sign::CloseObject => show_place(out, "}", at),
        Sign::OpenArray => show_place(out, "[", at),
        Sign::CloseArray => show_place(out, "]", at),
        Sign::Key => show_text(out, lexer, "", ":"),
        Sign::Text => show_text(out, lexer, "'", "@"),
        Sign::Null => show_word(out, lexer, "null"),
        Sign::True => show_word(out, lexer, "true"),
        Sign::False => show_word(out, lexer, "false"),
    }
}

/// Gives a piece to the lexer token by token. Says whether it goes on.
fn feed_tokens(
    lexer: &mut Lexer,
    alloc: Global,
    piece: &[u8],
    out: &mut String,
) -> Result<bool, AllocError>
    requires { lexer.old.ended ≡ false }
    ensures { lexer.new.ended ≡ false }
{
    let mut read = 0;
    while read < piece.len() {
        match lexer.next(alloc, &piece[read..]) {
            Next::Nothing => return Ok(true),
            Next::Completes { count, signs } => {
                read += count;
                show_signs(out, lexer, signs, lexer.place().saturating_sub(1))?;
            }
            Next::Stopped { .. } => {
                if let Some(stop) = lexer.state().stopped {
                    show_stop(out, stop)?;
                }
                return Ok(false);
            }
        }
    }
    Ok(true)
}

/// Gives a piece to the lexer. Says whether it goes on.
fn feed(
    lexer: &mut Lexer,
    alloc: Global,
    piece: &[u8],
    by: By,
    out: &mut String,
) -> Result<bool, AllocError>
    requires { lexer.old.ended ≡ false }
    ensures { lexer.new.ended ≡ false }
{
    match by {
        By::Bytes => feed_bytes(lexer, alloc, piece, false, out),
        By::Runs => feed_bytes(lexer, alloc, piece, true, out),
        By::Tokens => feed_tokens(lexer, alloc, piece, out),
    }
}

/// What the lexer makes of a text that comes in two pieces.
fn read_cut(alloc: Global, text: &[u8], cut: usize, by: By) -> Result<String, AllocError> {
    let mut out = String::new(alloc);
    let mut lexer = Lexer::new(alloc, 0);
    let cut = cut.min(text.len());
    if !feed(&mut lexer, alloc, &text[..cut], by, &mut out)? {
        return Ok(out);
    }
    if !feed(&mut lexer, alloc, &text[cut..], by, &mut out)? {
        return Ok(out);
    }
    match lexer.finish(alloc) {
        Ok(token) => show_some(&mut out, &token)?,
        Err(stop) => show_stop(&mut out, stop)?,
    }
    Ok(out)
}

/// Reads the text byte by byte, and cut at each place by runs and by tokens, and compares what was
/// read.
fn check(rt: &impl Abort, alloc: Global, text: &[u8], want: &str) -> Result<(), Fail> {
    let bytes = read_cut(alloc, text, 0, By::Bytes)?;
    let tokens = read_cut(alloc, text, 0, By::Tokens)?;
    assert_eq!(rt; tokens.as_str(), want, "by tokens: {text:?}");
    assert_eq!(rt; bytes.as_str(), want, "by bytes: {text:?}");
    for cut in 0..text.len() {
        let by_runs = read_cut(alloc, text, cut, By::Runs)?;
        assert_eq!(rt; by_runs.as_str(), want, "by runs, cut at {cut}: {text:?}");
        let by_tokens = read_cut(alloc, text, cut, By::Tokens)?;
        assert_eq!(rt;
            by_tokens.as_str(),
            want,
            "by tokens, cut at {cut}: {text:?}"
        );
    }
    Ok(())
}

#[test]
fn numbers(rt: HostRuntime) -> Result<(), Fail> {
    let rows: [(&[u8], &str); 24] = [
        (b"0", "#0@0 "),
        (b"-0", "#-0@0 "),
        (b"12", "#12@0 "),
        (b"1.50", "#1.50@0 "),
        (b"1e5", "#1e5@0 "),
        (b"1E+5", "#1E+5@0 "),
        (b"-1.25e-10", "#-1.25e-10@0 "),
        (b"0.0e0", "#0.0e0@0 "),
        (b"[1,-2]", "[0 #1@1 #-2@3 ]5 "),
        (b"01", "syntax at 1"),
        (b"[01]", "[0 syntax at 2"),
        (b"-01", "syntax at 2"),
        (b"1.", "truncated at 2"),
        (b"[1.]", "[0 syntax at 1"),
        (b"-", "truncated at 1"),
        (b"-a", "syntax at 0"),
        (b"--1", "syntax at 0"),
        (b"1e", "truncated at 2"),
        (b"1ex", "syntax at 0"),
        (b"1e+]", "syntax at 0"),
        (b"+1", "syntax at 0"),
        (b".5", "syntax at 0"),
        (b"1.2.3", "syntax at 3"),
        (b"1 2", "#1@0 syntax at 2"),
    ];
    for (text, want) in rows {
        check(&rt, rt.alloc(), text, want)?;
    }
    Ok(())
}

#[test]
fn words(rt: HostRuntime) -> Result<(), Fail> {
    let rows: [(&[u8], &str); 10] = [
        (b"null", "null@0 "),
        (b" true ", "true@1 "),
        (b"false", "false@0 "),
        (b"[true,false,null]", "[0 true@1 false@6 null@12 ]16 "),
        (b"nul", "truncated at 3"),
        (b"nulx", "syntax at 0"),
        (b"[nan]", "[0 syntax at 1"),
        (b"truex", "true@0 syntax at 4"),
        (b"tru e", "syntax at 0"),
        (b"True", "syntax at 0"),
    ];
    for (text, want) in rows {
        check(&rt, rt.alloc(), text, want)?;
    }
    Ok(())
}

#[test]
fn strings(rt: HostRuntime) -> Result<(), Fail> {
    let rows: [(&[u8], &str); 22] = [
        (b"\"\"", "'@0 "),
        (b"\"a b\"", "'a b@0 "),
        (
            b"\"\\\"\\\\\\/\\b\\f\\n\\r\\t\"",
            "'\"\\/\u{8}\u{c}\n\r\t@0 ",
        ),
        (b"\"\\u0041\\u00e9\\u20AC\"", "'A\u{e9}\u{20ac}@0 "),
        (b"\"\\ud83d\\ude00\"", "'\u{1f600}@0 "),
        (b"\"\\uD83D\\uDE00x\"", "'\u{1f600}x@0 "),
        (
            b"\"\xc3\xa9\xe2\x82\xac\xf0\x9f\x98\x80\"",
            "'\u{e9}\u{20ac}\u{1f600}@0 ",
        ),
        (b"\"\x7f\"", "'\u{7f}@0 "),
        (b"\"\\ud83d\"", "syntax at 0"),
        (b"\"\\ud83dx\"", "syntax at 0"),
        (b"\"\\ud83d\\n\"", "syntax at 0"),
        (b"\"\\ud83d\\u0041\"", "syntax at 0"),
        (b"\"\\ude00\"", "syntax at 0"),
        (b"\"\\x\"", "syntax at 0"),
        (b"\"\\u12g4\"", "syntax at 0"),
        (b"\"a\x01\"", "syntax at 0"),
        (b"\"a\n\"", "syntax at 0"),
        (b"\"abc", "truncated at 4"),
        (b"\"abc\\u00", "truncated at 8"),
        (b"\"ab\\", "truncated at 4"),
        (b"\"\xc3", "truncated at 2"),
        (
            b"{\"http://a/p\":\"\\ud83d\"}",
            "{0 http://a/p:1 syntax at 14",
        ),
    ];
    for (text, want) in rows {
        check(&rt, rt.alloc(), text, want)?;
    }
    Ok(())
}

#[test]
fn utf8(rt: HostRuntime) -> Result<(), Fail> {
    let rows: [(&[u8], &str); 14] = [
        (b"\"\xff\"", "utf8 at 0"),
        (b"\"a\x80\"", "utf8 at 0"),
        (b"\"\xc0\x80\"", "utf8 at 0"),
        (b"\"\xc3\",1]", "utf8 at 0"),
        (b"[\"\xc3\",1]", "[0 utf8 at 1"),
        (b"\"\xe0\x80\x80\"", "utf8 at 0"),
        (b"\"\xed\xa0\x80\"", "utf8 at 0"),
        (b"\"\xf0\x80\x80\x80\"", "utf8 at 0"),
        (b"\"\xf4\x90\x80\x80\"", "utf8 at 0"),
        (b"\"\xe2\x82x\"", "utf8 at 0"),
        (b"[\"\\\xff\"]", "[0 utf8 at 1"),
        (b"[\"\\u00\xc3\xa9\"]", "[0 syntax at 1"),
        (b"\xef\xbb\xbf{}", "syntax at 0"),
        (b"[\xc3\xa9]", "[0 syntax at 1"),
    ];
    for (text, want) in rows {
        check(&rt, rt.alloc(), text, want)?;
    }
    Ok(())
}

/// How many bytes a run takes behind an opening quote.
fn run_count(alloc: Global, bytes: &[u8]) -> Result<Option<usize>, AllocError> {
    let mut lexer = Lexer::new(alloc, 0);
    match lexer.step(alloc, b'"') {
        Ok(_) => Ok(lexer.run(bytes).ok()),
        Err(_) => Ok(None),
    }
}

#[test]
fn runs(rt: HostRuntime) -> Result<(), Fail> {
    let rows: [(&[u8], usize); 12] = [
        (b"", 0),
        (b"abc\"d", 3),
        (b"ab\\n", 2),
        (b"a\x01", 1),
        (b"\x7f\n", 1),
        (b"\xc3\xa9x\"", 3),
        (b"x\xe2\x82\xac\xf0\x9f\x98\x80", 8),
        (b"x\xe2\x82\xac\xf0\x9f\x98", 4),
        (b"\xc3", 0),
        (b"a\xc3\"", 1),
        (b"ab\xff\xc3\xa9", 2),
        (b"ab\xed\xa0\x80", 2),
    ];
    for (bytes, want) in rows {
        assert_eq!(rt; run_count(rt.alloc(), bytes)?, Some(want), "{bytes:?}");
    }
    Ok(())
}

#[test]
fn structures(rt: HostRuntime) -> Result<(), Fail> {
    let rows: [(&[u8], &str); 26] = [
        (b"", "truncated at 0"),
        (b" \t\n\r", "truncated at 4"),
        (b"{}", "{0 }1 "),
        (b" [ ] ", "[1 ]3 "),
        (b"\x0c1", "syntax at 0"),
        (b"{\"a\":1}", "{0 a:1 #1@5 }6 "),
        (
            b"{ \"a\" : [ ] , \"b\" : { } }",
            "{0 a:2 [8 ]10 b:14 {20 }22 }24 ",
        ),
        (b"[1,]", "[0 #1@1 syntax at 3"),
        (b"[,1]", "[0 syntax at 1"),
        (b"[1 2]", "[0 #1@1 syntax at 3"),
        (b"[1}", "[0 syntax at 2"),
        (b"[}", "[0 syntax at 1"),
        (b"{]", "{0 syntax at 1"),
        (b"]", "syntax at 0"),
        (b"{}{}", "{0 }1 syntax at 2"),
        (b"{,}", "{0 syntax at 1"),
        (b"{1:2}", "{0 syntax at 1"),
        (b"{\"a\"1}", "{0 a:1 syntax at 4"),
        (b"{\"a\":}", "{0 a:1 syntax at 5"),
        (b"{\"a\":1,}", "{0 a:1 #1@5 syntax at 7"),
        (b"{\"a\":1 \"b\":2}", "{0 a:1 #1@5 syntax at 7"),
        (b"{\"a\":1", "{0 a:1 truncated at 6"),
        (b"{\"a\":1,\"\\u0061\":2}", "{0 a:1 #1@5 duplicate key at 7"),
        (
            b"{\"a\":{\"x\":1,\"\\u0078\":2}}",
            "{0 a:1 {5 x:6 #1@10 duplicate key at 12",
        ),
        (
            b"{\"a\":{\"a\":1},\"b\":{\"a\":1}}",
            "{0 a:1 {5 a:6 #1@10 }11 b:13 {17 a:18 #1@22 }23 }24 ",
        ),
        (
            b"{\"a\":1,\"b\":1,\"a\":1}",
            "{0 a:1 #1@5 b:7 #1@11 duplicate key at 13",
        ),
    ];
    for (text, want) in rows {
        check(&rt, rt.alloc(), text, want)?;
    }
    Ok(())
}

/// What the lexer makes of 256 opening brackets and this piece.
fn read_deep(alloc: Global, piece: &[u8], by: By) -> Result<String, AllocError> {
    let mut lexer = Lexer::new(alloc, 0);
    let mut out = String::new(alloc);
    if !feed(&mut lexer, alloc, [b'['; 256].as_slice(), by, &mut out)? {
        return Ok(out);
    }
    out.clear();
    if !feed(&mut lexer, alloc, piece, by, &mut out)? {
        return Ok(out);
    }
    out.clear();
    match lexer.finish(alloc) {
        Ok(_) => out.push_str("read")?,
        Err(stop) => show_stop(&mut out, stop)?,
    }
    Ok(out)
}

#[test]
fn depth(rt: HostRuntime) -> Result<(), Fail> {
    let rows: [(&[u8], &str); 4] = [
        (&[b']'; 256], "read"),
        (&[b']'; 255], "truncated at 511"),
        (b"[", "too deep at 256"),
        (b"{", "too deep at 256"),
    ];
    for (piece, want) in rows {
        for by in [By::Bytes, By::Tokens] {
            let read = read_deep(rt.alloc(), piece, by)?;
            assert_eq!(rt; read.as_str(), want);
        }
    }
    Ok(())
}

/// What the lexer makes of these bytes from this place on, or from 2^40 on.
fn read_from(alloc: Global, start: u64, text: &[u8], by: By) -> Result<String, AllocError> {
    let mut lexer = Lexer::new(alloc, start.min(1_099_511_627_776));
    let mut out = String::new(alloc);
    if !feed(&mut lexer, alloc, text, by, &mut out)? {
        out.push_str("; ")?;
        feed(&mut lexer, alloc, text, by, &mut out)?;
    }
    Ok(out)
}

#[test]
fn length(rt: HostRuntime) -> Result<(), Fail> {
    let rows: [(u64, &[u8], &str); 4] = [
        (1_099_511_627_774, b"[]", "[1099511627774 ]1099511627775 "),
        (0, b"[}", "[0 syntax at 1; syntax at 1"),
        (
            1_099_511_627_775,
            b"[]",
            "[1099511627775 too long at 1099511627776; too long at 1099511627776",
        ),
        (
            1_099_511_627_776,
            b"[",
            "too long at 1099511627776; too long at 1099511627776",
        ),
    ];
    for (start, text, want) in rows {
        for by in [By::Bytes, By::Tokens] {
            let read = read_from(rt.alloc(), start, text, by)?;
            assert_eq!(rt; read.as_str(), want);
        }
    }
    Ok(())
}

#[test]
fn weight_and_state(rt: HostRuntime) -> Result<(), Fail> {
    let mut lexer = Lexer::new(rt.alloc(), 0);
    let mut out = String::new(rt.alloc());
    assert!(rt;
        feed(
            &mut lexer,
            rt.alloc(),
            b"{\"ab\":{\"c\":\"\\u00e9",
            By::Runs,
            &mut out
        )?
    );
    assert_eq!(rt; lexer.open_len(), 10);
    assert_eq!(rt; lexer.state().reading.part.bytes(), b"\xc3\xa9".as_slice());
    Ok(())
}
