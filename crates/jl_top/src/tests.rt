//! What no clause says: that a run with ample memory reads. Each row was counted by hand.
ghost use Rattle.std.specs.Prelude.{◌<◌};

use super::reports::Report;
use super::top::run;
use jl_io::{MemPort, NoShelf};
use jl_model::{NoMemory, Text};
use std::alloc::Global;
use std::test::Fail;

const PAIR: &[u8] = br#"{"@id":"http://a/s","http://a/p":"x"}"#;

const DEEPEST: &[u8] =
    b"[[[[[[[[[[[[[[[[[[[[[[[[[[[[[[[[[[[[[[[[[[[[[[[[[[[[[[[[[[[[[[[[[[[[[[[[[[[[[[[[[[[[[[[[[[[[[[[[[[[[[[[[[[[[[[[[[[[[[[[[[[[[[[[[[[[[[[[[[[[[[[[[[[[[[[[[[[[[[[[[[[[[[[[[[[[[[[[[[[[[[[[[[[[[[[[[[[[[[[[[[[[[[[[[[[[[[[[[[[[[[[[[[[[[[[[[[[[[[[[[[[[[[[[[[[[[[[[[]]]]]]]]]]]]]]]]]]]]]]]]]]]]]]]]]]]]]]]]]]]]]]]]]]]]]]]]]]]]]]]]]]]]]]]]]]]]]]]]]]]]]]]]]]]]]]]]]]]]]]]]]]]]]]]]]]]]]]]]]]]]]]]]]]]]]]]]]]]]]]]]]]]]]]]]]]]]]]]]]]]]]]]]]]]]]]]]]]]]]]]]]]]]]]]]]]]]]]]]]]]]]]]]]]]]]]]]]]]]]]]]]]]]]]]]]]]]]]]]]]]]]]]]]]]]]]]]";

const TOO_DEEP: &[u8] =
    b"[[[[[[[[[[[[[[[[[[[[[[[[[[[[[[[[[[[[[[[[[[[[[[[[[[[[[[[[[[[[[[[[[[[[[[[[[[[[[[[[[[[[[[[[[[[[[[[[[[[[[[[[[[[[[[[[[[[[[[[[[[[[[[[[[[[[[[[[[[[[[[[[[[[[[[[[[[[[[[[[[[[[[[[[[[[[[[[[[[[[[[[[[[[[[[[[[[[[[[[[[[[[[[[[[[[[[[[[[[[[[[[[[[[[[[[[[[[[[[[[[[[[[[[[[[[[[[[[[";

/// What a row shows, what goes in, and all that comes out. The lines may come in any order.
#[derive(Clone, Copy)]
struct Row {
    shows: &'static str,
    base: &'static str,
    input: &'static [u8],
    status: u8,
    lines: &'static str,
    said: &'static str,
}

/// A row that ends well.
fn read(shows: &'static str, input: &'static [u8], lines: &'static str) -> Row {
    based("", shows, input, lines)
}

/// The same with a base.
fn based(
    base: &'static str,
    shows: &'static str,
    input: &'static [u8],
    lines: &'static str,
) -> Row {
    Row {
        shows,
        base,
        input,
        status: 0,
        lines,
        said: "",
    }
}

/// A row with a fault, and the lines that come before it.
fn refused(
    shows: &'static str,
    input: &'static [u8],
    lines: &'static str,
    said: &'static str,
) -> Row {
    Row {
        shows,
        base: "",
        input,
        status: 1,
        lines,
        said,
    }
}

fn words_of(alloc: Global, words: &[&str]) -> Result<Vec<Text>, NoMemory> {
    let mut texts = Vec::new(alloc);
    for word in words {
        let text = Text::from_bytes(alloc, word.as_bytes())?;
        if texts.push(text).is_err() {
            return Err(NoMemory);
        }
    }
    Ok(texts)
}

/// Whether both have the same lines, in any order.
fn are_same_lines(lines: &str, others: &str) -> bool {
    lines.lines().count() == others.lines().count()
        && lines
            .lines()
            .all(|line| others.lines().any(|other| other == line))
}

/// Whether the report and the port's output are as the row says.
fn is_met(row: &Row, report: &Report, output: &[u8]) -> bool {
    let Ok(output) = std::str::from_utf8(output) else {
        return false;
    };
    report.status == row.status
        && report.quads == row.lines.lines().count() as u64
        && are_same_lines(output, row.lines)
}

/// Whether the words read the row's input, in pieces of this size, as the row says.
fn holds_with(alloc: Global, words: &[&str], row: &Row, piece: usize) -> Result<bool, NoMemory>
    requires { 0 < piece }
{
    let words = words_of(alloc, words)?;
    let mut port = MemPort::new(alloc, row.input, piece, 4096)?;
    let mut shelf = NoShelf::new();
    let report = run(alloc, words.as_slice(), &mut port, &mut shelf);
    Ok(is_met(row, &report, port.output()) && port.said() == Some(row.said.as_bytes()))
}

fn holds(alloc: Global, row: &Row, piece: usize) -> Result<bool, NoMemory>
    requires { 0 < piece }
{
    if row.base.is_empty() {
        holds_with(alloc, &["read", "--order", "streaming"], row, piece)
    } else {
        let words = ["read", "--base", row.base, "--order", "streaming"];
        holds_with(alloc, &words, row, piece)
    }
}

/// Whether the row holds as a whole, byte by byte, and cut anywhere, if it is short.
fn holds_cut(alloc: Global, row: &Row) -> Result<bool, NoMemory> {
    if !(holds(alloc, row, 65536)? && holds(alloc, row, 1)?) {
        return Ok(false);
    }
    let cuts = row.input.len().min(LONGEST_CUT);
    for piece in 2..=cuts {
        if !holds(alloc, row, piece)? {
            return Ok(false);
        }
    }
    Ok(true)
}

/// A longer input isn't cut everywhere.
const LONGEST_CUT: usize = 64;

#[test]
fn reads_nodes(rt: HostRuntime) -> Result<(), Fail> {
    let rows = [
        read(
            "a member",
            br#"{"@id":"http://a/s","http://a/p":"x"}"#,
            "<http://a/s> <http://a/p> \"x\" .\n",
        ),
        read("an empty object", br#"{}"#, ""),
        read("an empty array", br#"[]"#, ""),
        read("a node without a property", br#"{"@id":"http://a/s"}"#, ""),
        read(
            "a node in a node, both without a name",
            br#"{"http://a/p":{"http://a/q":1}}"#,
            "_:jlb0 <http://a/p> _:jlb14 .\n_:jlb14 <http://a/q> \"1\"^^<http://www.w3.org/2001/XMLSchema#integer> .\n",
        ),
        read(
            "an array of nodes",
            br#"[{"@id":"http://a/s","http://a/p":"x"},{"@id":"http://a/t","http://a/p":"y"}]"#,
            "<http://a/s> <http://a/p> \"x\" .\n<http://a/t> <http://a/p> \"y\" .\n",
        ),
        read(
            "nodes three deep",
            br#"{"@id":"http://a/s","http://a/p":{"@id":"http://a/o","http://a/q":{"@id":"http://a/r"}}}"#,
            "<http://a/s> <http://a/p> <http://a/o> .\n<http://a/o> <http://a/q> <http://a/r> .\n",
        ),
        read(
            "arrays in an array",
            br#"{"@id":"http://a/s","http://a/p":["x",["y",[true]],[]]}"#,
            "<http://a/s> <http://a/p> \"x\" .\n<http://a/s> <http://a/p> \"y\" .\n<http://a/s> <http://a/p> \"true\"^^<http://www.w3.org/2001/XMLSchema#boolean> .\n",
        ),
        read(
            "an empty node",
            br#"{"@id":"http://a/s","http://a/p":{}}"#,
            "<http://a/s> <http://a/p> _:jlb33 .\n",
        ),
        read(
            "a type before the name",
            br#"{"@type":"http://a/T","@id":"http://a/s","http://a/p":"x"}"#,
            "<http://a/s> <http://www.w3.org/1999/02/22-rdf-syntax-ns#type> <http://a/T> .\n<http://a/s> <http://a/p> \"x\" .\n",
        ),
        read(
            "two types",
            br#"{"@id":"http://a/s","@type":["http://a/T","http://a/U"]}"#,
            "<http://a/s> <http://www.w3.org/1999/02/22-rdf-syntax-ns#type> <http://a/T> .\n<http://a/s> <http://www.w3.org/1999/02/22-rdf-syntax-ns#type> <http://a/U> .\n",
        ),
        read(
            "labels, of which two are renamed",
            br#"{"@id":"_:jlb0","http://a/p":[{"@id":"_:b1"},{"@id":"_:a b"}]}"#,
            "_:jlx6a6c6230 <http://a/p> _:b1 .\n_:jlx6a6c6230 <http://a/p> _:jlx612062 .\n",
        ),
        read(
            "a label as a type",
            br#"{"@id":"http://a/s","@type":"_:b"}"#,
            "<http://a/s> <http://www.w3.org/1999/02/22-rdf-syntax-ns#type> _:b .\n",
        ),
        read(
            "null and no items",
            br#"{"@id":"http://a/s","http://a/p":null,"http://a/q":[]}"#,
            "",
        ),
        read(
            "an index behind a property",
            br#"{"@id":"http://a/s","http://a/p":"x","@index":"i"}"#,
            "<http://a/s> <http://a/p> \"x\" .\n",
        ),
        read(
            "white space and escapes",
            b" {\t\"\\u0040id\" :\n\"http:\\/\\/a\\/s\" ,\r\n\"http://a/p\": \"\\u0078\" } \n",
            "<http://a/s> <http://a/p> \"x\" .\n",
        ),
        read(
            "an IRI with two signs of a fragment",
            br#"{"@id":"http://a/s#a#b","http://a/p":"x"}"#,
            "<http://a/s#a#b> <http://a/p> \"x\" .\n",
        ),
        read("arrays as deep as may be", DEEPEST, ""),
    ];
    for row in rows {
        assert!(rt; holds_cut(rt.alloc(), &row)?, "{}", row.shows);
    }
    Ok(())
}

#[test]
fn drops_what_has_no_meaning(rt: HostRuntime) -> Result<(), Fail> {
    let rows = [
        read("a scalar as the document", br#""x""#, ""),
        read("a number that only the end completes", br#"12"#, ""),
        read(
            "a number that is not whole, outside of properties",
            br#"1.5"#,
            "",
        ),
        read(
            "a value object outside of properties",
            br#"[{"@value":"x"},[{"@value":1.5}]]"#,
            "",
        ),
        read("a number under a dropped key", br#"{"u":1.5}"#, ""),
        read(
            "containers under dropped keys",
            br#"{"@id":"http://a/s","p":{"@graph":[{"@id":5}]},"@foo":[{"@id":5}],"http://a/p":"x"}"#,
            "<http://a/s> <http://a/p> \"x\" .\n",
        ),
        read(
            "a node under a property that is a label",
            br#"{"@id":"http://a/s","_:p":{"@id":"http://a/o","http://a/q":"x"}}"#,
            "<http://a/o> <http://a/q> \"x\" .\n",
        ),
        read(
            "a name that is no IRI",
            br#"{"@id":"x y","http://a/p":{"@id":"http://a/o","http://a/q":"x"}}"#,
            "<http://a/o> <http://a/q> \"x\" .\n",
        ),
        read(
            "a reference that is no IRI",
            br#"{"@id":"http://a/s","http://a/p":[{"@id":"r"},"x"]}"#,
            "<http://a/s> <http://a/p> \"x\" .\n",
        ),
        read(
            "a relative type",
            br#"{"@id":"http://a/s","@type":"T","http://a/p":"x"}"#,
            "<http://a/s> <http://a/p> \"x\" .\n",
        ),
        read(
            "an object of a language alone",
            br#"{"@id":"http://a/s","http://a/p":{"@language":"en"}}"#,
            "",
        ),
    ];
    for row in rows {
        assert!(rt; holds_cut(rt.alloc(), &row)?, "{}", row.shows);
    }
    Ok(())
}

#[test]
fn reads_values(rt: HostRuntime) -> Result<(), Fail> {
    let rows = [
        read(
            "value objects and numbers",
            br#"{"@id":"http://a/s","http://a/p":[{"@type":"http://www.w3.org/2001/XMLSchema#double","@value":1234},true,-0,0,{"@language":"en","@value":"x"},{"@value":"y","@type":"http://a/d"}]}"#,
            "<http://a/s> <http://a/p> \"1.234E3\"^^<http://www.w3.org/2001/XMLSchema#double> .\n<http://a/s> <http://a/p> \"true\"^^<http://www.w3.org/2001/XMLSchema#boolean> .\n<http://a/s> <http://a/p> \"0\"^^<http://www.w3.org/2001/XMLSchema#integer> .\n<http://a/s> <http://a/p> \"0\"^^<http://www.w3.org/2001/XMLSchema#integer> .\n<http://a/s> <http://a/p> \"x\"@en .\n<http://a/s> <http://a/p> \"y\"^^<http://a/d> .\n",
        ),
        read(
            "whole numbers",
            br#"{"@id":"http://a/s","http://a/p":[-7,10,-0,999999999999999999999]}"#,
            "<http://a/s> <http://a/p> \"-7\"^^<http://www.w3.org/2001/XMLSchema#integer> .\n<http://a/s> <http://a/p> \"10\"^^<http://www.w3.org/2001/XMLSchema#integer> .\n<http://a/s> <http://a/p> \"0\"^^<http://www.w3.org/2001/XMLSchema#integer> .\n<http://a/s> <http://a/p> \"999999999999999999999\"^^<http://www.w3.org/2001/XMLSchema#integer> .\n",
        ),
        read(
            "tags keep their case",
            br#"{"@id":"http://a/s","http://a/p":[{"@value":"x","@language":"EN"},{"@value":"y","@language":"e n"}]}"#,
            "<http://a/s> <http://a/p> \"x\"@EN .\n",
        ),
        read(
            "a value object of a string alone",
            br#"{"@id":"http://a/s","http://a/p":{"@value":"x"}}"#,
            "<http://a/s> <http://a/p> \"x\" .\n",
        ),
        read(
            "a value object of a boolean",
            br#"{"@id":"http://a/s","http://a/p":{"@value":false}}"#,
            "<http://a/s> <http://a/p> \"false\"^^<http://www.w3.org/2001/XMLSchema#boolean> .\n",
        ),
        read(
            "a boolean with a datatype",
            br#"{"@id":"http://a/s","http://a/p":{"@type":"http://www.w3.org/2001/XMLSchema#double","@value":true}}"#,
            "<http://a/s> <http://a/p> \"true\"^^<http://www.w3.org/2001/XMLSchema#double> .\n",
        ),
        read(
            "a null value, whatever stands beside it",
            br#"{"@id":"http://a/s","http://a/p":{"@value":null,"@type":"x"}}"#,
            "",
        ),
        read(
            "a direction alone",
            br#"{"@id":"http://a/s","http://a/p":{"@value":"x","@direction":"rtl","@index":"i"}}"#,
            "<http://a/s> <http://a/p> \"x\" .\n",
        ),
        read(
            "a character of two bytes",
            b"{\"@id\":\"http://a/s\",\"http://a/p\":\"\xc3\xa9\"}",
            "<http://a/s> <http://a/p> \"\u{e9}\" .\n",
        ),
        read(
            "a pair of escapes",
            br#"{"@id":"http://a/s","http://a/p":"\ud83d\ude00"}"#,
            "<http://a/s> <http://a/p> \"\u{1f600}\" .\n",
        ),
        read(
            "signs that a line escapes",
            br#"{"@id":"http://a/s","http://a/p":"a\u0022\n"}"#,
            "<http://a/s> <http://a/p> \"a\\\"\\n\" .\n",
        ),
    ];
    for row in rows {
        assert!(rt; holds_cut(rt.alloc(), &row)?, "{}", row.shows);
    }
    Ok(())
}

#[test]
fn resolves_against_the_base(rt: HostRuntime) -> Result<(), Fail> {
    let rows = [
        based(
            "http://a/b/c/d;p?q",
            "two references",
            br#"{"@id":"../g","http://a/p":{"@id":"?y"}}"#,
            "<http://a/b/g> <http://a/p> <http://a/b/c/d;p?y> .\n",
        ),
        read(
            "no base",
            br#"{"@id":"../g","http://a/p":{"@id":"?y"}}"#,
            "",
        ),
        based(
            "http://a/b?q#f",
            "an empty reference and a fragment",
            br##"{"@id":"","http://a/p":{"@id":"#x"}}"##,
            "<http://a/b?q> <http://a/p> <http://a/b?q#x> .\n",
        ),
        based(
            "x:a/b",
            "a base without an authority",
            br#"{"@id":"y","http://a/p":"1"}"#,
            "<x:a/y> <http://a/p> \"1\" .\n",
        ),
        based(
            "http://a/b",
            "a type is resolved, too",
            br#"{"@id":"s","@type":"T"}"#,
            "<http://a/s> <http://www.w3.org/1999/02/22-rdf-syntax-ns#type> <http://a/T> .\n",
        ),
        based("http://a/b", "a key is not", br#"{"@id":"s","p":"x"}"#, ""),
    ];
    for row in rows {
        assert!(rt; holds_cut(rt.alloc(), &row)?, "{}", row.shows);
    }
    Ok(())
}

#[test]
fn refuses_texts(rt: HostRuntime) -> Result<(), Fail> {
    let rows = [
        refused("nothing", br#""#, "", "jl: truncated at 0\n"),
        refused(
            "a cut text",
            br#"{"@id":"http://a/s","#,
            "",
            "jl: truncated at 20\n",
        ),
        refused(
            "a comma before the end",
            br#"{"@id":"http://a/s",}"#,
            "",
            "jl: syntax at 20\n",
        ),
        refused(
            "half a pair of escapes",
            br#"{"http://a/p":"\ud83d"}"#,
            "",
            "jl: syntax at 14\n",
        ),
        refused(
            "a name that comes again",
            br#"{"a":1,"\u0061":2}"#,
            "",
            "jl: duplicate key at 7\n",
        ),
        refused(
            "a name that comes again in a dropped object",
            br#"{"a":{"x":1,"\u0078":2}}"#,
            "",
            "jl: duplicate key at 12\n",
        ),
        refused(
            "a name that comes again behind a quad",
            br#"{"@id":"http://a/s","http://a/p":"x","http://a/p":"y"}"#,
            "<http://a/s> <http://a/p> \"x\" .\n",
            "jl: duplicate key at 37\n",
        ),
        refused(
            "a digit behind a whole number",
            br#"[01]"#,
            "",
            "jl: syntax at 2\n",
        ),
        refused(
            "a point without a digit",
            br#"[1.]"#,
            "",
            "jl: syntax at 1\n",
        ),
        refused(
            "a text fault at the byte that ends a number",
            br#"{"@id":"http://a/s","http://a/p":01}"#,
            "",
            "jl: syntax at 34\n",
        ),
        refused(
            "a fault behind the document",
            br#"{} x"#,
            "",
            "jl: syntax at 3\n",
        ),
        refused(
            "a byte that can begin no UTF-8 behind an escape",
            b"[\"\\u00\xc3\xa9\"]",
            "",
            "jl: syntax at 1\n",
        ),
        refused(
            "a byte order mark",
            b"\xef\xbb\xbf{}",
            "",
            "jl: syntax at 0\n",
        ),
        refused(
            "arrays that are too deep",
            TOO_DEEP,
            "",
            "jl: too deep at 256\n",
        ),
    ];
    for row in rows {
        assert!(rt; holds_cut(rt.alloc(), &row)?, "{}", row.shows);
    }
    Ok(())
}

#[test]
fn refuses_what_is_late(rt: HostRuntime) -> Result<(), Fail> {
    let rows = [
        refused(
            "a name",
            br#"{"http://a/p":"x","@id":"http://a/s"}"#,
            "_:jlb0 <http://a/p> \"x\" .\n",
            "jl: late identifier at 18\n",
        ),
        refused(
            "a name behind a dropped key",
            br#"{"x":1,"@id":"http://a/s"}"#,
            "",
            "jl: late identifier at 7\n",
        ),
        refused(
            "a type",
            br#"{"http://a/p":"x","@type":"http://a/T"}"#,
            "_:jlb0 <http://a/p> \"x\" .\n",
            "jl: late type at 18\n",
        ),
        refused(
            "a value",
            br#"{"@id":"http://a/s","http://a/p":{"http://a/q":"x","@value":"y"}}"#,
            "_:jlb33 <http://a/q> \"x\" .\n",
            "jl: late value at 51\n",
        ),
    ];
    for row in rows {
        assert!(rt; holds_cut(rt.alloc(), &row)?, "{}", row.shows);
    }
    Ok(())
}

#[test]
fn refuses_documents(rt: HostRuntime) -> Result<(), Fail> {
    let rows = [
        refused(
            "a number that is not whole",
            br#"{"http://a/p":1.5}"#,
            "",
            "jl: number not whole at 14\n",
        ),
        refused(
            "a number out of range",
            br#"{"http://a/p":1000000000000000000000}"#,
            "",
            "jl: number out of range at 14\n",
        ),
        refused(
            "a number out of range behind others",
            br#"{"@id":"http://a/s","http://a/p":[0,-1000000000000000000000]}"#,
            "<http://a/s> <http://a/p> \"0\"^^<http://www.w3.org/2001/XMLSchema#integer> .\n",
            "jl: number out of range at 36\n",
        ),
        refused(
            "a number with an exponent",
            br#"{"@id":"http://a/s","http://a/p":1e-99999999999999999999}"#,
            "",
            "jl: number not whole at 33\n",
        ),
        refused(
            "a number under a property that is no IRI",
            br#"{"@id":"http://a/s","1a:b":{"@id":"http://a/o","http://a/p":[1.5]}}"#,
            "",
            "jl: number not whole at 61\n",
        ),
        refused(
            "a double out of range",
            br#"{"@id":"http://a/s","http://a/p":[9007199254740992,{"@type":"http://a/d","@value":9007199254740992},{"@type":"http://www.w3.org/2001/XMLSchema#double","@value":9007199254740992}]}"#,
            "<http://a/s> <http://a/p> \"9007199254740992\"^^<http://www.w3.org/2001/XMLSchema#integer> .\n<http://a/s> <http://a/p> \"9007199254740992\"^^<http://a/d> .\n",
            "jl: number out of range at 160\n",
        ),
        refused(
            "a name that is no string",
            br#"{"@id":5}"#,
            "",
            "jl: invalid @id value at 1\n",
        ),
        refused(
            "a name that is an array",
            br#"{"@id":["http://a/s"]}"#,
            "",
            "jl: invalid @id value at 1\n",
        ),
        refused(
            "a type that is no string",
            br#"{"@id":"http://a/s","@type":5}"#,
            "",
            "jl: invalid type value at 20\n",
        ),
        refused(
            "a type among others that is none",
            br#"{"@id":"http://a/s","@type":["http://a/T",null]}"#,
            "",
            "jl: invalid type value at 20\n",
        ),
        refused(
            "an index that is no string",
            br#"{"@index":5}"#,
            "",
            "jl: invalid @index value at 1\n",
        ),
        refused(
            "a direction that is none",
            br#"{"@id":"http://a/s","http://a/p":{"@value":"x","@direction":"up"}}"#,
            "",
            "jl: invalid base direction at 47\n",
        ),
        refused(
            "a language that is no string",
            br#"{"@id":"http://a/s","http://a/p":{"@value":"x","@language":5}}"#,
            "",
            "jl: invalid language-tagged string at 47\n",
        ),
        refused(
            "a name in a value object",
            br#"{"@id":"http://a/s","http://a/p":[{"@value":null,"@type":"x"},{"@value":null,"@id":"x"}]}"#,
            "",
            "jl: invalid value object at 62\n",
        ),
        refused(
            "a language beside a datatype",
            br#"{"@id":"http://a/s","http://a/p":{"@value":"x","@language":"en","@type":"http://a/d"}}"#,
            "",
            "jl: invalid value object at 33\n",
        ),
        refused(
            "a property in a value object",
            br#"{"@id":"http://a/s","http://a/p":{"@value":"x","http://a/q":"y"}}"#,
            "",
            "jl: invalid value object at 33\n",
        ),
        refused(
            "a number with a language",
            br#"{"@id":"http://a/s","http://a/p":{"@value":1.5,"@language":"en"}}"#,
            "",
            "jl: invalid language-tagged value at 33\n",
        ),
        refused(
            "a datatype that is no IRI",
            br#"{"@id":"http://a/s","http://a/p":{"@value":1.5,"@type":"x"}}"#,
            "",
            "jl: invalid typed value at 33\n",
        ),
        refused(
            "a number of a value object",
            br#"{"@id":"http://a/s","http://a/p":{"@value":1.5}}"#,
            "",
            "jl: number not whole at 43\n",
        ),
        refused(
            "an array as a value",
            br#"{"@id":"http://a/s","http://a/p":{"@value":[1]}}"#,
            "",
            "jl: invalid value object value at 34\n",
        ),
        refused(
            "a context after another member",
            br#"{"http://a/p":"x","@context":{}}"#,
            "_:jlb0 <http://a/p> \"x\" .\n",
            "jl: not yet at 18\n",
        ),
        refused(
            "an array as an identifier, with a value inside that is dropped with it",
            br#"{"@id":["http://a/s",{"@value":[1]}],"http://a/p":"y"}"#,
            "",
            "jl: invalid @id value at 1\n",
        ),
        refused(
            "an array inside an array of types",
            br#"{"@type":["http://a/T",[{"a":"b"}]],"http://a/p":"y"}"#,
            "",
            "jl: invalid type value at 1\n",
        ),
        refused(
            "an object as a language, after a name",
            br#"{"@id":"http://a/s","@language":{"a":[{}]},"@id2":1}"#,
            "",
            "jl: invalid language-tagged string at 20\n",
        ),
        refused(
            "an object as a value",
            br#"{"@id":"http://a/s","http://a/p":{"@value":{"a":[1]},"@language":"en"}}"#,
            "",
            "jl: invalid value object value at 34\n",
        ),
    ];
    for row in rows {
        assert!(rt; holds_cut(rt.alloc(), &row)?, "{}", row.shows);
    }
    Ok(())
}

#[test]
fn refuses_forms_that_are_not_built(rt: HostRuntime) -> Result<(), Fail> {
    let rows = [
        refused("@context", br#"{"@context":{}}"#, "", "jl: not yet at 1\n"),
        refused("@graph", br#"{"@graph":{}}"#, "", "jl: not yet at 1\n"),
        refused(
            "@included",
            br#"{"@included":{}}"#,
            "",
            "jl: not yet at 1\n",
        ),
        refused("@nest", br#"{"@nest":{}}"#, "", "jl: not yet at 1\n"),
        refused("@reverse", br#"{"@reverse":{}}"#, "", "jl: not yet at 1\n"),
        refused(
            "a list",
            br#"{"@id":"http://a/s","http://a/p":{"@list":["x"]}}"#,
            "",
            "jl: not yet at 34\n",
        ),
        refused(
            "a set",
            br#"{"@id":"http://a/s","http://a/p":{"@set":["x"]}}"#,
            "",
            "jl: not yet at 34\n",
        ),
        refused(
            "a JSON literal",
            br#"{"@id":"http://a/s","http://a/p":{"@type":["@json"],"@value":null}}"#,
            "",
            "jl: not yet at 33\n",
        ),
        refused(
            "a JSON literal with an object inside",
            br#"{"@id":"http://a/s","http://a/p":{"@type":"@json","@value":{"a":[{"b":1}]}}}"#,
            "",
            "jl: not yet at 33\n",
        ),
        refused(
            "a JSON literal whose value comes first",
            br#"{"@id":"http://a/s","http://a/p":{"@value":1,"@type":"@json"}}"#,
            "",
            "jl: not yet at 33\n",
        ),
    ];
    for row in rows {
        assert!(rt; holds_cut(rt.alloc(), &row)?, "{}", row.shows);
    }
    Ok(())
}

#[test]
fn refuses_bytes_that_are_no_utf8(rt: HostRuntime) -> Result<(), Fail> {
    let rows = [
        refused(
            "a byte in a string",
            b"{\"@id\":\"http://a/s\",\"http://a/p\":\"\xff\"}",
            "",
            "jl: utf8 at 33\n",
        ),
        refused(
            "a byte behind a backslash",
            b"[\"\\\xff\"]",
            "",
            "jl: utf8 at 1\n",
        ),
        refused(
            "a character cut short",
            b"[\"\xc3\",1]",
            "",
            "jl: utf8 at 1\n",
        ),
    ];
    for row in rows {
        assert!(rt; holds_cut(rt.alloc(), &row)?, "{}", row.shows);
    }
    Ok(())
}

#[test]
fn puts_what_the_out_takes(rt: HostRuntime) -> Result<(), Fail> {
    let alloc = rt.alloc();
    let words = words_of(alloc, &["read", "--order", "streaming"])?;
    let mut port = MemPort::new(alloc, PAIR, 65536, 10)?;
    let mut shelf = NoShelf::new();
    let report = run(alloc, words.as_slice(), &mut port, &mut shelf);
    assert_eq!(rt; report.status, 4);
    assert_eq!(rt; report.quads, 0);
    assert!(rt; port.output() == b"<http://a/".as_slice());
    assert!(rt; port.said() == Some(b"jl: writing failed\n".as_slice()));
    Ok(())
}

/// The out fails at each of its bytes: what it took before stands, and nothing else.
#[test]
fn fails_wherever_the_out_does(rt: HostRuntime) -> Result<(), Fail> {
    let alloc = rt.alloc();
    let words = words_of(alloc, &["read", "--order", "streaming"])?;
    let line = b"<http://a/s> <http://a/p> \"x\" .\n".as_slice();
    for room in 0..line.len() {
        let mut port = MemPort::new(alloc, PAIR, 1, room)?;
        let mut shelf = NoShelf::new();
        let report = run(alloc, words.as_slice(), &mut port, &mut shelf);
        assert_eq!(rt; report.status, 4);
        assert_eq!(rt; report.quads, 0);
        assert!(rt; port.output() == &line[..room]);
    }
    Ok(())
}

#[test]
fn takes_options_in_any_order_and_form(rt: HostRuntime) -> Result<(), Fail> {
    let row = read("a member", PAIR, "<http://a/s> <http://a/p> \"x\" .\n");
    let commands: [&[&str]; 5] = [
        &["read", "--order=streaming"],
        &["read", "--order", "streaming", "--base", "http://a/b"],
        &["read", "--base", "http://a/b", "--order=streaming"],
        &["read", "--base=http://a/b", "--order", "streaming"],
        &["read", "--base=http://a/?b=c", "--order=streaming"],
    ];
    for (i, words) in commands.iter().enumerate() {
        assert!(rt; holds_with(rt.alloc(), words, &row, 65536)?, "{i}");
    }
    Ok(())
}

#[test]
fn takes_nothing_for_other_words(rt: HostRuntime) -> Result<(), Fail> {
    let row = Row {
        shows: "words that are no command",
        base: "",
        input: PAIR,
        status: 2,
        lines: "",
        said: "jl: bad words\n",
    };
    let others: [&[&str]; 26] = [
        &[],
        &["read"],
        &["write", "x"],
        &["read", "--order"],
        &["read", "--order="],
        &["read", "--order", ""],
        &["read", "--order", "any"],
        &["read", "--order=any"],
        &["read", "--order", "no"],
        &["write", "--order", "streaming"],
        &["--order", "streaming", "read"],
        &["read", "--base", "http://a/b"],
        &["read", "--order=streaming", "--order=streaming"],
        &["read", "--order", "streaming", "--order", "any"],
        &["read", "--order=streaming", "--base"],
        &["read", "--order=streaming", "--base="],
        &["read", "--order=streaming", "--base", "a b:c"],
        &["read", "--order=streaming", "--base", "b"],
        &["read", "--order=streaming", "--base", "-a:b"],
        &["read", "--order=streaming", "--base=a:b", "--base", "a:b"],
        &["read", "--order=streaming", "--stats"],
        &["read", "--order=streaming", "--limit", "4096"],
        &["read", "--order=streaming", "--only-graph=http://a/g"],
        &["read", "--order=streaming", "x"],
        &["read", "--order=streaming", "--"],
        &["read", "--ord=streaming"],
    ];
    for (i, words) in others.iter().enumerate() {
        assert!(rt; holds_with(rt.alloc(), words, &row, 65536)?, "{i}");
    }
    Ok(())
}
