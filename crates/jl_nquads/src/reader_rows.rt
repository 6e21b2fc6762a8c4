//! Lines of quads to be read, and what is to be read of them. Each row was worked out by hand from
//! the grammar of RDF 1.1 N-Quads, section 4, with its notes on labels and tags in `LineTokens` of
//! `jl_model`, and the places from `LineFaults` there.

/// Bytes, and the lines of their quads, as they are written with their labels renamed.
pub const LAID_OUT: [(&[u8], &[u8]); 18] = [
    (b"", b""),
    (b"\n", b""),
    (b"\r\n\r\n", b""),
    (b" \t\n\t \r \n ", b""),
    (b"# a comment", b""),
    (b"#\n#\xc3\xa9\r\n # <a:s> .", b""),
    (b"<a:s> <a:p> <a:o> .\n", b"<a:s> <a:p> <a:o> .\n"),
    (b"<a:s> <a:p> <a:o> .", b"<a:s> <a:p> <a:o> .\n"),
    (b"<a:s><a:p><a:o>.", b"<a:s> <a:p> <a:o> .\n"),
    (b"\t<a:s>\t<a:p> \t <a:o>  .\t \n", b"<a:s> <a:p> <a:o> .\n"),
    (b"<a:s> <a:p> <a:o> . # said\n", b"<a:s> <a:p> <a:o> .\n"),
    (
        b"<a:s> <a:p> <a:o> .#\xf0\x9f\x98\x80",
        b"<a:s> <a:p> <a:o> .\n",
    ),
    (b"# a\r<a:s> <a:p> <a:o> .\n", b"<a:s> <a:p> <a:o> .\n"),
    (
        b"<a:s> <a:p> <a:o> .\r\n<a:s> <a:p> <a:q> .\r\n",
        b"<a:s> <a:p> <a:o> .\n<a:s> <a:p> <a:q> .\n",
    ),
    (
        b"<a:s> <a:p> <a:o> .\r\r\n\n<a:s> <a:p> <a:o> .",
        b"<a:s> <a:p> <a:o> .\n<a:s> <a:p> <a:o> .\n",
    ),
    (
        b"<a:s> <a:p> <a:o> <a:g> .\n",
        b"<a:s> <a:p> <a:o> <a:g> .\n",
    ),
    (b"<a:s> <a:p> <a:o> _:g.", b"<a:s> <a:p> <a:o> _:g .\n"),
    (b"<a:s><a:p><a:o><a:g>.#", b"<a:s> <a:p> <a:o> <a:g> .\n"),
];

/// The same for labels: dots inside and after them, and labels that get a new name.
pub const LABELS: [(&[u8], &[u8]); 16] = [
    (b"_:a<a:p>_:b.\n", b"_:a <a:p> _:b .\n"),
    (b"<a:s> <a:p> _:a.b .\n", b"<a:s> <a:p> _:a.b .\n"),
    (b"<a:s> <a:p> _:a.b.\n", b"<a:s> <a:p> _:a.b .\n"),
    (b"<a:s> <a:p> _:a..b .\n", b"<a:s> <a:p> _:a..b .\n"),
    (b"<a:s> <a:p> _:a-.\n", b"<a:s> <a:p> _:a- .\n"),
    (b"<a:s> <a:p> _:a.\n", b"<a:s> <a:p> _:a .\n"),
    (b"<a:s> <a:p> _:a.#.", b"<a:s> <a:p> _:a .\n"),
    (b"_:0 <a:p> _:_ _:9-_ .\n", b"_:0 <a:p> _:_ _:9-_ .\n"),
    (b"_::a <a:p> _:: .\n", b"_:jlx3a61 <a:p> _:jlx3a .\n"),
    (
        b"_:a_:b <a:p> _:a._:b .\n",
        b"_:jlx615f3a62 <a:p> _:jlx612e5f3a62 .\n",
    ),
    (b"_:jl <a:p> _:jl0 .\n", b"_:jlx6a6c <a:p> _:jlx6a6c30 .\n"),
    (b"_:j <a:p> _:Jl .\n", b"_:j <a:p> _:Jl .\n"),
    (
        b"_:\xc3\x80 <a:p> _:a\xc2\xb7 .\n",
        b"_:jlxc380 <a:p> _:jlx61c2b7 .\n",
    ),
    (
        b"_:a\xcc\x80\xe2\x80\xbf <a:p> <a:o> .\n",
        b"_:jlx61cc80e280bf <a:p> <a:o> .\n",
    ),
    (
        b"_:\xe2\x80\x8c <a:p> _:\xed\x9f\xbf .\n",
        b"_:jlxe2808c <a:p> _:jlxed9fbf .\n",
    ),
    (
        b"_:\xf0\x90\x80\x80 <a:p> _:\xf3\xaf\xbf\xbf.",
        b"_:jlxf0908080 <a:p> _:jlxf3afbfbf .\n",
    ),
];

/// The same for IRIs and their escapes.
pub const IRIS: [(&[u8], &[u8]); 7] = [
    (b"<a:> <a:p> <A1+-.:> .\n", b"<a:> <a:p> <A1+-.:> .\n"),
    (
        b"<a:s?q#f#g> <a:p> <a:\xc3\xa9\xf0\x9f\x98\x80> .\n",
        b"<a:s?q#f#g> <a:p> <a:\xc3\xa9\xf0\x9f\x98\x80> .\n",
    ),
    (
        b"<a:\x7f> <a:p> <a:\xc2\x80> .\n",
        b"<a:\x7f> <a:p> <a:\xc2\x80> .\n",
    ),
    (
        b"<\\u0061:s> <a:\\U00000070> <a\\u003ao> .\n",
        b"<a:s> <a:p> <a:o> .\n",
    ),
    (
        b"<a:\\u00e9> <a:\\u00E9> <a:\\U0001f600> .\n",
        b"<a:\xc3\xa9> <a:\xc3\xa9> <a:\xf0\x9f\x98\x80> .\n",
    ),
    (
        b"<a:\\u002f\\u0021> <a:p> <a:o> .\n",
        b"<a:/!> <a:p> <a:o> .\n",
    ),
    (
        b"<a:\\uD7FF\\uE000> <a:p> <a:\\U0010FFFF> .\n",
        b"<a:\xed\x9f\xbf\xee\x80\x80> <a:p> <a:\xf4\x8f\xbf\xbf> .\n",
    ),
];

/// The same for literals.
pub const LITERALS: [(&[u8], &[u8]); 23] = [
    (b"<a:s> <a:p> \"\" .\n", b"<a:s> <a:p> \"\" .\n"),
    (b"<a:s> <a:p> \"x\".", b"<a:s> <a:p> \"x\" .\n"),
    (b"<a:s><a:p>\"x\"<a:g>.", b"<a:s> <a:p> \"x\" <a:g> .\n"),
    (b"<a:s><a:p>\"x\"_:g.", b"<a:s> <a:p> \"x\" _:g .\n"),
    (
        b"<a:s> <a:p> \"<a:b> # . ^^@'\" .\n",
        b"<a:s> <a:p> \"<a:b> # . ^^@'\" .\n",
    ),
    (
        b"<a:s> <a:p> \"\\t\\b\\n\\r\\f\\\"\\'\\\\\" .\n",
        b"<a:s> <a:p> \"\t\x08\\n\\r\x0c\\\"'\\\\\" .\n",
    ),
    (
        b"<a:s> <a:p> \"\\u000a\\u000D\\u0022\\u005c\" .\n",
        b"<a:s> <a:p> \"\\n\\r\\\"\\\\\" .\n",
    ),
    (
        b"<a:s> <a:p> \"\\u0041\\U00000042\\\\u0043\" .\n",
        b"<a:s> <a:p> \"AB\\\\u0043\" .\n",
    ),
    (
        b"<a:s> <a:p> \"\\u00e9\\u00E9\\u20ac\" .\n",
        b"<a:s> <a:p> \"\xc3\xa9\xc3\xa9\xe2\x82\xac\" .\n",
    ),
    (
        b"<a:s> <a:p> \"\\uD7FF\\uE000\\uffff\" .\n",
        b"<a:s> <a:p> \"\xed\x9f\xbf\xee\x80\x80\xef\xbf\xbf\" .\n",
    ),
    (
        b"<a:s> <a:p> \"\\U0010FFFF\\U0001f600\" .\n",
        b"<a:s> <a:p> \"\xf4\x8f\xbf\xbf\xf0\x9f\x98\x80\" .\n",
    ),
    (
        b"<a:s> <a:p> \"\\u0000\\u007f\" .\n",
        b"<a:s> <a:p> \"\x00\x7f\" .\n",
    ),
    (
        b"<a:s> <a:p> \"\x00\t\x0b\x7f\" .\n",
        b"<a:s> <a:p> \"\x00\t\x0b\x7f\" .\n",
    ),
    (
        b"<a:s> <a:p> \"\xc2\x80\xdf\xbf\xe0\xa0\x80\xef\xbf\xbf\xf0\x90\x80\x80\xf4\x8f\xbf\xbf\" .\n",
        b"<a:s> <a:p> \"\xc2\x80\xdf\xbf\xe0\xa0\x80\xef\xbf\xbf\xf0\x90\x80\x80\xf4\x8f\xbf\xbf\" .\n",
    ),
    (b"<a:s> <a:p> \"x\"@en .\n", b"<a:s> <a:p> \"x\"@en .\n"),
    (
        b"<a:s> <a:p> \"x\"@EN-us-1a.",
        b"<a:s> <a:p> \"x\"@EN-us-1a .\n",
    ),
    (
        b"<a:s> <a:p> \"x\"@en<a:g>.",
        b"<a:s> <a:p> \"x\"@en <a:g> .\n",
    ),
    (
        b"<a:s> <a:p> \"x\"@en_:g .\n",
        b"<a:s> <a:p> \"x\"@en _:g .\n",
    ),
    (
        b"<a:s> <a:p> \"x\"^^<a:d> .\n",
        b"<a:s> <a:p> \"x\"^^<a:d> .\n",
    ),
    (
        b"<a:s> <a:p> \"x\"^^<a:d><a:g>.",
        b"<a:s> <a:p> \"x\"^^<a:d> <a:g> .\n",
    ),
    (
        b"<a:s> <a:p> \"x\"^^<http://www.w3.org/2001/XMLSchema#string> .\n",
        b"<a:s> <a:p> \"x\" .\n",
    ),
    (
        b"<a:s> <a:p> \"x\"^^<http://www.w3.org/2001/XMLSchema#\\u0073tring> .\n",
        b"<a:s> <a:p> \"x\" .\n",
    ),
    (
        b"<a:s> <a:p> \"x\"^^<http://www.w3.org/1999/02/22-rdf-syntax-ns#langString> .\n",
        b"<a:s> <a:p> \"x\"^^<http://www.w3.org/1999/02/22-rdf-syntax-ns#langString> .\n",
    ),
];

/// Bytes with quads before their bad line: the lines of these, and the place of that line.
pub const BAD_LATER: [(&[u8], &[u8], u64); 4] = [
    (
        b"<a:s> <a:p> <a:o> .\n<a:s> .\n",
        b"<a:s> <a:p> <a:o> .\n",
        26,
    ),
    (
        b"# a\r\n\n<a:s> <a:p> <a:o> .\r<a:s>",
        b"<a:s> <a:p> <a:o> .\n",
        31,
    ),
    (
        b"_:a <a:p> _:a.\n<a:s> <a:p> \"\xff\" .\n<a:s> <a:p> <a:o> .\n",
        b"_:a <a:p> _:a .\n",
        27,
    ),
    (b"_:a <a:p> _:a.\n#\xff\n", b"_:a <a:p> _:a .\n", 16),
];

/// Bytes without a quad before their bad line, and its place: tokens where they can't follow, and
/// bytes that begin none.
pub const BAD_ORDER: [(&[u8], u64); 39] = [
    (b"<a:s> <a:p> <a:o>\n", 17),
    (b"<a:s> <a:p> <a:o>", 17),
    (b"<a:s> <a:p> <a:o> \r\n", 18),
    (b"<a:s> <a:p> <a:o> <a:g>", 23),
    (b"<a:s> <a:p> .\n", 12),
    (b"<a:s> <a:p>", 11),
    (b"<a:s> .\n", 6),
    (b"<a:s>\n", 5),
    (b".\n", 0),
    (b"<a:s> <a:p> <a:o> . .\n", 20),
    (b"<a:s> <a:p> <a:o> . <a:s> <a:p> <a:o> .\n", 20),
    (b"<a:s> <a:p> <a:o> .<a:s>", 19),
    (b"<a:s> <a:p> <a:o> <a:g> <a:h> .\n", 24),
    (b"<a:s> <a:p> <a:o> \"g\" .\n", 18),
    (b"<a:s> <a:p> \"x\" \"g\" .\n", 16),
    (b"\"s\" <a:p> <a:o> .\n", 0),
    (b"<a:s> \"p\" <a:o> .\n", 6),
    (b"<a:s> _:p <a:o> .\n", 6),
    (b"_:a. <a:p> <a:o> .\n", 3),
    (b"<a:s> # a\n<a:p> <a:o> .\n", 6),
    (b"<a:s> <a:p> # a", 12),
    (b"<a:s> <a:p> <a:o> # a\n", 18),
    (b"<a:s> <a:p> x .\n", 12),
    (b"<a:s> <a:p> 'x' .\n", 12),
    (b"<a:s> <a:p> true .\n", 12),
    (b"<a:s> a <a:o> .\n", 6),
    (b"@en", 0),
    (b"^^<a:d>", 0),
    (b"\x00", 0),
    (b"\x0c<a:s> <a:p> <a:o> .\n", 0),
    (b"<a:s>\x0b<a:p> <a:o> .\n", 5),
    (b"<a:s>\xc2\xa0<a:p> <a:o> .\n", 5),
    (b"\xef\xbb\xbf<a:s> <a:p> <a:o> .\n", 0),
    (b"<a:s> \xff", 6),
    (b"<a:s> <a:p> <a:o> .\xc3\xa9", 19),
    (b"#\xff", 1),
    (b"# a\xc3(", 3),
    (b"#\xe2\x82\n", 1),
    (b"#\xe2\x82", 3),
];

/// The same for labels.
pub const BAD_LABELS: [(&[u8], u64); 24] = [
    (b"_ <a:p> <a:o> .\n", 0),
    (b"_a <a:p> <a:o> .\n", 0),
    (b"_: <a:p> <a:o> .\n", 0),
    (b"_", 1),
    (b"_:", 2),
    (b"_:-a <a:p> <a:o> .\n", 0),
    (b"_:.a <a:p> <a:o> .\n", 0),
    (b"<a:s> <a:p> _:a. .\n", 17),
    (b"<a:s> <a:p> _:a.. .\n", 16),
    (b"<a:s> <a:p> _:a..", 17),
    (b"<a:s> <a:p> _:a.b", 17),
    (b"<a:s> <a:p> _:a.<a:g> .\n", 16),
    (b"<a:s> <a:p> _:a! .\n", 15),
    (b"<a:s> <a:p> _:a\\u0041 .\n", 15),
    (b"<a:s> <a:p> _:a@en .\n", 15),
    (b"<a:s> <a:p> _:\xc2\xb7 .\n", 12),
    (b"<a:s> <a:p> _:\xc3\x97 .\n", 12),
    (b"<a:s> <a:p> _:a\xc3\x97 .\n", 15),
    (b"<a:s> <a:p> _:a\xcd\xbe .\n", 15),
    (b"<a:s> <a:p> _:\xf3\xb0\x80\x80 .\n", 12),
    (b"<a:s> <a:p> _:a\xff .\n", 15),
    (b"<a:s> <a:p> _:a.\xff", 16),
    (b"<a:s> <a:p> _:a.\xc3 .\n", 16),
    (b"<a:s> <a:p> _:a\xc3", 16),
];

/// The same for IRIs.
pub const BAD_IRIS: [(&[u8], u64); 26] = [
    (b"<> <a:p> <a:o> .\n", 0),
    (b"<s> <a:p> <a:o> .\n", 0),
    (b"<a:s> </p> <a:o> .\n", 6),
    (b"<a:s> <a:p> <#o> .\n", 12),
    (b"<a:s> <a:p> <a:o> <g> .\n", 18),
    (b"<a:s> <a:p> \"x\"^^<d> .\n", 17),
    (b"<1:s> <a:p> <a:o> .\n", 0),
    (b"<:s> <a:p> <a:o> .\n", 0),
    (b"<\xc3\xa9:s> <a:p> <a:o> .\n", 0),
    (b"<a:s t> <a:p> <a:o> .\n", 0),
    (b"<a:s> <a:p> <a:o\n", 12),
    (b"<a:s> <a:p", 10),
    (b"<a:s> <a:p> <a:o\\u00", 20),
    (b"<a:s> <a:{> <a:o> .\n", 6),
    (b"<a:s> <a:^> <a:o> .\n", 6),
    (b"<a:s> <a:<b> <a:o> .\n", 6),
    (b"<a:s> <a:\\n> <a:o> .\n", 6),
    (b"<a:s> <a:\\u0020> <a:o> .\n", 6),
    (b"<a:s> <a:\\u003E> <a:o> .\n", 6),
    (b"<a:s> <a:\\u12> <a:o> .\n", 6),
    (b"<a:s> <a:\\u12g4> <a:o> .\n", 6),
    (b"<a:s> <a:\\uD800> <a:o> .\n", 6),
    (b"<a:s> <a:\\U00110000> <a:o> .\n", 6),
    (b"<a:s> <a:\xff> <a:o> .\n", 6),
    (b"<a:s> <a:\xc3> <a:o> .\n", 6),
    (b"<a:s> <a:\xed\xa0\x80> <a:o> .\n", 6),
];

/// The same for strings.
pub const BAD_STRINGS: [(&[u8], u64); 27] = [
    (b"<a:s> <a:p> \"x\n\" .\n", 12),
    (b"<a:s> <a:p> \"x\r\" .\n", 12),
    (b"<a:s> <a:p> \"x", 14),
    (b"<a:s> <a:p> \"x\\", 15),
    (b"<a:s> <a:p> \"x\\u00e", 19),
    (b"<a:s> <a:p> \"x\" x .\n", 16),
    (b"<a:s> <a:p> \"x\"\"y\" .\n", 15),
    (b"<a:s> <a:p> \"\"\"x\"\"\" .\n", 14),
    (b"<a:s> <a:p> \"\\q\" .\n", 12),
    (b"<a:s> <a:p> \"\\/\" .\n", 12),
    (b"<a:s> <a:p> \"\\x41\" .\n", 12),
    (b"<a:s> <a:p> \"\\u12G4\" .\n", 12),
    (b"<a:s> <a:p> \"\\u123\" .\n", 12),
    (b"<a:s> <a:p> \"\\U1234567\" .\n", 12),
    (b"<a:s> <a:p> \"\\uD800\" .\n", 12),
    (b"<a:s> <a:p> \"\\uDFFF\" .\n", 12),
    (b"<a:s> <a:p> \"\\uD83D\\uDE00\" .\n", 12),
    (b"<a:s> <a:p> \"\\U0000D800\" .\n", 12),
    (b"<a:s> <a:p> \"\\U00110000\" .\n", 12),
    (b"<a:s> <a:p> \"\x80\" .\n", 12),
    (b"<a:s> <a:p> \"\xc0\x80\" .\n", 12),
    (b"<a:s> <a:p> \"\xe0\x80\x80\" .\n", 12),
    (b"<a:s> <a:p> \"\xed\xa0\x80\" .\n", 12),
    (b"<a:s> <a:p> \"\xf4\x90\x80\x80\" .\n", 12),
    (b"<a:s> <a:p> \"\xc3\" .\n", 12),
    (b"<a:s> <a:p> \"\xe2\x82\n", 12),
    (b"<a:s> <a:p> \"\xe2\x82", 15),
];

/// The same for what stands after a string.
pub const BAD_SUFFIXES: [(&[u8], u64); 24] = [
    (b"<a:s> <a:p> \"x\" ^^<a:d> .\n", 16),
    (b"<a:s> <a:p> \"x\"^^ <a:d> .\n", 17),
    (b"<a:s> <a:p> \"x\"^ <a:d> .\n", 15),
    (b"<a:s> <a:p> \"x\"^<a:d> .\n", 15),
    (b"<a:s> <a:p> \"x\"^^\"d\" .\n", 17),
    (b"<a:s> <a:p> \"x\"^^_:d .\n", 17),
    (b"<a:s> <a:p> \"x\"^^\n", 17),
    (b"<a:s> <a:p> \"x\"^^", 17),
    (b"<a:s> <a:p> \"x\"^", 16),
    (b"<a:s> <a:p> \"x\"^^<a:d>@en .\n", 22),
    (b"<a:s> <a:p> \"x\"@en^^<a:d> .\n", 18),
    (b"<a:s> <a:p> <a:o>@en .\n", 17),
    (b"<a:s> <a:p> \"x\" @en .\n", 16),
    (b"<a:s> <a:p> \"x\"@ .\n", 15),
    (b"<a:s> <a:p> \"x\"@1 .\n", 15),
    (b"<a:s> <a:p> \"x\"@e1 .\n", 17),
    (b"<a:s> <a:p> \"x\"@en- .\n", 15),
    (b"<a:s> <a:p> \"x\"@en--us .\n", 15),
    (b"<a:s> <a:p> \"x\"@en-us-\n", 15),
    (b"<a:s> <a:p> \"x\"@en-", 19),
    (b"<a:s> <a:p> \"x\"@", 16),
    (b"<a:s> <a:p> \"x\"@en_us .\n", 18),
    (b"<a:s> <a:p> \"x\"@\xc3\xa9 .\n", 15),
    (b"<a:s> <a:p> \"x\"@en\xff .\n", 18),
];
