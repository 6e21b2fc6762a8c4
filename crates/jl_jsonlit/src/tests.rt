//! Rows of strings.
use super::write_string;
use std::test::Fail;

#[test]
fn each_kind_of_byte(rt: HostRuntime) -> Result<(), Fail> {
    for (text, made) in [
        ("", "\"\""),
        ("plain", "\"plain\""),
        ("a\"b", "\"a\\\"b\""),
        ("a\\b", "\"a\\\\b\""),
        ("\n\r\t\u{8}\u{c}", "\"\\n\\r\\t\\b\\f\""),
        ("\u{0}\u{1}\u{f}\u{1f}", "\"\\u0000\\u0001\\u000f\\u001f\""),
        ("/ \u{7f}\u{80}", "\"/ \u{7f}\u{80}\""),
        ("\u{20ac}\u{1f600}", "\"\u{20ac}\u{1f600}\""),
    ] {
        let string = write_string(rt.alloc(), text.as_bytes())?;
        assert_eq!(rt; string.bytes(), made.as_bytes());
    }
    Ok(())
}
