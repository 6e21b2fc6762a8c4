//! Keywords (JSON-LD 1.1, section 1.7), and texts that look like one.
ghost use Rattle.std.specs.Prelude.{◌≡◌, [], ◌∷◌, codes};
ghost use Rattle.std.specs.List.{list_all};
ghost use Rattle.std.specs.Char.{is_ascii_alphabetic};
ghost use Rattle.jl_defs.specs.Texts as spec;
ghost use Rattle.jl_terms.specs.Keywords as lists;

/// Whether the text is a keyword.
pub fn is_keyword(text: &[u8]) -> bool
    ensures { result ≡ spec.is_keyword text.now }
{
    has_keyword_form(text) && is_listed(text)
}

/// Whether the text is `@` and one or more letters.
pub fn has_keyword_form(text: &[u8]) -> bool
    ensures { result ≡ spec.has_keyword_form text.now }
{
    match text {
        [first, second, others @ ..] => {
            *first == b'@' && second.is_ascii_alphabetic() && are_letters(others)
        }
        _ => false,
    }
}

fn are_letters(text: &[u8]) -> bool
    ensures { result ≡ list_all is_ascii_alphabetic text.now }
{
    text.iter().all(|byte| byte.is_ascii_alphabetic())
}

fn is_listed(text: &[u8]) -> bool
    ensures { result ≡ spec.is_among spec.keywords text.now }
{
    b"@base".as_slice() == text
        || b"@container".as_slice() == text
        || b"@context".as_slice() == text
        || b"@direction".as_slice() == text
        || b"@graph".as_slice() == text
        || b"@id".as_slice() == text
        || is_listed_from_import(text)
}

fn is_listed_from_import(text: &[u8]) -> bool
    ensures { result ≡ spec.is_among lists.from_import text.now }
{
    b"@import".as_slice() == text
        || b"@included".as_slice() == text
        || b"@index".as_slice() == text
        || b"@json".as_slice() == text
        || b"@language".as_slice() == text
        || b"@list".as_slice() == text
        || is_listed_from_nest(text)
}

fn is_listed_from_nest(text: &[u8]) -> bool
    ensures { result ≡ spec.is_among lists.from_nest text.now }
{
    b"@nest".as_slice() == text
        || b"@none".as_slice() == text
        || b"@prefix".as_slice() == text
        || b"@propagate".as_slice() == text
        || b"@protected".as_slice() == text
        || b"@reverse".as_slice() == text
        || is_listed_from_set(text)
}

fn is_listed_from_set(text: &[u8]) -> bool
    ensures { result ≡ spec.is_among lists.from_set text.now }
{
    b"@set".as_slice() == text
        || b"@type".as_slice() == text
        || b"@value".as_slice() == text
        || b"@version".as_slice() == text
        || b"@vocab".as_slice() == text
}
