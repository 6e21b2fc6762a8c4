//! Texts with a colon (JSON-LD 1.1 API, section 5.2.2, step 6).
ghost use Rattle.std.specs.Prelude.{◌≡◌, position, option_map};
ghost use Rattle.jl_defs.specs.Texts as texts;
ghost use Rattle.jl_defs.specs.IriExpansion as spec;
ghost use Rattle.jl_context.specs.Compacts.{compact_in};

/// A prefix, and what follows its colon.
#[derive(Clone, Copy)]
pub struct Compact<'a> {
    /// The bytes before the first colon.
    pub prefix: &'a [u8],
    /// The bytes after it.
    pub rest: &'a [u8],
}

impl<'a> Compact<'a> {
    /// Whether it is a blank node, or an IRI with an authority: neither has a prefix.
    pub fn has_no_prefix(&self) -> bool
        ensures { result ≡ spec.has_no_prefix (compact_in self.now) }
    {
        self.prefix == b"_".as_slice() || begins_slashes(self.rest)
    }
}

/// The text split at its first colon, where one stands after the first character.
pub fn compact_of(text: &[u8]) -> Option<Compact<'_>>
    ensures { option_map compact_in result ≡ spec.compact text.now }
{
    let [_, others @ ..] = text else {
        return None;
    };
    match split_colon(others) {
        Some(_) => split_colon(text),
        None => None,
    }
}

fn split_colon(text: &[u8]) -> Option<Compact<'_>>
    ensures { option_map compact_in result ≡ spec.split_colon text.now }
{
    match first_colon(text) {
        Some(colon) => Some(Compact {
            prefix: &text[..colon],
            rest: &text[colon + 1..],
        }),
        None => None,
    }
}

fn first_colon(text: &[u8]) -> Option<usize>
    ensures { result ≡ position texts.is_colon text.now }
{
    text.iter().position(|byte| *byte == b':')
}

fn begins_slashes(text: &[u8]) -> bool
    ensures { result ≡ spec.begins_slashes text.now }
{
    match text {
        [first, second, ..] => *first == b'/' && *second == b'/',
        _ => false,
    }
}
