//! The five components of a reference (RFC 3986, appendix B).
ghost use Rattle.std.specs.Prelude.{◌≡◌, ◌<◌, take, drop, length, position, unwrap_or};
ghost use Rattle.std.specs.Option.{option_copied, ForSome};
ghost use Rattle.jl_model.specs.Resolve as spec;
ghost use Rattle.jl_iri.specs.Components.{components_in};

/// The components of a reference, lent from its text. A component that is absent is no empty one.
#[derive(Clone, Copy)]
pub struct Parts<'a> {
    pub scheme: Option<&'a [u8]>,
    pub authority: Option<&'a [u8]>,
    pub path: &'a [u8],
    pub query: Option<&'a [u8]>,
    pub fragment: Option<&'a [u8]>,
}

/// The text split into its components.
pub fn parts_of(text: &[u8]) -> Parts<'_>
    ensures { components_in result ≡ spec.components text.now }
{
    let (scheme, hierarchy) = split_scheme(text);
    let (authority, rest) = split_authority(hierarchy);
    Parts {
        scheme,
        authority,
        path: path_of(rest),
        query: query_of(rest),
        fragment: fragment_of(rest),
    }
}

fn split_scheme(text: &[u8]) -> (Option<&[u8]>, &[u8])
    ensures scheme { option_copied result.0 ≡ spec.scheme_of (spec.until spec.ends_scheme text.now)
        (spec.behind 58 (spec.from spec.ends_scheme text.now)) }
    ensures rest { result.1.now ≡ spec.after_scheme text.now (spec.until spec.ends_scheme text.now)
        (spec.behind 58 (spec.from spec.ends_scheme text.now)) }
{
    let (scheme, tail) = cut_at_scheme_end(text);
    match (scheme, behind(b':', tail)) {
        ([_, ..], Some(rest)) => (Some(scheme), rest),
        _ => (None, text),
    }
}

fn split_authority(text: &[u8]) -> (Option<&[u8]>, &[u8])
    ensures authority { option_copied result.0 ≡ spec.authority_of (spec.behind_slashes text.now) }
    ensures rest { result.1.now ≡ spec.after_authority text.now (spec.behind_slashes text.now) }
{
    match behind_slashes(text) {
        Some(rest) => {
            let (authority, path) = cut_at_authority_end(rest);
            (Some(authority), path)
        }
        None => (None, text),
    }
}

fn path_of(rest: &[u8]) -> &[u8]
    ensures { result.now ≡ spec.until spec.ends_path rest.now }
{
    cut_at_path_end(rest).0
}

fn query_of(rest: &[u8]) -> Option<&[u8]>
    ensures { option_copied result ≡ spec.query_of
        (spec.behind 63 (spec.from spec.ends_path rest.now)) }
{
    match behind(b'?', cut_at_path_end(rest).1) {
        Some(tail) => Some(cut_at_hash(tail).0),
        None => None,
    }
}

fn fragment_of(rest: &[u8]) -> Option<&[u8]>
    ensures { option_copied result ≡ spec.behind 35 (spec.from spec.is_hash rest.now) }
{
    behind(b'#', cut_at_hash(rest).1)
}

/// The text without its first byte, where that is this one.
fn behind(byte: u8, text: &[u8]) -> Option<&[u8]>
    ensures { option_copied result ≡ spec.behind byte text.now }
{
    match text {
        [first, rest @ ..] => { if *first == byte { Some(rest) } else { None } }
        [] => None,
    }
}

fn behind_slashes(text: &[u8]) -> Option<&[u8]>
    ensures { option_copied result ≡ spec.behind_slashes text.now }
{
    match text {
        [first, second, rest @ ..] => {
            if *first == b'/' && *second == b'/' {
                Some(rest)
            } else {
                None
            }
        }
        _ => None,
    }
}

/// What stands before a place and what stands from there on. With no place it is all and nothing.
fn cut_at(text: &[u8], place: Option<usize>) -> (&[u8], &[u8])
    requires { ForSome place (λ i. i < length text.now) }
    ensures before { result.0.now ≡ take (unwrap_or place (length text.now)) text.now }
    ensures from { result.1.now ≡ drop (unwrap_or place (length text.now)) text.now }
{
    match place {
        Some(i) => (&text[..i], &text[i..]),
        None => (text, &text[text.len()..]),
    }
}

#[tactic(auto, using(crate::proofs::Ends::cut_before, crate::proofs::Ends::cut_from))]
fn cut_at_scheme_end(text: &[u8]) -> (&[u8], &[u8])
    ensures until { result.0.now ≡ spec.until spec.ends_scheme text.now }
    ensures from { result.1.now ≡ spec.from spec.ends_scheme text.now }
{
    cut_at(text, scheme_end(text))
}

fn scheme_end(text: &[u8]) -> Option<usize>
    ensures { result ≡ position spec.ends_scheme text.now }
{
    text.iter().position(|byte| ends_scheme(*byte))
}

#[tactic(auto, using(crate::proofs::Ends::cut_before, crate::proofs::Ends::cut_from))]
fn cut_at_authority_end(text: &[u8]) -> (&[u8], &[u8])
    ensures until { result.0.now ≡ spec.until spec.ends_authority text.now }
    ensures from { result.1.now ≡ spec.from spec.ends_authority text.now }
{
    cut_at(text, authority_end(text))
}

fn authority_end(text: &[u8]) -> Option<usize>
    ensures { result ≡ position spec.ends_authority text.now }
{
    text.iter().position(|byte| ends_authority(*byte))
}

#[tactic(auto, using(crate::proofs::Ends::cut_before, crate::proofs::Ends::cut_from))]
fn cut_at_path_end(text: &[u8]) -> (&[u8], &[u8])
    ensures until { result.0.now ≡ spec.until spec.ends_path text.now }
    ensures from { result.1.now ≡ spec.from spec.ends_path text.now }
{
    cut_at(text, path_end(text))
}

fn path_end(text: &[u8]) -> Option<usize>
    ensures { result ≡ position spec.ends_path text.now }
{
    text.iter().position(|byte| ends_path(*byte))
}

#[tactic(auto, using(crate::proofs::Ends::cut_before, crate::proofs::Ends::cut_from))]
fn cut_at_hash(text: &[u8]) -> (&[u8], &[u8])
    ensures until { result.0.now ≡ spec.until spec.is_hash text.now }
    ensures from { result.1.now ≡ spec.from spec.is_hash text.now }
{
    cut_at(text, hash(text))
}

fn hash(text: &[u8]) -> Option<usize>
    ensures { result ≡ position spec.is_hash text.now }
{
    text.iter().position(|byte| is_hash(*byte))
}

fn ends_scheme(byte: u8) -> bool
    ensures { result ≡ spec.ends_scheme byte }
{
    byte == b':' || ends_authority(byte)
}

fn ends_authority(byte: u8) -> bool
    ensures { result ≡ spec.ends_authority byte }
{
    byte == b'/' || ends_path(byte)
}

fn ends_path(byte: u8) -> bool
    ensures { result ≡ spec.ends_path byte }
{
    byte == b'?' || is_hash(byte)
}

fn is_hash(byte: u8) -> bool
    ensures { result ≡ spec.is_hash byte }
{
    byte == b'#'
}
