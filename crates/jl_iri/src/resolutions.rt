//! Resolution of references (RFC 3986, 5.2.2, 5.2.3 and 5.3), without any further normalisation.
ghost use Rattle.std.specs.Prelude.{◌≡◌, ◌++◌, [], OnOk, IfOk, codes};
ghost use Rattle.std.specs.Option.{option_copied};
ghost use Rattle.jl_model.specs.Resolve as spec;
ghost use Rattle.jl_iri.specs.Components.{components_in};

use super::parts::{Parts, parts_of};
use super::paths::{up_to_slash, without_dots};
use jl_model::{NoMemory, Text};
use std::alloc::Global;

/// The reference resolved against the base, in time in proportion to both.
pub fn resolve(alloc: Global, base: &[u8], reference: &[u8]) -> Result<Text, NoMemory>
    ensures { IfOk result (λ text. text ≡ spec.resolve base.now reference.now) }
{
    let base = parts_of(base);
    let reference = parts_of(reference);
    let path = target_path(alloc, &base, &reference)?;
    recompose(alloc, &target(&base, &reference, path.as_slice()))
}

/// The components of the answer (RFC 3986, 5.2.2), but for the path, which is handed in.
fn target<'a>(base: &Parts<'a>, reference: &Parts<'a>, path: &'a [u8]) -> Parts<'a>
    ensures { components_in result ≡ record (spec.target (components_in base.now)
        (components_in reference.now)) { path = path.now } }
{
    match (reference.scheme, reference.authority) {
        (Some(_), _) => Parts { path, ..*reference },
        (None, Some(_)) => Parts {
            scheme: base.scheme,
            path,
            ..*reference
        },
        (None, None) => Parts {
            scheme: base.scheme,
            authority: base.authority,
            path,
            query: target_query(base, reference),
            fragment: reference.fragment,
        },
    }
}

fn target_query<'a>(base: &Parts<'a>, reference: &Parts<'a>) -> Option<&'a [u8]>
    ensures { option_copied result ≡ spec.target_query (components_in base.now)
        (components_in reference.now) (components_in reference.now).path }
{
    match (reference.path, reference.query) {
        ([], None) => base.query,
        (_, query) => query,
    }
}

/// The path of the answer (RFC 3986, 5.2.2).
fn target_path(alloc: Global, base: &Parts<'_>, reference: &Parts<'_>) -> Result<Vec<u8>, NoMemory>
    ensures { IfOk result (λ path. path.items ≡ (spec.target (components_in base.now)
        (components_in reference.now)).path) }
{
    match (reference.scheme, reference.authority) {
        (None, None) => relative_path(alloc, base, reference.path),
        _ => without_dots(alloc, reference.path),
    }
}

fn relative_path(alloc: Global, base: &Parts<'_>, path: &[u8]) -> Result<Vec<u8>, NoMemory>
    ensures { IfOk result (λ whole. whole.items ≡ spec.target_path
        (components_in base.now) path.now) }
{
    let Some(first) = path.first() else {
        return Ok(Vec::from_slice(alloc, base.path)?);
    };
    if *first == b'/' {
        return without_dots(alloc, path);
    }
    let merged = merge(alloc, base, path)?;
    without_dots(alloc, merged.as_slice())
}

/// The path in the place of the base's last segment (RFC 3986, 5.2.3).
fn merge(alloc: Global, base: &Parts<'_>, path: &[u8]) -> Result<Vec<u8>, NoMemory>
    ensures { IfOk result (λ merged. merged.items ≡ spec.merge (components_in base.now) path.now) }
{
    let front = match (base.authority, base.path) {
        (Some(_), []) => b"/".as_slice(),
        (_, whole) => up_to_slash(whole),
    };
    let mut merged = Vec::from_slice(alloc, front)?;
    merged.extend_from_slice(path)?;
    Ok(merged)
}

/// The text of these components (RFC 3986, 5.3).
fn recompose(alloc: Global, parts: &Parts<'_>) -> Result<Text, NoMemory>
    ensures { IfOk result (λ text. text ≡ spec.recompose (components_in parts.now)) }
{
    let mut text = Text::empty(alloc);
    add_part(&mut text, b"", parts.scheme, b":")?;
    add_part(&mut text, b"//", parts.authority, b"")?;
    text.extend(parts.path)?;
    add_part(&mut text, b"?", parts.query, b"")?;
    add_part(&mut text, b"#", parts.fragment, b"")?;
    Ok(text)
}

/// Adds a component with what stands before it and behind it, where it is there.
fn add_part(text: &mut Text, front: &[u8], part: Option<&[u8]>, back: &[u8]) -> Result<(), NoMemory>
    ensures { OnOk result (text.new ≡ text.old ++ spec.part front.now
        (option_copied part.entry) back.now) }
{
    if let Some(part) = part {
        text.extend(front)?;
        text.extend(part)?;
        text.extend(back)?;
    }
    Ok(())
}
