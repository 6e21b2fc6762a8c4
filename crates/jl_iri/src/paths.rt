//! Paths: their dot segments removed, and merged with a base (RFC 3986, 5.2.3 and 5.2.4).
ghost use Rattle.std.specs.Prelude.{◌≡◌, ◌||◌, not, ◌∷◌, ◌++◌, OnOk, IfOk, codes, bytes_eq, position};
ghost use Rattle.std.specs.List.{slice_split};
ghost use Rattle.std.specs.Option.{option_copied};
ghost use Rattle.jl_model.specs.Resolve as spec;
ghost use Rattle.jl_iri.specs.Segments.{without_segment, after_segment, segments_of};

use jl_model::NoMemory;
use std::alloc::Global;

/// The path without its dot segments (RFC 3986, 5.2.4). It takes time in proportion to the path: a
/// byte is written once and taken away at most once.
pub fn without_dots(alloc: Global, path: &[u8]) -> Result<Vec<u8>, NoMemory>
    ensures { IfOk result (λ kept. kept.items ≡ spec.remove_dot_segments path.now) }
{
    let mut kept = Vec::with_capacity(alloc, path.len())?;
    let mut begun = false;
    let mut dots = false;
    let mut rest = Some(path);
    while let Some(left) = rest {
        let (segment, others) = split_segment(left);
        add_segment(&mut kept, begun, segment)?;
        dots = is_dots(segment);
        begun = begun || !dots;
        rest = others;
    }
    if begun && dots {
        kept.extend_from_slice(b"/")?;
    }
    Ok(kept)
}

/// Writes one more segment. One of dots isn't written, and two dots take the last segment away.
fn add_segment(kept: &mut Vec<u8>, begun: bool, segment: &[u8]) -> Result<(), NoMemory>
    ensures { OnOk result (kept.new.items ≡ after_segment begun kept.old.items segment.now) }
{
    if is_dots(segment) {
        if begun && is_dot_dot(segment) {
            remove_segment(kept);
        }
        return Ok(());
    }
    if begun {
        kept.extend_from_slice(b"/")?;
    }
    kept.extend_from_slice(segment)?;
    Ok(())
}

/// Takes away the last segment and the slash before it.
fn remove_segment(kept: &mut Vec<u8>)
    ensures { kept.new.items ≡ without_segment kept.old.items }
{
    while let Some(byte) = kept.pop() {
        if byte == b'/' {
            return;
        }
    }
}

/// The first segment, and what stands behind the slash after it, if there is one.
fn split_segment(path: &[u8]) -> (&[u8], Option<&[u8]>)
    ensures { slice_split spec.is_slash path.now ≡ result.0.now ∷ segments_of
        (option_copied result.1) }
{
    match first_slash(path) {
        Some(slash) => (&path[..slash], Some(&path[slash + 1..])),
        None => (path, None),
    }
}

fn first_slash(path: &[u8]) -> Option<usize>
    ensures { result ≡ position spec.is_slash path.now }
{
    path.iter().position(|byte| *byte == b'/')
}

fn is_dots(segment: &[u8]) -> bool
    ensures { result ≡ spec.is_dots segment.now }
{
    is_dot(segment) || is_dot_dot(segment)
}

fn is_dot(segment: &[u8]) -> bool
    ensures { result ≡ bytes_eq segment.now (codes ".") }
{
    segment == b".".as_slice()
}

fn is_dot_dot(segment: &[u8]) -> bool
    ensures { result ≡ bytes_eq segment.now (codes "..") }
{
    segment == b"..".as_slice()
}

/// The path up to its last slash, with it.
pub fn up_to_slash(path: &[u8]) -> &[u8]
    ensures { result.now ≡ spec.up_to_slash path.now }
{
    let mut front = path;
    while let [others @ .., last] = front {
        if *last == b'/' {
            return front;
        }
        front = others;
    }
    front
}
