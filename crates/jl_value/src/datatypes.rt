//! The datatypes that scalars have by themselves (JSON-LD 1.1 API, section 8.2.2).
ghost use Rattle.std.specs.Prelude.{◌≡◌, codes, bytes_eq};
ghost use Rattle.std.specs.Option.{option_copied};
ghost use Rattle.jl_model.specs.Parts as parts;
ghost use Rattle.jl_defs.specs.Values as spec;

pub fn xsd_boolean() -> &'static [u8]
    ensures { result.now ≡ spec.xsd_boolean }
{
    b"http://www.w3.org/2001/XMLSchema#boolean"
}

pub fn xsd_integer() -> &'static [u8]
    ensures { result.now ≡ spec.xsd_integer }
{
    b"http://www.w3.org/2001/XMLSchema#integer"
}

pub fn xsd_string() -> &'static [u8]
    ensures { result.now ≡ parts.xsd_string }
{
    b"http://www.w3.org/2001/XMLSchema#string"
}

pub fn rdf_lang_string() -> &'static [u8]
    ensures { result.now ≡ parts.rdf_lang_string }
{
    b"http://www.w3.org/1999/02/22-rdf-syntax-ns#langString"
}

pub fn is_xsd_double(datatype: &[u8]) -> bool
    ensures { result ≡ bytes_eq datatype.now spec.xsd_double }
{
    datatype == b"http://www.w3.org/2001/XMLSchema#double".as_slice()
}

/// The given datatype, or the one that the scalar has by itself.
pub fn type_or<'a>(datatype: Option<&'a [u8]>, native: &'a [u8]) -> &'a [u8]
    ensures { result.now ≡ spec.type_or (option_copied datatype.entry) native.now }
{
    match datatype {
        Some(datatype) => datatype,
        None => native,
    }
}
