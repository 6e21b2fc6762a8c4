//! RDF terms.
ghost use Rattle.std.specs.Prelude.{◌≡◌, ◌↔◌, IfOk, OnOk, OnErr, IsTrue};
ghost use Rattle.jl_model.specs.Parts.{plain};

use super::same_bytes::is_same;
use super::texts::{NoMemory, Text};
use std::alloc::Global;

/// A literal (RDF 1.1 Concepts, section 3.3): its lexical form, its datatype's IRI, and its
/// language tag, if it has one.
#[derive(Debug, Drop)]
pub struct Lit {
    pub text: Text,
    pub datatype: Text,
    pub language: Option<Text>,
}

/// An RDF term (RDF 1.1 Concepts, section 3.1). A blank node is named by its label, without `_:`.
#[derive(Debug, Drop)]
pub enum Term {
    Iri(Text),
    Blank(Text),
    Literal(Lit),
}

impl Lit {
    /// The literal of a string: one of `xsd:string`.
    pub fn plain(alloc: Global, text: &[u8]) -> Result<Lit, NoMemory>
        ensures { IfOk result (λ lit. lit ≡ plain text.now) }
    {
        let text = Text::from_bytes(alloc, text)?;
        let datatype = Text::from_bytes(alloc, b"http://www.w3.org/2001/XMLSchema#string")?;
        Ok(Lit {
            text,
            datatype,
            language: None,
        })
    }

    /// Whether it is the literal of a string.
    pub fn is_plain(&self) -> bool
        ensures { IsTrue result ↔ self.now ≡ plain self.now.text }
    {
        self.language.is_none()
            && is_same(
                self.datatype.bytes(),
                b"http://www.w3.org/2001/XMLSchema#string",
            )
    }

    /// An equal literal with memory of its own.
    pub fn copy(&self, alloc: Global) -> Result<Lit, NoMemory>
        ensures { IfOk result (λ lit. lit ≡ self.now) }
    {
        let text = self.text.copy(alloc)?;
        let datatype = self.datatype.copy(alloc)?;
        let language = match &self.language {
            None => None,
            Some(tag) => Some(tag.copy(alloc)?),
        };
        Ok(Lit {
            text,
            datatype,
            language,
        })
    }
}

impl Term {
    /// An equal term with memory of its own.
    pub fn copy(&self, alloc: Global) -> Result<Term, NoMemory>
        ensures { IfOk result (λ term. term ≡ self.now) }
    {
        match self {
            Term::Iri(iri) => Ok(Term::Iri(iri.copy(alloc)?)),
            Term::Blank(label) => Ok(Term::Blank(label.copy(alloc)?)),
            Term::Literal(lit) => Ok(Term::Literal(lit.copy(alloc)?)),
        }
    }

    /// Becomes equal to another term, in the memory that it has where that is enough.
    pub fn set(&mut self, alloc: Global, term: &Term) -> Result<(), NoMemory>
        ensures ok { OnOk result (self.new ≡ term.now) }
        ensures err { OnErr result (self.new ≡ self.old) }
    {
        match term {
            Term::Iri(iri) => self.set_iri(alloc, iri),
            Term::Blank(label) => self.set_blank(alloc, label),
            Term::Literal(lit) => {
                *self = Term::Literal(lit.copy(alloc)?);
                Ok(())
            }
        }
    }

    fn set_iri(&mut self, alloc: Global, iri: &Text) -> Result<(), NoMemory>
        ensures ok { OnOk result (self.new ≡ Term.Iri iri.now) }
        ensures err { OnErr result (self.new ≡ self.old) }
    {
        if let Term::Iri(text) = self {
            return text.set(iri.bytes());
        }
        *self = Term::Iri(iri.copy(alloc)?);
        Ok(())
    }

    fn set_blank(&mut self, alloc: Global, label: &Text) -> Result<(), NoMemory>
        ensures ok { OnOk result (self.new ≡ Term.Blank label.now) }
        ensures err { OnErr result (self.new ≡ self.old) }
    {
        if let Term::Blank(text) = self {
            return text.set(label.bytes());
        }
        *self = Term::Blank(label.copy(alloc)?);
        Ok(())
    }

    /// Becomes the literal of a string, in the memory that it has where that is enough.
    pub fn set_plain(&mut self, alloc: Global, text: &[u8]) -> Result<(), NoMemory>
        ensures ok { OnOk result (self.new ≡ Term.Literal (plain text.now)) }
        ensures err { OnErr result (self.new ≡ self.old) }
    {
        if let Term::Literal(lit) = self {
            if lit.is_plain() {
                return lit.text.set(text);
            }
        }
        *self = Term::Literal(Lit::plain(alloc, text)?);
        Ok(())
    }

    /// Whether it is the same name of a node. Literals aren't looked at.
    pub fn is_same_name(&self, term: &Term) -> bool
        ensures { IsTrue result → self.now ≡ term.now }
    {
        match self {
            Term::Iri(text) => term.is_iri(text.bytes()),
            Term::Blank(text) => term.is_blank(text.bytes()),
            Term::Literal(_) => false,
        }
    }

    fn is_iri(&self, iri: &[u8]) -> bool
        ensures { IsTrue result → self.now ≡ Term.Iri iri.now }
    {
        match self {
            Term::Iri(text) => is_same(text.bytes(), iri),
            _ => false,
        }
    }

    fn is_blank(&self, label: &[u8]) -> bool
        ensures { IsTrue result → self.now ≡ Term.Blank label.now }
    {
        match self {
            Term::Blank(text) => is_same(text.bytes(), label),
            _ => false,
        }
    }
}
