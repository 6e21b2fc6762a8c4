//! Open objects.
ghost use Rattle.std.specs.Prelude.{◌≡◌, ℕ, IfOk};
ghost use Rattle.jl_defs.specs.Dataset.{term_of_value};
ghost use Rattle.jl_defs.specs.MemberFaults.{is_direction_text};
ghost use Rattle.jl_defs.specs.NodeMap.{rdf_type, term_of_text};
ghost use Rattle.jl_frames.specs.Answers.{Goes, Takes};
ghost use Rattle.jl_frames.specs.Closing.{term_of_lit};
ghost use Rattle.jl_frames.specs.declared.nodes.Node.{Node as SpecNode};
ghost use Rattle.jl_frames.specs.Nodes as spec;
ghost use Rattle.jl_model.specs.declared.terms.Term.{Term};

use super::emits::Emits;
use super::entries::Entries;
use super::facts::{Frame, Given, KeyFact, ValueFact};
use super::keywords::{Keyword, Meaning};
use super::spares::Spare;
use super::states::FrameStop;
use super::terms::{rdf_type, term_of_text};
use super::values::{Kinds, RawValue, ValueParts};
use jl_model::{Code, Expanded, Fault, GraphScope, Lit, NoMemory, Scalar, Term, Text};
use jl_value::Valued;
use std::alloc::Global;

/// An object that is open.
#[derive(Debug, Drop)]
pub struct Node {
    /// The place of its first byte.
    pub at: u64,
    /// The node, where its name is well-formed.
    pub subject: Option<Term>,
    /// The graph in which it stands.
    pub scope: GraphScope,
    /// Whether it has a key for `@value`.
    pub valued: bool,
    pub entries: Entries,
    /// The key read last, until its value has ended.
    pub pending: Pending,
    pub parts: ValueParts,
}

/// A key whose value is still to come, or is open.
#[derive(Debug, Drop)]
pub enum Pending {
    /// None.
    Nothing,
    /// An IRI, or a text that is none.
    Property(Text),
    /// A keyword, with the place of the key.
    Keyword { at: u64, keyword: Keyword },
    /// A key that is dropped with its value.
    Ignored,
}

impl Node {
    /// An object that has just opened.
    pub fn opened(frame: Frame) -> Node
        ensures { result ≡ spec.opened frame }
    {
        Node {
            at: frame.at,
            subject: frame.subject,
            scope: frame.scope,
            valued: frame.valued,
            entries: Entries::none(),
            pending: Pending::Nothing,
            parts: ValueParts {
                kinds: Kinds::Untyped,
                value: None,
                language: None,
            },
        }
    }

    /// Takes a key.
    #[tactic(auto, unfolding(crate::specs::Nodes::take_key))]
    pub(crate) fn take_key(&mut self, spare: &mut Spare, key: KeyFact) -> Result<(), Fault>
        ensures { Takes result (spec.take_key key self.old) self.old self.new }
    {
        match Meaning::of(spare, key.expanded) {
            Meaning::Property(name) => self.pending = Pending::Property(name),
            Meaning::Ignored => self.pending = Pending::Ignored,
            Meaning::Keyword(keyword) => return self.take_keyword(key.at, keyword),
        }
        Ok(())
    }

    fn take_keyword(&mut self, at: u64, keyword: Keyword) -> Result<(), Fault>
        ensures { Takes result
            (spec.take_once (spec.has_come keyword self.old.entries) at keyword self.old)
            self.old self.new }
    {
        if self.entries.has_come(keyword) {
            return Err(Fault {
                code: Code::CollidingKeywords,
                at,
            });
        }
        self.entries.add(keyword);
        self.pending = Pending::Keyword { at, keyword };
        Ok(())
    }

    /// Takes a scalar as the value of the key read last, or in an array there.
    #[tactic(auto, unfolding(crate::specs::Nodes::take_scalar))]
    pub(crate) fn take_scalar(
        &mut self,
        alloc: Global,
        spare: &mut Spare,
        fact: ValueFact,
    ) -> Result<Emits, FrameStop>
        ensures { Goes result (spec.take_scalar fact self.old) self.old self.new }
    {
        match self.pending {
            Pending::Property(_) => self.take_value(alloc, spare, fact.given),
            Pending::Keyword { at, keyword } => self.take_under(alloc, spare, keyword, at, fact),
            Pending::Nothing | Pending::Ignored => Ok(Emits::none()),
        }
    }

    /// Takes a string as the value of a property, or in an array there.
    #[tactic(auto, unfolding(crate::specs::Nodes::take_scalar))]
    pub(crate) fn take_text(
        &mut self,
        alloc: Global,
        spare: &mut Spare,
        _at: u64,
        text: &[u8],
    ) -> Result<Emits, FrameStop>
        ensures { Goes result
            (spec.take_scalar (spec.text_fact _at text.now) self.old) self.old self.new }
    {
        match self.pending {
            Pending::Property(_) => self.take_string(alloc, spare, text),
            Pending::Keyword { at, keyword } => Err(wrong_form(keyword, at)),
            Pending::Nothing | Pending::Ignored => Ok(Emits::none()),
        }
    }

    #[tactic(auto, using(crate::proofs::Hanging::pending_literal))]
    fn take_string(
        &mut self,
        alloc: Global,
        spare: &mut Spare,
        text: &[u8],
    ) -> Result<Emits, FrameStop>
        ensures { Goes result (spec.take_value (spec.given_text text.now) self.old)
            self.old self.new }
    {
        let emits = self.hang_text(alloc, spare, text)?;
        self.entries.property = true;
        Ok(emits)
    }

    fn take_value(
        &mut self,
        alloc: Global,
        spare: &mut Spare,
        given: Given,
    ) -> Result<Emits, FrameStop>
        ensures { Goes result (spec.take_value given self.old) self.old self.new }
    {
        match given {
            Given::Valued(valued) => {
                let emits = self.hang_value(alloc, spare, valued)?;
                self.entries.property = true;
                Ok(emits)
            }
            Given::Written(_) | Given::Type(_) => Ok(Emits::none()),
        }
    }

    #[tactic(auto, using(crate::proofs::Hanging::pending_none, crate::proofs::Hanging::pending_literal))]
    fn hang_value(
        &self,
        alloc: Global,
        spare: &mut Spare,
        valued: Valued,
    ) -> Result<Emits, NoMemory>
        ensures { IfOk result (λ quads. quads
            ≡ spec.hang_pending self.now (term_of_value (spec.as_value valued))) }
    {
        match valued {
            Valued::Reference(name) => {
                let mut object = term_of_text(alloc, name)?;
                self.hang_from(alloc, spare, &mut object)
            }
            Valued::Literal(lit) => self.hang(alloc, spare, Term::Literal(lit)),
            Valued::LeftOut => Ok(Emits::none()),
        }
    }

    /// The quad with this literal, of the property whose value is open.
    #[tactic(auto, using(crate::proofs::Hanging::pending_none, crate::proofs::Hanging::pending_literal))]
    pub(crate) fn hang_literal(
        &self,
        alloc: Global,
        spare: &mut Spare,
        lit: Option<Lit>,
    ) -> Result<Emits, NoMemory>
        ensures { IfOk result (λ quads. quads ≡ spec.hang_pending self.now (term_of_lit lit)) }
    {
        match lit {
            None => Ok(Emits::none()),
            Some(lit) => self.hang(alloc, spare, Term::Literal(lit)),
        }
    }

    fn take_under(
        &mut self,
        alloc: Global,
        spare: &mut Spare,
        keyword: Keyword,
        key_at: u64,
        fact: ValueFact,
    ) -> Result<Emits, FrameStop>
        ensures { Goes result
            (spec.take_under keyword fact.given key_at fact.at self.old) self.old self.new }
    {
        let ValueFact { at, given } = fact;
        match given {
            Given::Type(expanded) => self.take_type_under(alloc, spare, keyword, key_at, expanded),
            Given::Written(scalar) => self.take_written(keyword, key_at, at, scalar),
            Given::Valued(_) => Err(wrong_form(keyword, key_at)),
        }
    }

    fn take_type_under(
        &mut self,
        alloc: Global,
        spare: &mut Spare,
        keyword: Keyword,
        key_at: u64,
        expanded: Expanded,
    ) -> Result<Emits, FrameStop>
        ensures { (at : ℕ) → Goes result
            (spec.take_under keyword (Given.Type expanded) key_at at self.old) self.old self.new }
    {
        match keyword {
            Keyword::Kind => self.take_type(alloc, spare, expanded),
            _ => Err(wrong_form(keyword, key_at)),
        }
    }

    #[inline(never)]
    fn take_written(
        &mut self,
        keyword: Keyword,
        key_at: u64,
        at: u64,
        scalar: Scalar,
    ) -> Result<Emits, FrameStop>
        ensures { Goes result
            (spec.take_under keyword (Given.Written scalar) key_at at self.old) self.old self.new }
    {
        match keyword {
            Keyword::Kind => Err(wrong_form(keyword, key_at)),
            Keyword::Value => {
                self.parts.value = Some(RawValue { at, scalar });
                Ok(Emits::none())
            }
            Keyword::Language => match scalar {
                Scalar::Str(text) => {
                    self.take_language(text);
                    Ok(Emits::none())
                }
                _ => Err(wrong_form(keyword, key_at)),
            },
            Keyword::Direction => match scalar {
                Scalar::Str(text) => take_direction(text.bytes(), key_at),
                _ => Err(wrong_form(keyword, key_at)),
            },
            Keyword::Id | Keyword::Index => match scalar {
                Scalar::Str(_) => Ok(Emits::none()),
                _ => Err(wrong_form(keyword, key_at)),
            },
        }
    }

    /// Says a type, or keeps it for a value object.
    fn take_type(
        &mut self,
        alloc: Global,
        spare: &mut Spare,
        expanded: Expanded,
    ) -> Result<Emits, FrameStop>
        ensures { Goes result (spec.take_type self.old.valued expanded self.old) self.old self.new }
    {
        if !self.valued {
            return Ok(self.hang_type(alloc, spare, expanded)?);
        }
        self.parts.kinds = match self.parts.kinds {
            Kinds::Untyped => Kinds::One(expanded),
            Kinds::One(_) | Kinds::Several => Kinds::Several,
        };
        Ok(Emits::none())
    }

    #[tactic(auto, using(crate::proofs::Hanging::hang_none))]
    fn hang_type(
        &self,
        alloc: Global,
        spare: &mut Spare,
        expanded: Expanded,
    ) -> Result<Emits, NoMemory>
        ensures { IfOk result (λ quads. quads
            ≡ spec.hang self.now rdf_type (spec.term_of_type expanded)) }
    {
        match expanded {
            Expanded::Null => Ok(Emits::none()),
            Expanded::Keyword(text) | Expanded::Name(text) => self.hang_type_name(
                alloc, spare, text,
            ),
        }
    }

    fn hang_type_name(
        &self,
        alloc: Global,
        spare: &mut Spare,
        name: Text,
    ) -> Result<Emits, NoMemory>
        ensures { IfOk result (λ quads. quads ≡ spec.hang self.now rdf_type (term_of_text name)) }
    {
        let mut object = term_of_text(alloc, name)?;
        self.say(alloc, spare, rdf_type(), &mut object)
    }

    /// Keeps the language of a value object.
    fn take_language(&mut self, text: Text)
        ensures { self.new ≡ spec.with_language self.old text }
    {
        if self.valued {
            self.parts.language = Some(text);
        }
    }

    /// An array of types has opened: a value object has no type then.
    pub fn take_types(&mut self)
        ensures { self.new ≡ spec.with_many_kinds self.old }
    {
        if self.valued {
            self.parts.kinds = Kinds::Several;
        }
    }
}

/// The refusal of a value that has another form than its keyword asks for.
pub fn wrong_form(keyword: Keyword, at: u64) -> FrameStop
    ensures { result ≡ FrameStop.Refused (record { code = spec.wrong_form keyword; at = at }) }
{
    FrameStop::Refused(Fault {
        code: keyword.wrong_form(),
        at,
    })
}

/// The direction says nothing.
fn take_direction(text: &[u8], at: u64) -> Result<Emits, FrameStop>
    ensures { (n : SpecNode) → Goes result
        (spec.take_direction (is_direction_text text.now) at n) n n }
{
    if is_direction(text) {
        Ok(Emits::none())
    } else {
        Err(wrong_form(Keyword::Direction, at))
    }
}

fn is_direction(text: &[u8]) -> bool
    ensures { result ≡ is_direction_text text.now }
{
    text == b"ltr".as_slice() || text == b"rtl".as_slice()
}
