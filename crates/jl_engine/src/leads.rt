//! Objects that are held.
ghost use Rattle.std.specs.Prelude.{◌≡◌, [], IfOk, OnOk, suc, false};
ghost use Rattle.jl_context.specs.Contexts.{context_of};
ghost use Rattle.jl_context.specs.declared.contexts.Context.{Context as SpecContext};
ghost use Rattle.jl_defs.specs.ObjectContexts as contexts;
ghost use Rattle.jl_engine.specs.Leads as spec;
ghost use Rattle.jl_engine.specs.Leads.{Answers};
ghost use Rattle.jl_engine.specs.Marks.{event_lent, scalar_lent};

use crate::events::Events;
use crate::expansions::class_of_key;
use crate::lents::{Lent, LentScalar};
use jl_context::{Context, expand_iri};
use jl_model::{Code, Expanded, Fault, NoMemory};
use jl_prelude::Class;
use std::alloc::Global;

/// An open object that hasn't entered: its leading members are held, and show whether it is a node
/// or a value object, and its name. They are told once it has entered.
#[derive(Debug, Drop)]
pub struct Lead {
    /// The place of its opening brace.
    pub at: u64,
    /// The events of its members so far.
    pub held: Events,
    /// What the string of its first `@id` expands to.
    pub name: Option<Expanded>,
    /// Whether it has an `@id`.
    pub named: bool,
    /// Whether it has a key for `@value`.
    pub valued: bool,
    /// Whether its first type is `@json`.
    pub json: bool,
    /// Whether it has types.
    pub typed: bool,
    /// How far its members have come.
    pub part: LeadPart,
    /// Where the next event stands.
    pub spot: LeadSpot,
}

/// How far the members of an object have come that is held.
#[derive(Clone, Copy, Debug, PartialEq, Eq)]
pub enum LeadPart {
    /// In its prelude.
    Prelude,
    /// In its second run.
    Run,
    /// After an array or an object under `@value`, which ends the second run.
    Over,
}

/// Where an event stands in an object that is held.
#[derive(Clone, Copy, Debug, PartialEq, Eq)]
pub enum LeadSpot {
    /// Before a key, or after the last member.
    Between,
    /// After a key, with what it is for.
    After(Class),
    /// In the array of its types, so many containers deep, with whether the last item is `@json`.
    InTypes(u64, bool),
    /// In another value that is an array or an object, so many containers deep.
    Inside(u64),
}

/// What an event does in an object that is held.
#[derive(Clone, Copy, Debug, PartialEq, Eq)]
pub enum Admit {
    /// It is held too.
    Held,
    /// It isn't held: the value in which it stands is at fault, or of a form that isn't built,
    /// whatever stands in it.
    Dropped,
    /// The object is decided before it.
    Decides,
    Refused(Fault),
}

impl Lead {
    /// An object that has just opened, with room for its events. It takes no memory.
    pub fn begun(held: Events, at: u64) -> Lead
        requires { held ≡ [] }
        ensures { result ≡ spec.begun at }
    {
        Lead {
            at,
            held,
            name: None,
            named: false,
            valued: false,
            json: false,
            typed: false,
            part: LeadPart::Prelude,
            spot: LeadSpot::Between,
        }
    }

    /// What an event does in the object, which notes what the event shows. An event that is held is
    /// still to be added to the others.
    pub fn admit(
        &mut self,
        alloc: Global,
        context: &Context,
        event: Lent<'_>,
    ) -> Result<Admit, NoMemory>
        ensures { IfOk result (λ admit. Answers admit self.old self.new
            (spec.admits (context_of context.now) (event_lent event.entry) self.old)) }
    {
        match event {
            Lent::OpensObject { .. } => self.open_object(),
            Lent::OpensArray { .. } => self.open_array(),
            Lent::Closes => Ok(self.close()),
            Lent::Key { at, name } => Ok(self.take_key(at, name)),
            Lent::Value { scalar, .. } => self.take_scalar(alloc, context, scalar),
        }
    }

    /// A key.
    fn take_key(&mut self, at: u64, name: &[u8]) -> Admit
        ensures { (c : SpecContext) → Answers result self.old self.new
            (spec.key_at self.old.spot (context_of c) at name.now self.old) }
    {
        match self.spot {
            LeadSpot::InTypes(..) => Admit::Held,
            LeadSpot::Inside(_) => Admit::Dropped,
            LeadSpot::Between | LeadSpot::After(_) => self.take_member(at, name),
        }
    }

    /// The key of a member. A context of its own isn't built.
    fn take_member(&mut self, at: u64, name: &[u8]) -> Admit
        ensures { (c : SpecContext) → Answers result self.old self.new
            (spec.key_between (context_of c) at name.now self.old) }
    {
        if self.held.is_empty() && is_context_name(name) {
            return Admit::Refused(Fault {
                code: Code::NotYet,
                at,
            });
        }
        self.go_after(class_of_key(name))
    }

    /// A key of this class: one with which the members go on is held.
    fn go_after(&mut self, class: Class) -> Admit
        ensures { Answers result self.old self.new (spec.key_by class self.old) }
    {
        if !self.part.goes_on(class) {
            return Admit::Decides;
        }
        self.spot = LeadSpot::After(class);
        Admit::Held
    }

    /// An array opens.
    fn open_array(&mut self) -> Result<Admit, NoMemory>
        ensures { IfOk result (λ admit. Answers admit self.old self.new
            (spec.array_at self.old.spot self.old)) }
    {
        match self.spot {
            LeadSpot::After(Class::Kind) => {
                self.spot = LeadSpot::InTypes(0, false);
                Ok(Admit::Held)
            }
            LeadSpot::After(class) => Ok(self.open_whole(class)),
            LeadSpot::InTypes(depth, _) => self.open_in_types(depth),
            LeadSpot::Inside(depth) => self.open_inside(depth),
            LeadSpot::Between => Ok(Admit::Decides),
        }
    }

    /// An object opens.
    fn open_object(&mut self) -> Result<Admit, NoMemory>
        ensures { IfOk result (λ admit. Answers admit self.old self.new
            (spec.object_at self.old.spot self.old)) }
    {
        match self.spot {
            LeadSpot::After(class) => Ok(self.open_whole(class)),
            LeadSpot::InTypes(depth, _) => self.open_in_types(depth),
            LeadSpot::Inside(depth) => self.open_inside(depth),
            LeadSpot::Between => Ok(Admit::Decides),
        }
    }

    /// An array or an object opens as the value of a key of this class.
    fn open_whole(&mut self, class: Class) -> Admit
        ensures { Answers result self.old self.new (spec.opens_whole class self.old) }
    {
        match class {
            Class::Value => {
                self.valued = true;
                self.part = LeadPart::Over;
            }
            Class::Identifier => {
                self.show_name(None);
                self.part = LeadPart::Run;
            }
            _ => self.part = LeadPart::Run,
        }
        self.spot = LeadSpot::Inside(0);
        Admit::Held
    }

    /// A container opens inside the array of types, so many containers deep.
    fn open_in_types(&mut self, depth: u64) -> Result<Admit, NoMemory>
        ensures { IfOk result (λ admit. Answers admit self.old self.new
            (spec.holds (record self.old { spot = LeadSpot.InTypes (suc depth) false }))) }
    {
        let deeper = deeper(depth)?;
        self.spot = LeadSpot::InTypes(deeper, false);
        Ok(Admit::Held)
    }

    /// A container opens inside another value, so many containers deep.
    fn open_inside(&mut self, depth: u64) -> Result<Admit, NoMemory>
        ensures { IfOk result (λ admit. Answers admit self.old self.new
            (spec.drops (record self.old { spot = LeadSpot.Inside (suc depth) }))) }
    {
        let deeper = deeper(depth)?;
        self.spot = LeadSpot::Inside(deeper);
        Ok(Admit::Dropped)
    }

    /// A container closes.
    fn close(&mut self) -> Admit
        ensures { Answers result self.old self.new (spec.close_at self.old.spot self.old) }
    {
        match self.spot {
            LeadSpot::InTypes(depth, last) => self.close_in_types(depth, last),
            LeadSpot::Inside(depth) => self.close_inside(depth),
            LeadSpot::Between | LeadSpot::After(_) => Admit::Decides,
        }
    }

    fn close_in_types(&mut self, depth: u64, last: bool) -> Admit
        ensures { Answers result self.old self.new
            (spec.close_at (LeadSpot.InTypes depth last) self.old) }
    {
        if depth == 0 {
            self.show_json(last);
            self.spot = LeadSpot::Between;
        } else {
            self.spot = LeadSpot::InTypes(depth - 1, last);
        }
        Admit::Held
    }

    fn close_inside(&mut self, depth: u64) -> Admit
        ensures { Answers result self.old self.new
            (spec.close_at (LeadSpot.Inside depth) self.old) }
    {
        if depth == 0 {
            self.spot = LeadSpot::Between;
            return Admit::Held;
        }
        self.spot = LeadSpot::Inside(depth - 1);
        Admit::Dropped
    }

    /// A scalar.
    fn take_scalar(
        &mut self,
        alloc: Global,
        context: &Context,
        scalar: LentScalar<'_>,
    ) -> Result<Admit, NoMemory>
        ensures { IfOk result (λ admit. Answers admit self.old self.new
            (spec.scalar_in self.old.spot (context_of context.now) (scalar_lent scalar.entry)
            self.old)) }
    {
        match self.spot {
            LeadSpot::Inside(_) => return Ok(Admit::Dropped),
            LeadSpot::InTypes(0, _) => self.spot = LeadSpot::InTypes(0, is_json(scalar)),
            LeadSpot::After(class) => self.show(alloc, context, class, scalar)?,
            LeadSpot::InTypes(..) | LeadSpot::Between => {}
        }
        Ok(Admit::Held)
    }

    /// What the scalar of a key of this class shows.
    fn show(
        &mut self,
        alloc: Global,
        context: &Context,
        class: Class,
        scalar: LentScalar<'_>,
    ) -> Result<(), NoMemory>
        ensures { OnOk result (self.new
            ≡ spec.shows (context_of context.now) class (scalar_lent scalar.entry) self.old) }
    {
        self.spot = LeadSpot::Between;
        match class {
            Class::Identifier => self.take_name(alloc, context, scalar),
            Class::Kind => {
                self.show_json(is_json(scalar));
                Ok(())
            }
            Class::Value => {
                self.valued = true;
                Ok(())
            }
            Class::Aside | Class::Other => Ok(()),
        }
    }

    /// The scalar of `@id`.
    fn take_name(
        &mut self,
        alloc: Global,
        context: &Context,
        scalar: LentScalar<'_>,
    ) -> Result<(), NoMemory>
        ensures { OnOk result (self.new
            ≡ spec.named (spec.name_of (context_of context.now) (scalar_lent scalar.entry))
            self.old) }
    {
        let name = match scalar {
            LentScalar::Str(text) => Some(expand_iri(alloc, context, text, false, true)?),
            _ => None,
        };
        self.show_name(name);
        Ok(())
    }

    /// What an `@id` names the object: only the first one does.
    fn show_name(&mut self, name: Option<Expanded>)
        ensures { self.new ≡ spec.named name self.old }
    {
        if !self.named {
            self.name = name;
            self.named = true;
        }
    }

    /// Whether a type is `@json`: only the first member for types shows it.
    fn show_json(&mut self, json: bool)
        ensures { self.new ≡ spec.typed json self.old }
    {
        if !self.typed {
            self.json = json;
            self.typed = true;
        }
    }
}

impl LeadPart {
    /// Whether the members go on with a key of this class.
    fn goes_on(self, class: Class) -> bool
        ensures { result ≡ spec.goes_on self class }
    {
        match self {
            LeadPart::Prelude => match class {
                Class::Other => false,
                _ => true,
            },
            LeadPart::Run => match class {
                Class::Other | Class::Kind => false,
                _ => true,
            },
            LeadPart::Over => false,
        }
    }
}

/// One container deeper. A count that doesn't fit is out of memory: each container takes some.
fn deeper(depth: u64) -> Result<u64, NoMemory>
    ensures { IfOk result (λ deeper. deeper ≡ suc depth) }
{
    match depth.checked_add(1) {
        Some(deeper) => Ok(deeper),
        None => Err(NoMemory),
    }
}

/// Whether a key is `@context`.
fn is_context_name(name: &[u8]) -> bool
    ensures { result ≡ contexts.is_context_name name.now }
{
    name == b"@context".as_slice()
}

/// Whether a scalar is the type `@json`.
fn is_json(scalar: LentScalar<'_>) -> bool
    ensures { result ≡ spec.is_json (scalar_lent scalar.entry) }
{
    match scalar {
        LentScalar::Str(text) => text == b"@json".as_slice(),
        _ => false,
    }
}
