//! Marks of events that are held.
ghost use Rattle.std.specs.Prelude.{◌≡◌, take, drop, IfSome};
ghost use Rattle.jl_engine.specs.Marks.{at_of, event_by, event_lent, len_of, whole};

use crate::lents::{Lent, LentScalar};

/// What an event is that is held.
#[derive(Clone, Copy, Debug, PartialEq, Eq)]
pub enum MarkKind {
    OpensObject,
    OpensArray,
    Closes,
    Key,
    Null,
    True,
    False,
    Number,
    Str,
}

/// An event that is held, but for its text. It has its numbers in five bytes each.
#[derive(Clone, Copy, Debug)]
pub struct Mark {
    /// The place of its token, but for its highest byte.
    pub at_low: u32,
    /// How many bytes its text has, but for the highest byte of that number.
    pub len_low: u32,
    pub at_high: u8,
    pub len_high: u8,
    pub kind: MarkKind,
}

impl Mark {
    /// The mark of an event of this kind, at this place, with a text of so many bytes. There is
    /// none for numbers of more than five bytes, which no document reaches.
    #[tactic(auto, unfolding(crate::specs::Marks::at_of, crate::specs::Marks::len_of))]
    pub fn new(kind: MarkKind, at: u64, len: u64) -> Option<Mark>
        ensures kind { IfSome result (λ mark. mark.kind ≡ kind) }
        ensures at { IfSome result (λ mark. at_of mark ≡ at) }
        ensures len { IfSome result (λ mark. len_of mark ≡ len) }
    {
        let (at_low, at_high) = split(at)?;
        let (len_low, len_high) = split(len)?;
        Some(Mark {
            at_low,
            len_low,
            at_high,
            len_high,
            kind,
        })
    }

    /// How many bytes its text has.
    #[tactic(auto, unfolding(crate::specs::Marks::len_of))]
    #[inline(always)]
    pub fn len(self) -> u64
        ensures { result ≡ len_of self }
    {
        join(self.len_low, self.len_high)
    }

    /// The event, with its text.
    #[tactic(auto, unfolding(crate::specs::Marks::at_of))]
    #[inline(always)]
    pub fn event(self, text: &[u8]) -> Lent<'_>
        ensures { event_lent result ≡ event_by self.kind (at_of self) text.now }
    {
        let at = join(self.at_low, self.at_high);
        match self.kind {
            MarkKind::OpensObject => Lent::OpensObject { at },
            MarkKind::OpensArray => Lent::OpensArray { at },
            MarkKind::Closes => Lent::Closes,
            MarkKind::Key => Lent::Key { at, name: text },
            MarkKind::Null => value(at, LentScalar::Null),
            MarkKind::True => value(at, LentScalar::Bool(true)),
            MarkKind::False => value(at, LentScalar::Bool(false)),
            MarkKind::Number => value(at, LentScalar::Number(text)),
            MarkKind::Str => value(at, LentScalar::Str(text)),
        }
    }
}

#[inline(always)]
fn value(at: u64, scalar: LentScalar<'_>) -> Lent<'_>
    ensures { result ≡ Lent.Value at scalar.entry }
{
    Lent::Value { at, scalar }
}

/// A number in five bytes: the lower four, and the highest.
fn split(number: u64) -> Option<(u32, u8)>
    ensures { IfSome result (λ parts. whole parts.0 parts.1 ≡ number) }
{
    match u8::try_from(number / 4_294_967_296) {
        Ok(high) => Some(((number % 4_294_967_296) as u32, high)),
        Err(_) => None,
    }
}

/// The number of these bytes.
#[inline(always)]
fn join(low: u32, high: u8) -> u64
    ensures { result ≡ whole low high }
{
    u64::from(high) * 4_294_967_296 + u64::from(low)
}

/// The text of so many bytes at the front, and what follows it.
#[inline(always)]
pub fn text_and_rest(bytes: &[u8], len: u64) -> (&[u8], &[u8])
    ensures text { result.0.now ≡ take len bytes.now }
    ensures rest { result.1.now ≡ drop len bytes.now }
{
    if len <= bytes.len() as u64 {
        return bytes.split_at(len as usize);
    }
    (bytes, b"")
}
