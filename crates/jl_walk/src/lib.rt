//! One walk over a document: the machine that reads it with a stack of open containers, as a definition, and its laws.
#![tactic(auto)]

ghost use Rattle.jl_walk.specs.Closed.{ItemsPut, MembersPut, OpenEnters};
ghost use Rattle.jl_walk.specs.Due.{DueIsPut, PartsPrompt};
ghost use Rattle.jl_walk.specs.Laws.{EventsCut, FeedsDataset, PartSays, ReadSays, ReadsDataset, ValuesRun, WalkSays};

/// A value at the spot of a frame, whatever is open round it: the machine says what one walk says there, and the frame learns
/// whether the value is kept and where the next one hangs; or the machine stops, at one of the value's faults or at a form that
/// isn't built. In both orders of members.
pub fn law_values()
    ensures { ValuesRun }
{}

/// The machine says of a document what one walk over its tree says, quad by quad and in the same order; or it stops, at one
/// of the document's faults, a late key among them, or at a form that isn't built. In both orders of members.
pub fn law_walk()
    ensures { WalkSays }
{}

/// Where the machine doesn't stop on a document, this has no fault, all in it is built, and the quads are its dataset. In both
/// orders of members.
pub fn law_feeds_dataset()
    ensures { FeedsDataset }
{}

/// In streaming order the events of a tree do what the whole tree does, whatever is open round it and whatever follows: each
/// object is decided by its prelude and the key that ends it, and named by its members before the rest.
pub fn law_events()
    ensures { EventsCut }
{}

/// In streaming order the events of a document bring what one walk over its tree says, in the same order, or stop at one of
/// the document's faults or at a form that isn't built.
pub fn law_reads()
    ensures { ReadSays }
{}

/// In streaming order, where the events of a document don't stop, this has no fault, all in it is built, and the quads are its
/// dataset.
pub fn law_reads_dataset()
    ensures { ReadsDataset }
{}

/// In streaming order, what a part of the events has brought begins what each accepted document says that goes on from it; and
/// a fault that has come is one of the document's, whatever follows, or stands at a form that isn't built.
pub fn law_part()
    ensures { PartSays }
{}

/// In streaming order, the closed items of an open array have put what one walk says of them, whatever follows, where they have
/// no fault and are of forms that are built.
pub fn law_closed_items()
    ensures { ItemsPut }
{}

/// In streaming order, the closed members of an object that has entered have put what one walk says of them, whatever follows,
/// where they have no fault and are of forms that are built.
pub fn law_closed_members()
    ensures { MembersPut }
{}

/// In streaming order, an object that is settled by its closed members, the next key and the first byte of its value has
/// entered before this key, decided and named by these, and its closed members have been fed, whatever follows.
pub fn law_enters()
    ensures { OpenEnters }
{}

/// In streaming order, where the events of what has been read of a document don't stop, each quad that is due by it has been
/// put, whatever follows.
pub fn law_due()
    ensures { DueIsPut }
{}

/// In streaming order, where an accepted document of the forms that are built goes on from what has been read, the events of
/// this have put each quad that is due, and what they have put begins what the document says.
pub fn law_prompt()
    ensures { PartsPrompt }
{}
