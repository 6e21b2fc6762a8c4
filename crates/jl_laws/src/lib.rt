//! Laws of the definitions of reading JSON-LD.
#![tactic(auto)]

ghost use Rattle.jl_laws.specs.Laws.{FaultsAreBuilt, FaultsStay, FaultsStayInBytes, MembersMove, SaysDataset};

/// A fault that is reported for what has been read of a document is a fault of every document that goes on from it, in
/// streaming order.
pub fn law_faults()
    ensures { FaultsStay }
{}

/// A fault that is reported for the first bytes of a document is a fault of every document that begins with them and can
/// be read, in streaming order.
pub fn law_faults_bytes()
    ensures { FaultsStayInBytes }
{}

/// What one walk over a document says, at the root's spot, is its dataset by expansion and node map, as a set: for every
/// form of documents, in both orders.
pub fn law_frames()
    ensures { SaysDataset }
{}

/// The order of an object's members doesn't change what it says, where neither order has faults: in the order any for each
/// object, in streaming order for those that can't go back to a context before and aren't read as graphs.
pub fn law_members()
    ensures { MembersMove }
{}

/// No fault of a document has the code of a form that isn't built, whatever its contexts and the order.
pub fn law_codes()
    ensures { FaultsAreBuilt }
{}
