//! The quads that one fact brings.
ghost use Rattle.std.specs.Prelude.{◌≡◌, ◌↔◌, [], ◌∷◌, IsTrue};
ghost use Rattle.jl_frames.specs.Formed.{listed};

use super::rooms::Room;
use jl_model::Quad;
use std::marker::Model;
use std::slice;

/// The quads that one fact brings, which contracts see as a list. They move as one pointer.
#[derive(Debug, Drop)]
pub struct Emits {
    room: Option<Room>,
}

impl Model for Emits {
    ghost use Rattle.std.specs.Prelude.{List};
    ghost use Rattle.jl_model.specs.Parts.{Parts};
    ghost use Rattle.jl_frames.specs.Formed.{listed};

    ghost Value = { List Parts };

    ghost view = { λ emits. listed emits.room };
}

impl Emits {
    /// No quads.
    #[inline(always)]
    pub fn none() -> Emits
        ensures { result ≡ [] }
    {
        Emits { room: None }
    }

    /// The quad in the room.
    #[inline(always)]
    pub(crate) fn of_room(room: Room) -> Emits
        ensures { result ≡ room ∷ [] }
    {
        Emits { room: Some(room) }
    }

    /// Whether there are none.
    #[inline(always)]
    pub fn is_empty(&self) -> bool
        ensures { IsTrue result ↔ self.now ≡ [] }
    {
        self.room.is_none()
    }

    /// The quad, if there is one, moved to where it shall stand.
    pub fn into_quad(self) -> Option<Quad>
        ensures { listed result ≡ self }
    {
        match self.room {
            None => None,
            Some(room) => Some(room.into_quad()),
        }
    }

    /// The room, if there is one.
    #[inline(always)]
    pub(crate) fn into_room(self) -> Option<Room> {
        self.room
    }

    /// The quads, lent.
    pub fn quads(&self) -> &[Quad]
        ensures { result.now ≡ self.now }
    {
        match &self.room {
            None => &[],
            Some(room) => slice::from_ref(room.quad()),
        }
    }
}
