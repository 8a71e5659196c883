// Sets of servers, which are numbered from 1 to 64.
ghost use Rattle.bits.specs.Servers.{FirstOf, IsServer, has};
ghost use Rattle.bits.specs.Words.{Cleared, Set};
ghost use Rattle.std.specs.Prelude.{◌≡◌, ◌-◌};

use crate::{has_bit, lowest, with_bit, without_bit};

// A set of servers: server s is in it where bit s - 1 of the word is set.
#[derive(Clone, Copy, PartialEq, Eq, Debug)]
pub struct ServerSet {
    pub word: u64,
}

impl ServerSet {
    // The set without servers.
    pub const EMPTY: ServerSet = ServerSet { word: 0 };

    // Puts the server into the set. A number that is no server changes nothing.
    pub fn insert(&mut self, server: u8)
        ensures server { IsServer server → Set self.old.word (server - 1) self.new.word }
        ensures other { ¬ IsServer server → self.new ≡ self.old }
    {
        if server > 0 {
            self.word = with_bit(self.word, server as u32 - 1);
        }
    }

    // Takes the server out of the set. A number that is no server changes nothing.
    pub fn remove(&mut self, server: u8)
        ensures server { IsServer server → Cleared self.old.word (server - 1) self.new.word }
        ensures other { ¬ IsServer server → self.new ≡ self.old }
    {
        if server > 0 {
            self.word = without_bit(self.word, server as u32 - 1);
        }
    }

    // Whether the server is in the set. A number that is no server is not.
    pub fn contains(&self, server: u8) -> bool
        ensures answer { result ≡ has self.now server }
    {
        server > 0 && has_bit(self.word, server as u32 - 1)
    }

    // The lowest server in the set, if there is one.
    pub fn first(&self) -> Option<u8>
        ensures answer { FirstOf self.now result }
    {
        let place = lowest(self.word)?;
        Some(place as u8 + 1)
    }
}
