// The entries of a session: put last, taken from the end, read. The cube of all of them goes with each, so that nothing ever walks them.
ghost use Rattle.std.specs.Prelude.{◌≡◌, [], ◌∷◌, ◌++◌, ◌+◌, ◌-◌, ◌<◌, take};
ghost use Rattle.model.specs.Entries.{entry_at};
ghost use Rattle.session.specs.Sound.{standing_of, Shaped, Fresh, Empty};
ghost use Rattle.session.specs.Step.{Moved};

use crate::{Entry, Session};
use cube::Cube64;
use records::Counts;

impl Session {
    // No entry and no record.
    pub fn empty() -> Session
        ensures { Empty result }
    {
        let none = Entry {
            variable: 0,
            value: 0,
            desk: 0,
        };
        Session {
            entries: [none; 64],
            len: 0,
            entered: Cube64::UNFIXED,
            kept: Counts { under: 0, over: 0 },
        }
    }

    // The entry put last. Here alone an entry comes to stand.
    pub fn append(self, entry: Entry) -> Session
        requires { Shaped self × (self.len < 64) × Fresh self entry.variable }
        ensures { Moved self result (standing_of self ++ (entry ∷ [])) }
    {
        let mut entries = self.entries;
        entries[self.len] = entry;
        Session {
            entries,
            len: self.len + 1,
            entered: self.entered.fix(entry.variable, entry.value == 1),
            ..self
        }
    }

    // The latest entry struck.
    pub fn remove_last(self) -> Session
        requires { Shaped self × (0 < self.len) }
        ensures { Moved self result (take (self.len - 1) (standing_of self)) }
    {
        let len = self.len - 1;
        let entry = self.entries[len];
        let freed = self.entered.free(entry.variable);
        Session {
            len,
            entered: freed,
            ..self
        }
    }

    // The entry at a place; 0 is the oldest.
    pub fn entry_at(self, place: usize) -> Entry
        requires { Shaped self × (place < self.len) }
        ensures { result ≡ entry_at (standing_of self) place }
    {
        self.entries[place]
    }
}
