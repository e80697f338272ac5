//! The values of the plain keys: Type 1 Font Format 1.1, chapters 2 and 5.

ghost use Rattle.std.specs.Prelude.{◌≡◌, map, set, slice_index_or};
ghost use Rattle.t1_font.specs.Entries.{entry_view};
ghost use Rattle.t1_font.specs.Keys.{index_of, key_places};
ghost use Rattle.t1_font.specs.Values.{absent};

use crate::entry::Entry;
use crate::key::Key;
use std::marker::Model;

/// How many plain keys there are.
pub const PLAIN_KEYS: usize = 22;

/// What each plain key has, at the key's place.
#[derive(Drop)]
pub(crate) struct PlainValues {
    entries: [Entry; PLAIN_KEYS],
}

impl Model for PlainValues {
    ghost use Rattle.std.specs.Prelude.{map};
    ghost use Rattle.t1_font.specs.Entries.{entry_view};
    ghost use Rattle.t1_font.specs.Private.KeyValues.{KeyValues};

    ghost Value = { KeyValues };

    ghost view = { λ v. map entry_view v.entries };
}

impl PlainValues {
    /// No key has a value.
    pub fn new() -> PlainValues
        ensures { result ≡ map (λ _. absent) key_places }
    {
        PlainValues {
            entries: [
                Entry::Absent,
                Entry::Absent,
                Entry::Absent,
                Entry::Absent,
                Entry::Absent,
                Entry::Absent,
                Entry::Absent,
                Entry::Absent,
                Entry::Absent,
                Entry::Absent,
                Entry::Absent,
                Entry::Absent,
                Entry::Absent,
                Entry::Absent,
                Entry::Absent,
                Entry::Absent,
                Entry::Absent,
                Entry::Absent,
                Entry::Absent,
                Entry::Absent,
                Entry::Absent,
                Entry::Absent,
            ],
        }
    }

    /// What a key has.
    pub fn entry(&self, key: Key) -> &Entry
        ensures { entry_view result.now ≡ slice_index_or self.now (index_of key) absent }
    {
        &self.entries[key.place()]
    }

    /// A key's value is this from now on.
    pub fn put(&mut self, key: Key, entry: Entry)
        ensures { self.new ≡ set self.old (index_of key) (entry_view entry) }
    {
        self.entries[key.place()] = entry;
    }
}
