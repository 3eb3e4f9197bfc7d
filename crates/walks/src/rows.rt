// The rows that a transaction sees of some keys.
ghost use Rattle.std.specs.Prelude.{◌≡◌, [], length, None};
ghost use Rattle.index.specs.Listed.{rest};
ghost use Rattle.rules.specs.BookRules.{same_last, shows};
ghost use Rattle.walks.specs.Rows.{listing, Lists};

use crate::{Search, reach_one};
use index::{Index, pairs_between};
use keys::Key;
use rules::{Refusal, Row};
use seeing::{Sight, Version};
use tables::set_at;

// The key is that of the row before.
fn is_last<K: Key>(last: Option<K>, key: K) -> bool
    ensures { result ≡ same_last K.Key.order last key }
{
    last.is_some_and(|before| before.compare(&key).is_eq())
}

impl<I: Index, V: Copy> Search<'_, I, V> {
    // The version is a row: it is seen, and no row of its key stands before it.
    fn is_row(&self, last: Option<I::Key>, version: &Version<I::Key, V>) -> bool
        ensures { result ≡ shows I.Key.Key.order self.now.slots.now self.now.name last version.now }
    {
        Sight::at_begin(self.slots, self.name).sees(version) && !is_last(last, version.key)
    }

    #[tactic(auto, using(crate::proofs::Stopping::list_begins))]
    // The number of the rows, if there is room for them; as many as lie in the table are written to its front.
    fn list_rows(&self, room: usize, rows: &mut [Row<I::Key, V>]) -> Result<usize, Refusal>
        ensures { Lists (listing I.Key.Key.order self.now.slots.now self.now.versions.now self.now.name room (record { last = None; count = 0; table = rows.old }) (rest I.Key.Key.order self.now.lower 0 self.now.upper (I.pairs self.now.index.now))) rows.new result }
    {
        let mut last = None;
        let mut count = 0;
        for (key, place) in pairs_between(self.index, self.lower, self.upper) {
            let (_, version) = reach_one(self.slots, self.versions, key, place)?;
            if self.is_row(last, &version) {
                if count >= room {
                    return Err(Refusal::Rows);
                }
                let row = Row {
                    key: version.key,
                    value: version.value,
                };
                set_at(rows, count, row);
                last = Some(version.key);
                count += 1;
            }
        }
        Ok(count)
    }

    /// The number of the rows, if there is room for them.
    pub fn count_rows(&self, room: usize) -> Result<usize, Refusal>
        ensures { Lists (listing I.Key.Key.order self.now.slots.now self.now.versions.now self.now.name room (record { last = None; count = 0; table = [] }) (rest I.Key.Key.order self.now.lower 0 self.now.upper (I.pairs self.now.index.now))) [] result }
    {
        // There is no table to write to.
        let mut none = [];
        self.list_rows(room, &mut none)
    }

    /// Writes the rows to the front of the table, as far as there is room; their number.
    pub fn write_rows(&self, rows: &mut [Row<I::Key, V>]) -> Result<usize, Refusal>
        ensures { Lists (listing I.Key.Key.order self.now.slots.now self.now.versions.now self.now.name (length rows.old) (record { last = None; count = 0; table = rows.old }) (rest I.Key.Key.order self.now.lower 0 self.now.upper (I.pairs self.now.index.now))) rows.new result }
    {
        self.list_rows(rows.len(), rows)
    }
}
