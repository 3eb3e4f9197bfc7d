// What a transaction finds of some keys: the version that it sees, whom to wait on, and what tells against an insert.
ghost use Rattle.std.specs.Prelude.{◌≡◌};
ghost use Rattle.index.specs.Listed.{rest};
ghost use Rattle.walks.specs.Walk.{also, start, walk};

use crate::{Search, Survey, reach_one};
use index::{Index, pairs_between};
use rules::Refusal;
use seeing::{Sight, Version};
use slots::marked;

impl<I: Index, V: Copy> Search<'_, I, V> {
    // What has been found once a version more is met.
    fn meet(&self, survey: Survey<I::Key, V>, met: (usize, Version<I::Key, V>)) -> Survey<I::Key, V>
        ensures { result ≡ also self.now.slots.now self.now.name survey met }
    {
        let (_, version) = met;
        let sight = Sight::at_begin(self.slots, self.name);
        Survey {
            // Not by `or` and `then_some`: each moves the version once more.
            seen: match survey.seen {
                None if sight.sees(&version) => Some(met),
                seen => seen,
            },
            waits: marked(self.slots, sight.waits_for(&version), survey.waits),
            newer: survey.newer || version.begin.is_too_new(version.end, self.slots, self.name),
        }
    }

    #[tactic(auto, using(crate::proofs::Stopping::walk_begins, crate::proofs::Walking::walk_ends))]
    /// What the transaction finds in the walk; `waits` are the marks of those that it waits on already.
    pub fn survey(&self, waits: [bool; 64]) -> Result<Survey<I::Key, V>, Refusal>
        ensures { result ≡ walk I.Key.Key.order self.now.slots.now self.now.versions.now self.now.name (start waits) (rest I.Key.Key.order self.now.lower 0 self.now.upper (I.pairs self.now.index.now)) }
    {
        let mut survey = Survey {
            seen: None,
            waits,
            newer: false,
        };
        for (key, place) in pairs_between(self.index, self.lower, self.upper) {
            let met = reach_one(self.slots, self.versions, key, place)?;
            survey = self.meet(survey, met);
        }
        Ok(survey)
    }
}
