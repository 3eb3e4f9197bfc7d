// The pairs of key and place that a note covers, one after another.
ghost use Rattle.std.specs.Prelude.{◌≡◌};
ghost use Rattle.std.specs.Iterator.{YieldsFirst, item_count};
ghost use Rattle.validating.specs.Walk.{must_show, covered, pairs_ahead};

use index::{Index, PairsBetween, pairs_between};
use rules::Noted;

/// The pairs that a note covers, as far as they are still ahead.
#[derive(Drop)]
pub(crate) enum Ahead<'a, I: Index> {
    Version(Option<(I::Key, usize)>),
    Range(PairsBetween<'a, I>),
}

/// Whether a version covered has to be visible: that of a version note, not those of a range.
pub(crate) fn must_show<K: Copy>(noted: Noted<K>) -> bool
    ensures { result ≡ must_show noted }
{
    matches!(noted, Noted::Version(_, _))
}

/// All that the note covers.
pub(crate) fn covered<'a, I: Index>(index: &'a I, noted: Noted<I::Key>) -> Ahead<'a, I>
    ensures { pairs_ahead result ≡ covered I.Key.Key.order (I.pairs index.now) noted }
{
    match noted {
        Noted::Version(key, place) => Ahead::Version(Some((key, place))),
        Noted::Range(lower, upper) => Ahead::Range(pairs_between(index, lower, upper)),
    }
}

impl<I: Index> Iterator for Ahead<'_, I> {
    type Item = (I::Key, usize);

    ghost next_gives = { YieldsFirst pairs_ahead };

    ghost remaining = { item_count pairs_ahead };

    fn next(&mut self) -> Option<(I::Key, usize)> {
        match self {
            Ahead::Version(pair) => pair.take(),
            Ahead::Range(pairs) => pairs.next(),
        }
    }
}
