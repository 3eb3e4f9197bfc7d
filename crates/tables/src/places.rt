// Places of a table: what stands there, which is free, and a write.
ghost use Rattle.std.specs.Prelude.{◌≡◌, ◌<◌, true, false, length, drop, not, is_some, IfSome, MatchOption, OnSome, slice_set};
ghost use Rattle.rules.specs.Tables.{entry, any_free, is_free, free_from, filled};
ghost use Rattle.tables.specs.Places.{search_from, pick};

use rules::Entry;

/// What the table holds at the place; none if the entry is free or lies outside.
#[tactic(auto, using(crate::proofs::Picking::held_there, crate::proofs::Picking::held_past))]
pub fn held_at<T: Copy>(table: &[Entry<T>], place: usize) -> Option<T>
    ensures holds { result ≡ entry table.now place }
    ensures inside { OnSome result (place < length table.now) }
{
    table.get(place)?.get()
}

// The table holds nothing at the place.
fn is_vacant<T: Copy>(table: &[Entry<T>], place: usize) -> bool
    ensures { result ≡ not (is_some (entry table.now place)) }
{
    held_at(table, place).is_none()
}

// The first free place at or after `from`.
fn free_from<T: Copy>(table: &[Entry<T>], from: usize) -> Option<usize>
    ensures found { result ≡ free_from from (drop from table.now) }
    ensures inside { IfSome result (λ p. p < length table.now) }
{
    (from..table.len()).find(|place| is_vacant(table, *place))
}

// The first free place at or after the hint, or else the first of all.
fn search_from<T: Copy>(table: &[Entry<T>], hint: usize) -> Option<usize>
    ensures found { result ≡ search_from hint table.now }
    ensures inside { IfSome result (λ p. p < length table.now) }
{
    free_from(table, hint).or_else(|| free_from(table, 0))
}

/// A free place, if there is one: the first at or after the hint, or else the first of all.
#[tactic(auto, using(crate::proofs::Picking::picked))]
pub fn free_place<T: Copy>(table: &[Entry<T>], hint: usize) -> Option<usize>
    ensures picks { MatchOption result (any_free table.now ≡ false) (λ p. (p ≡ pick hint table.now) × (is_free table.now p ≡ true)) }
    ensures inside { IfSome result (λ p. p < length table.now) }
{
    search_from(table, hint)
}

/// The item at the place; a place outside changes nothing.
#[tactic(auto, using(crate::proofs::Picking::write_past))]
pub fn set_at<T: Copy>(table: &mut [T], place: usize, item: T)
    ensures { table.new ≡ slice_set table.old place item }
{
    // Tried: `if let Some(held) = table.get_mut(place)` (it is not told what the table is after it).
    if place < table.len() {
        table[place] = item;
    }
}

/// The entry at the place holds the item; a place outside changes nothing.
pub fn replace<T: Copy>(table: &mut [Entry<T>], place: usize, item: T)
    ensures { table.new ≡ slice_set table.old place (filled item) }
{
    set_at(table, place, Entry::holding(Some(item)));
}
