// A random walk: an index beside a plain list of pairs, asked the same.
use chains::Chains;
use index::{Index, IndexFault, Put};
use keys::{CardNumber, Key};
use ordered::InOrder;
use std::process::Abort;
use std::test::Fail;

fn lowest_place(pairs: &[(u32, usize)], key: u32, from: usize) -> Option<usize> {
    pairs
        .iter()
        .filter(|(k, place)| *k == key && *place >= from)
        .map(|(_, place)| *place)
        .min()
}

fn lowest_key(pairs: &[(u32, usize)], key: u32, strictly: bool) -> Option<u32> {
    pairs
        .iter()
        .map(|(k, _)| *k)
        .filter(|k| *k > key || !strictly && *k == key)
        .min()
}

fn put_both<I: Index<Key = CardNumber>>(
    rt: &impl Abort,
    index: &mut I,
    pairs: &mut Vec<(u32, usize)>,
    key: u32,
    place: usize,
) -> Result<(), Fail> {
    let expected = if pairs.contains(&(key, place)) {
        Ok(Put::Present)
    } else if pairs.len() >= 40 {
        Err(IndexFault { capacity: 40 })
    } else {
        pairs.push((key, place))?;
        Ok(Put::Added)
    };
    assert_eq!(rt; index.put(CardNumber(key), place), expected);
    Ok(())
}

fn remove_both<I: Index<Key = CardNumber>>(
    rt: &impl Abort,
    index: &mut I,
    pairs: &mut Vec<(u32, usize)>,
    key: u32,
    place: usize,
) {
    let there = pairs.contains(&(key, place));
    pairs.retain(|pair| *pair != (key, place));
    assert_eq!(rt; index.remove(CardNumber(key), place), there);
}

fn check_nexts<I: Index<Key = CardNumber>>(
    rt: &impl Abort,
    index: &I,
    pairs: &[(u32, usize)],
    key: u32,
    place: usize,
) {
    assert_eq!(rt;
        index.next_place(CardNumber(key), place),
        lowest_place(pairs, key, place)
    );
    for strictly in [false, true] {
        assert_eq!(rt;
            index.next_key(CardNumber(key), strictly),
            lowest_key(pairs, key, strictly).map(CardNumber)
        );
    }
}

// Keys of four chains, eight to a chain; places 0 to 3; room for 40 of 128 pairs.
fn step<I: Index<Key = CardNumber>>(
    rt: &impl Abort,
    index: &mut I,
    pairs: &mut Vec<(u32, usize)>,
    draw: u32,
) -> Result<(), Fail> {
    let key = (draw >> 8) % 4 + (draw >> 12) % 8 * 256;
    let place = ((draw >> 20) % 4) as usize;
    match (draw >> 24) % 16 {
        0..=7 => put_both(rt, index, pairs, key, place)?,
        8..=14 => remove_both(rt, index, pairs, key, place),
        _ => {
            if (draw >> 28) % 16 == 0 {
                index.clear();
                pairs.clear();
            }
        }
    }
    check_nexts(rt, index, pairs, key, place);
    Ok(())
}

fn walk<I: Index<Key = CardNumber>>(
    rt: &(impl Abort + AllocGlobal),
    index: &mut I,
    seed: u32,
) -> Result<(), Fail> {
    let mut pairs: Vec<(u32, usize)> = Vec::new(rt.alloc());
    let mut state = seed;
    for _ in 0..4000u32 {
        state = state.wrapping_mul(1664525).wrapping_add(1013904223);
        step(rt, index, &mut pairs, state)?;
    }
    Ok(())
}

#[test]
fn beside_a_list(rt: HostRuntime) -> Result<(), Fail> {
    for seed in 1..9u32 {
        walk(&rt, &mut InOrder::new(rt.alloc(), 40)?, seed)?;
        walk(&rt, &mut Chains::new(rt.alloc(), 40)?, seed)?;
    }
    Ok(())
}
