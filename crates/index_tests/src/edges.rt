// Edges: capacities, the lowest and highest keys and places, keys that share a chain.
use chains::Chains;
use index::{Index, IndexFault, Put};
use keys::{BoardPlace, CardNumber, Key};
use ordered::InOrder;
use std::fmt::Debug;
use std::process::Abort;
use std::test::Fail;

// Handle, index and key are lent to each function anew: a struct of them would only rename them.
// A full index refuses another pair, says "present" of one that it has, and is as it was.
fn none_fits<K: Key + Drop, I: Index<Key = K>>(rt: &impl Abort, index: &mut I, key: K) {
    assert_eq!(rt; index.capacity(), 0);
    assert_eq!(rt; index.put(key, 0), Err(IndexFault { capacity: 0 }));
    assert_eq!(rt; index.next_place(key, 0), None);
    assert!(rt; !index.remove(key, 0));
    assert!(rt; index.next_key(key, false).is_none());
}

fn one_fits<K: Key + Drop, I: Index<Key = K>>(rt: &impl Abort, index: &mut I, low: K, high: K) {
    assert_eq!(rt; index.capacity(), 1);
    assert_eq!(rt; index.put(high, usize::MAX), Ok(Put::Added));
    assert_eq!(rt; index.put(high, usize::MAX), Ok(Put::Present));
    assert_eq!(rt; index.put(high, 0), Err(IndexFault { capacity: 1 }));
    assert_eq!(rt; index.put(low, usize::MAX), Err(IndexFault { capacity: 1 }));
    assert_eq!(rt; index.next_place(high, 0), Some(usize::MAX));
    assert_eq!(rt; index.next_place(low, 0), None);
    assert!(rt; !index.remove(low, usize::MAX));
    assert!(rt; !index.remove(high, 0));
    assert!(rt; index.remove(high, usize::MAX));
    assert!(rt; !index.remove(high, usize::MAX));
    assert_eq!(rt; index.put(low, 0), Ok(Put::Added));
    assert_eq!(rt; index.next_place(low, 0), Some(0));
    assert_eq!(rt; index.next_place(low, 1), None);
    index.clear();
    assert_eq!(rt; index.next_place(low, 0), None);
    assert_eq!(rt; index.capacity(), 1);
}

// The lowest and the highest key, from below, at and above.
fn ends_of_the_order<K: Key + PartialEq + Debug + Drop, I: Index<Key = K>>(
    rt: &impl Abort,
    index: &mut I,
    low: K,
    high: K,
) {
    assert_eq!(rt; index.put(high, 3), Ok(Put::Added));
    assert_eq!(rt; index.next_key(low, false), Some(high), "a key above");
    assert_eq!(rt; index.put(low, 4), Ok(Put::Added));
    assert_eq!(rt; index.next_key(low, false), Some(low), "the lowest key");
    assert_eq!(rt; index.next_key(low, true), Some(high), "the next key");
    assert_eq!(rt; index.next_key(high, false), Some(high));
    assert_eq!(rt; index.next_key(high, true), None);
}

fn place(n: u8) -> BoardPlace {
    BoardPlace::at(n, n, n)
}

// Each test names the types one by one: a closure can't be generic over the kind of index.
#[test]
fn no_room(rt: HostRuntime) -> Result<(), Fail> {
    none_fits(&rt, &mut InOrder::new(rt.alloc(), 0)?, CardNumber(0));
    none_fits(&rt, &mut Chains::new(rt.alloc(), 0)?, CardNumber(u32::MAX));
    none_fits(&rt, &mut InOrder::new(rt.alloc(), 0)?, place(0));
    none_fits(&rt, &mut Chains::new(rt.alloc(), 0)?, place(255));
    Ok(())
}

#[test]
fn room_for_one(rt: HostRuntime) -> Result<(), Fail> {
    one_fits(
        &rt,
        &mut InOrder::new(rt.alloc(), 1)?,
        CardNumber(0),
        CardNumber(u32::MAX),
    );
    one_fits(
        &rt,
        &mut Chains::new(rt.alloc(), 1)?,
        CardNumber(0),
        CardNumber(u32::MAX),
    );
    one_fits(&rt, &mut InOrder::new(rt.alloc(), 1)?, place(0), place(255));
    one_fits(&rt, &mut Chains::new(rt.alloc(), 1)?, place(0), place(255));
    Ok(())
}

#[test]
fn lowest_and_highest(rt: HostRuntime) -> Result<(), Fail> {
    ends_of_the_order(
        &rt,
        &mut InOrder::new(rt.alloc(), 2)?,
        CardNumber(0),
        CardNumber(u32::MAX),
    );
    ends_of_the_order(
        &rt,
        &mut Chains::new(rt.alloc(), 2)?,
        CardNumber(0),
        CardNumber(u32::MAX),
    );
    ends_of_the_order(&rt, &mut InOrder::new(rt.alloc(), 2)?, place(0), place(255));
    ends_of_the_order(&rt, &mut Chains::new(rt.alloc(), 2)?, place(0), place(255));
    Ok(())
}

// 65,536 pairs under 4,096 keys, filled, asked and taken out again.
fn fill<I: Index<Key = CardNumber>>(rt: &impl Abort, index: &mut I) {
    for i in 0..65536u32 {
        assert_eq!(rt;
            index.put(CardNumber(i / 16 * 7), i as usize),
            Ok(Put::Added)
        );
    }
    assert_eq!(rt;
        index.put(CardNumber(1), 0),
        Err(IndexFault { capacity: 65536 })
    );
    for i in 0..4096u32 {
        assert_eq!(rt;
            index.next_place(CardNumber(i * 7), 0),
            Some(i as usize * 16)
        );
        assert_eq!(rt;
            index.next_place(CardNumber(i * 7), i as usize * 16 + 16),
            None
        );
    }
    for i in 0..65536u32 {
        assert!(rt; index.remove(CardNumber(i / 16 * 7), i as usize));
    }
    assert!(rt; index.next_key(CardNumber(0), false).is_none());
}

#[test]
fn room_for_65536(rt: HostRuntime) -> Result<(), Fail> {
    fill(&rt, &mut InOrder::new(rt.alloc(), 65536)?);
    fill(&rt, &mut Chains::new(rt.alloc(), 65536)?);
    Ok(())
}

// 256 keys whose hash numbers leave the same remainder, and one of another chain.
fn share_a_chain<I: Index<Key = CardNumber>>(rt: &impl Abort, index: &mut I) {
    assert_eq!(rt; index.put(CardNumber(8), 5), Ok(Put::Added));
    for i in 0..256u32 {
        assert_eq!(rt;
            index.put(CardNumber(i * 256 + 7), i as usize),
            Ok(Put::Added)
        );
    }
    for i in 0..256u32 {
        assert_eq!(rt;
            index.next_place(CardNumber(i * 256 + 7), 0),
            Some(i as usize)
        );
    }
    for i in 0..128u32 {
        assert!(rt; index.remove(CardNumber(i * 512 + 7), i as usize * 2));
        assert!(rt; !index.remove(CardNumber(i * 512 + 7), i as usize * 2));
    }
    for i in 0..128u32 {
        assert_eq!(rt; index.next_place(CardNumber(i * 512 + 7), 0), None);
        assert_eq!(rt;
            index.next_place(CardNumber(i * 512 + 263), 0),
            Some(i as usize * 2 + 1)
        );
    }
    assert_eq!(rt; index.next_place(CardNumber(8), 0), Some(5));
}

#[test]
fn one_chain(rt: HostRuntime) -> Result<(), Fail> {
    share_a_chain(&rt, &mut Chains::new(rt.alloc(), 257)?);
    share_a_chain(&rt, &mut InOrder::new(rt.alloc(), 257)?);
    Ok(())
}
