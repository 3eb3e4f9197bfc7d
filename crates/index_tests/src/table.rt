// Many calls in one table, each with its answer, played through both indexes over both kinds of key.
use chains::Chains;
use index::{Index, IndexFault, Put};
use keys::{BoardPlace, CardNumber, Key};
use ordered::InOrder;
use std::process::Abort;
use std::test::Fail;

#[derive(Clone, Copy)]
enum Ask {
    Put(usize, usize),
    Remove(usize, usize),
    NextPlace(usize, usize),
    At(usize),
    Above(usize),
    Clear,
}

// Keys are given by their places in a list of six that rises.
#[derive(Clone, Copy, PartialEq, Eq, Debug)]
enum Told {
    Added,
    Present,
    Full,
    Yes,
    No,
    Place(usize),
    Key(usize),
    Nothing,
}

const CASES: [(Ask, Told); 30] = [
    (Ask::At(0), Told::Nothing),
    (Ask::Put(3, 7), Told::Added),
    (Ask::Put(3, 7), Told::Present),
    (Ask::Put(3, 2), Told::Added),
    (Ask::Put(1, 7), Told::Added),
    (Ask::NextPlace(3, 0), Told::Place(2)),
    (Ask::NextPlace(3, 2), Told::Place(2)),
    (Ask::NextPlace(3, 3), Told::Place(7)),
    (Ask::NextPlace(3, 8), Told::Nothing),
    (Ask::NextPlace(2, 0), Told::Nothing),
    (Ask::At(0), Told::Key(1)),
    (Ask::At(1), Told::Key(1)),
    (Ask::Above(1), Told::Key(3)),
    (Ask::Above(2), Told::Key(3)),
    (Ask::Above(3), Told::Nothing),
    (Ask::Put(5, 0), Told::Added),
    (Ask::Put(0, 0), Told::Full),
    (Ask::Put(3, 2), Told::Present),
    (Ask::Above(3), Told::Key(5)),
    (Ask::Remove(3, 3), Told::No),
    (Ask::Remove(3, 2), Told::Yes),
    (Ask::Remove(3, 2), Told::No),
    (Ask::NextPlace(3, 0), Told::Place(7)),
    (Ask::Put(0, 0), Told::Added),
    (Ask::At(0), Told::Key(0)),
    (Ask::Remove(3, 7), Told::Yes),
    (Ask::Above(1), Told::Key(5)),
    (Ask::Clear, Told::Nothing),
    (Ask::At(0), Told::Nothing),
    (Ask::Put(4, 9), Told::Added),
];

impl From<bool> for Told {
    fn from(removed: bool) -> Told {
        if removed { Told::Yes } else { Told::No }
    }
}

impl From<Result<Put, IndexFault>> for Told {
    fn from(put: Result<Put, IndexFault>) -> Told {
        match put {
            Ok(Put::Added) => Told::Added,
            Ok(Put::Present) => Told::Present,
            Err(_) => Told::Full,
        }
    }
}

fn number_of<K: Key + Drop>(keys: &[K; 6], key: Option<K>) -> Told {
    key.and_then(|key| keys.iter().position(|k| k.equals(&key)))
        .map_or(Told::Nothing, Told::Key)
}

fn answer_to<K: Key + Drop, I: Index<Key = K>>(
    index: &mut I,
    keys: &[K; 6],
    question: Ask,
) -> Told {
    match question {
        Ask::Put(k, place) => index.put(keys[k % 6], place).into(),
        Ask::Remove(k, place) => index.remove(keys[k % 6], place).into(),
        Ask::NextPlace(k, from) => index
            .next_place(keys[k % 6], from)
            .map_or(Told::Nothing, Told::Place),
        Ask::At(k) => number_of(keys, index.next_key(keys[k % 6], false)),
        Ask::Above(k) => number_of(keys, index.next_key(keys[k % 6], true)),
        Ask::Clear => {
            index.clear();
            Told::Nothing
        }
    }
}

fn play<K: Key + Drop, I: Index<Key = K>>(rt: &impl Abort, index: &mut I, keys: [K; 6]) {
    for (i, (question, told)) in CASES.iter().enumerate() {
        assert_eq!(rt; answer_to(index, &keys, *question), *told, "{i}");
    }
}

// The cards share one chain; the places share one by their slots.
#[test]
fn cases(rt: HostRuntime) -> Result<(), Fail> {
    let cards = [
        CardNumber(0),
        CardNumber(256),
        CardNumber(512),
        CardNumber(1024),
        CardNumber(65536),
        CardNumber(4294967040),
    ];
    let places = [
        BoardPlace::at(0, 0, 9),
        BoardPlace::at(0, 1, 9),
        BoardPlace::at(0, 2, 9),
        BoardPlace::at(1, 0, 9),
        BoardPlace::at(1, 1, 9),
        BoardPlace::at(255, 0, 9),
    ];
    play(&rt, &mut InOrder::new(rt.alloc(), 4)?, cards);
    play(&rt, &mut Chains::new(rt.alloc(), 4)?, cards);
    play(&rt, &mut InOrder::new(rt.alloc(), 4)?, places);
    play(&rt, &mut Chains::new(rt.alloc(), 4)?, places);
    Ok(())
}
