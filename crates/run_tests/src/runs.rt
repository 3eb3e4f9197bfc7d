// Runs of several players over two stores that differ in their index: the answers are the same, and those of the book.
use crate::book::{Book, Told, sum_of};
use crate::draws::{AWAY, Draws, Player};
use crate::record::Record;
use chains::Chains;
use desks::Room;
use keys::{CardNumber, Score};
use ordered::InOrder;
use rules::{Answer, BookCall, Call, Refusal};
use seeing::Level;
use std::alloc::{AllocError, Global};
use std::process::Abort;
use std::test::Fail;
use trying::{BLANK, Desk, Said, disturb};

const PLAYERS: usize = 6;

const ROOM: Room = Room {
    versions: 28,
    notes: 14,
    rows: 8,
    pairs: 26,
};

const ALL_ROWS: BookCall<CardNumber, Score> = BookCall::Scan(CardNumber(0), CardNumber(896));

#[derive(Drop)]
struct Run {
    ordered: Desk<InOrder<CardNumber>>,
    chained: Desk<Chains<CardNumber>>,
    players: [Player; PLAYERS],
    draws: Draws,
    record: Record,
    counts: Counts,
}

// How often each matter came up.
#[derive(Clone, Copy, Default)]
struct Counts {
    commits: u64,
    wrong: u64,
    conflicts: u64,
    failures: u64,
    waits: u64,
    dooms: u64,
    shortages: u64,
}

impl Counts {
    // One more call that met the refusal.
    fn count(&mut self, refusal: Refusal) {
        let counter = match refusal {
            Refusal::Doomed => &mut self.dooms,
            Refusal::Version => &mut self.wrong,
            Refusal::Conflict => &mut self.conflicts,
            Refusal::Notes | Refusal::Versions | Refusal::Full(_, _) => &mut self.shortages,
            Refusal::Validation => &mut self.failures,
            Refusal::Waiting(_) => &mut self.waits,
            _ => return,
        };
        *counter = counter.saturating_add(1);
    }

    // Every matter came up often enough to show something.
    fn are_many(&self) -> bool {
        let ends = self.commits > 3000 && self.failures > 200 && self.waits > 250;
        ends && self.conflicts > 300 && self.dooms > 80 && self.shortages > 200
    }
}

fn new_run(heap: Global, seed: u32, counts: Counts) -> Result<Run, AllocError> {
    Ok(Run {
        ordered: Desk::new(heap, InOrder::new(heap, ROOM.pairs)?, ROOM, BLANK)?,
        chained: Desk::new(heap, Chains::new(heap, ROOM.pairs)?, ROOM, BLANK)?,
        players: [AWAY; PLAYERS],
        draws: Draws { state: seed },
        record: Record::new(heap),
        counts,
    })
}

impl Run {
    // Makes the call of both stores, which say the same.
    fn perform(&mut self, rt: &impl Abort, call: Call<CardNumber, Score>) -> Said {
        let said = self.ordered.perform(call);
        assert_eq!(rt; self.chained.perform(call), said);
        said
    }

    fn told(&self, rt: &impl Abort, answer: Answer<Score>) -> Told {
        let rows = sum_of(&self.ordered.rows, answer);
        assert_eq!(rt; sum_of(&self.chained.rows, answer), rows);
        Told { answer, rows }
    }

    // A call of a player, recorded if it is answered.
    fn play(
        &mut self,
        rt: &impl Abort,
        player: Player,
        call: Call<CardNumber, Score>,
    ) -> Result<Player, AllocError> {
        let said = self.perform(rt, call);
        match said {
            Ok(answer) => {
                let told = self.told(rt, answer);
                self.record.add(player.level, call, told)?;
            }
            Err(refusal) => self.counts.count(refusal),
        }
        Ok(player.after(call, said))
    }

    // A drawn player makes the next call; now and then there is a sweep first.
    fn step(&mut self, rt: &impl Abort) -> Result<(), AllocError> {
        if self.draws.below(40) == 0 {
            let _ = self.perform(rt, Call::Sweep);
        }
        let seat = self.draws.below(6) as usize;
        let player = self.players[seat];
        if player.lingers(&mut self.draws) {
            return Ok(());
        }
        let call = player.next_call(&mut self.draws);
        self.players[seat] = self.play(rt, player, call)?;
        Ok(())
    }

    // Ends the transaction of a player, if there is one.
    fn leave(&mut self, rt: &impl Abort, player: Player) {
        let _ = self.perform(rt, Call::Abort(player.name));
        let _ = self.perform(rt, Call::Finish(player.name));
    }

    // A run from an opening until all transactions are ended; it is disturbed before every tenth call or so.
    fn play_all(&mut self, rt: &impl Abort, calls: u32, disturbed: bool) -> Result<(), AllocError> {
        assert_eq!(rt; self.perform(rt, Call::Open(0)), Ok(Answer::Done));
        self.record.clear();
        self.players = [AWAY; PLAYERS];
        for _ in 0..calls {
            if disturbed && self.draws.below(10) == 0 {
                self.disturb();
            }
            self.step(rt)?;
        }
        self.leave_all(rt);
        Ok(())
    }

    fn disturb(&mut self) {
        let trouble = self.draws.trouble();
        disturb(&mut self.ordered, trouble);
        disturb(&mut self.chained, trouble);
    }

    fn leave_all(&mut self, rt: &impl Abort) {
        for player in self.players {
            self.leave(rt, player);
        }
    }

    // The law: the answers are the book's, and so are the rows at the end.
    fn check_law(&mut self, rt: &impl Abort) -> Result<(), Fail> {
        let book = self.record.check_serial(rt);
        self.record.check_moments(rt);
        self.check_rows(rt, book)?;
        self.check_tally(rt)
    }

    // The rows that a new transaction scans are the book's.
    fn check_rows(&mut self, rt: &impl Abort, book: Book) -> Result<(), Fail> {
        let Ok(Answer::Stamp(name)) = self.perform(rt, Call::Begin(Level::Serializable)) else {
            return Err(Fail::new("no transaction"));
        };
        let Ok(answer) = self.perform(rt, Call::Book(name, ALL_ROWS)) else {
            return Err(Fail::new("no rows"));
        };
        assert_eq!(rt; self.told(rt, answer), book.tell(ALL_ROWS));
        Ok(())
    }

    fn check_tally(&mut self, rt: &impl Abort) -> Result<(), Fail> {
        let Ok(Answer::Tallied(commits, _)) = self.perform(rt, Call::Tally) else {
            return Err(Fail::new("no tally"));
        };
        assert_eq!(rt; commits, self.record.commits());
        Ok(())
    }
}

// A run of 1,000 draws, after a disturbed one or not, and what was counted so far.
fn play_one(rt: &impl Abort, run: &mut Run, disturbed: bool) -> Result<Counts, Fail> {
    if disturbed {
        run.play_all(rt, 1000, true)?;
    }
    run.play_all(rt, 1000, false)?;
    run.check_law(rt)?;
    let commits = run.counts.commits.saturating_add(run.record.commits());
    Ok(Counts {
        commits,
        ..run.counts
    })
}

#[test]
fn beside_the_book(rt: HostRuntime) -> Result<(), Fail> {
    let mut counts = Counts::default();
    for seed in 1..101u32 {
        counts = play_one(&rt, &mut new_run(rt.alloc(), seed, counts)?, false)?;
    }
    assert!(rt; counts.are_many());
    Ok(())
}

// Disturbed tables end no call but with an answer or a refusal, and once opened anew the store keeps the law again.
#[test]
fn disturbed_first(rt: HostRuntime) -> Result<(), Fail> {
    let mut counts = Counts::default();
    for seed in 101..141u32 {
        counts = play_one(&rt, &mut new_run(rt.alloc(), seed, counts)?, true)?;
    }
    assert!(rt; counts.commits > 1000 && counts.wrong > 1000);
    Ok(())
}
