// Players who draw their calls: each has at most one transaction, and takes it from begin to finish.
ghost use Rattle.std.specs.Prelude.{◌<◌, max};

use keys::{CardNumber, Score};
use rules::{Answer, BookCall, Call, Refusal};
use seeing::{Begin, End, Level, Version};
use trying::{Said, Trouble};

/// The keys are the multiples of this number, so that many share a chain.
pub const APART: u32 = 128;

/// How many keys there are.
pub const KEYS: u32 = 8;

/// A generator of numbers.
#[derive(Clone, Copy)]
pub struct Draws {
    pub state: u32,
}

impl Draws {
    /// A number below the limit.
    pub fn below(&mut self, limit: u32) -> u32
        ensures { result < max limit 1 }
    {
        self.state = self.state.wrapping_mul(1664525).wrapping_add(1013904223);
        (self.state >> 16) % limit.max(1)
    }

    fn key(&mut self) -> CardNumber {
        CardNumber(self.below(KEYS).wrapping_mul(APART))
    }

    fn score(&mut self) -> Score {
        Score(self.below(1000) as i32)
    }

    // A version as another store may have left it.
    fn version(&mut self) -> Version<CardNumber, Score> {
        let begun = u64::from(self.below(300));
        let ended = u64::from(self.below(300));
        Version {
            key: self.key(),
            value: self.score(),
            begin: if begun % 2 == 0 {
                Begin::Owner(begun)
            } else {
                Begin::Stamp(begun)
            },
            end: match ended % 3 {
                0 => End::Owner(ended),
                1 => End::Stamp(ended),
                _ => End::Open,
            },
        }
    }

    /// A disturbance of the first places of the tables.
    pub fn trouble(&mut self) -> Trouble {
        let place = self.below(20) as usize;
        match self.below(5) {
            0 => Trouble::Free(place),
            1 => Trouble::Swap(place, self.below(20) as usize),
            2 => Trouble::Put(self.key(), place),
            3 => Trouble::Remove(self.key(), place),
            _ => Trouble::Hold(place, self.version()),
        }
    }

    fn level(&mut self) -> Level {
        if self.below(4) == 0 {
            Level::Snapshot
        } else {
            Level::Serializable
        }
    }

    fn scan(&mut self) -> BookCall<CardNumber, Score> {
        let one = self.key();
        let other = self.key();
        BookCall::Scan(
            CardNumber(one.0.min(other.0)),
            CardNumber(one.0.max(other.0)),
        )
    }

    fn book_call(&mut self) -> BookCall<CardNumber, Score> {
        match self.below(9) {
            0..=2 => BookCall::Read(self.key()),
            3 => self.scan(),
            4..=5 => BookCall::Insert(self.key(), self.score()),
            6..=7 => BookCall::Update(self.key(), self.score()),
            _ => BookCall::Delete(self.key()),
        }
    }
}

/// What a player may do next.
#[derive(Clone, Copy)]
pub enum Stage {
    Away,
    Active,
    Preparing,
    Validated,
    Doomed,
    Ended,
}

#[derive(Clone, Copy)]
pub struct Player {
    pub name: u64,
    pub level: Level,
    pub stage: Stage,
}

pub const AWAY: Player = Player {
    name: 0,
    level: Level::Snapshot,
    stage: Stage::Away,
};

impl Player {
    /// The player's next call.
    pub fn next_call(&self, draws: &mut Draws) -> Call<CardNumber, Score> {
        // Each stage draws in its own way: closures would be these six lines again.
        match self.stage {
            Stage::Away => Call::Begin(draws.level()),
            Stage::Active => self.next_of_active(draws),
            Stage::Preparing => self.or_abort(draws, Call::Validate(self.name)),
            Stage::Validated => self.or_abort(draws, Call::Commit(self.name)),
            Stage::Doomed => Call::Abort(self.name),
            Stage::Ended => Call::Finish(self.name),
        }
    }

    // The call, or now and then an abort.
    fn or_abort(
        &self,
        draws: &mut Draws,
        call: Call<CardNumber, Score>,
    ) -> Call<CardNumber, Score> {
        if draws.below(12) == 0 {
            Call::Abort(self.name)
        } else {
            call
        }
    }

    /// The player is not active any more, and takes time over it.
    pub fn lingers(&self, draws: &mut Draws) -> bool {
        match self.stage {
            Stage::Preparing | Stage::Validated | Stage::Ended => draws.below(4) != 0,
            _ => false,
        }
    }

    fn next_of_active(&self, draws: &mut Draws) -> Call<CardNumber, Score> {
        match draws.below(24) {
            0 => Call::Abort(self.name),
            1..=6 => Call::Prepare(self.name),
            _ => Call::Book(self.name, draws.book_call()),
        }
    }

    /// The player once the call was answered.
    pub fn after(self, call: Call<CardNumber, Score>, said: Said) -> Player {
        match said {
            Ok(answer) => self.after_answer(call, answer),
            Err(refusal) => self.after_refusal(refusal),
        }
    }

    fn after_refusal(self, refusal: Refusal) -> Player {
        let stage = match refusal {
            Refusal::Doomed => Stage::Doomed,
            Refusal::Conflict | Refusal::Validation => Stage::Ended,
            _ => self.stage,
        };
        Player { stage, ..self }
    }

    fn after_answer(self, call: Call<CardNumber, Score>, answer: Answer<Score>) -> Player {
        match (call, answer) {
            (Call::Begin(level), Answer::Stamp(name)) => Player {
                name,
                level,
                stage: Stage::Active,
            },
            _ => Player {
                stage: stage_after(call, self.stage),
                ..self
            },
        }
    }
}

fn stage_after(call: Call<CardNumber, Score>, stage: Stage) -> Stage {
    match call {
        Call::Prepare(_) => Stage::Preparing,
        Call::Validate(_) => Stage::Validated,
        Call::Commit(_) | Call::Abort(_) => Stage::Ended,
        Call::Finish(_) => Stage::Away,
        _ => stage,
    }
}
