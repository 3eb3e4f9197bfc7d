// From a step to the call of the store: its numbers are worked out, field by field.
ghost use Rattle.std.specs.Prelude.{◌≡◌};
ghost use Rattle.script_lines.specs.Steps.{plain};
ghost use Rattle.script_lines.specs.Calls.{transaction_of, card_at, score_at, begin_call, scan_call, key_fields, score_fields, KeyAsked, ScoreAsked, call_of};

use crate::numbers::{signed, up_to};
use crate::words::level_of;
use crate::{LineFault, Step};
use keys::{CardNumber, Score};
use rules::{BookCall, Call};

// A transaction is always the second field of its line.
fn transaction_of(digits: &[u8]) -> Result<u64, LineFault>
    ensures { result ≡ transaction_of digits.now }
{
    up_to(u64::MAX, digits).ok_or(LineFault::Number(2))
}

fn card_at(field: usize, digits: &[u8]) -> Result<CardNumber, LineFault>
    ensures { result ≡ card_at field digits.now }
{
    up_to(u64::from(u32::MAX), digits)
        .map(|number| CardNumber(number as u32))
        .ok_or(LineFault::Number(field))
}

fn score_at(field: usize, text: &[u8]) -> Result<Score, LineFault>
    ensures { result ≡ score_at field text.now }
{
    signed(text).map(Score).ok_or(LineFault::Number(field))
}

fn begin_call(level: &[u8]) -> Result<Call<CardNumber, Score>, LineFault>
    ensures { result ≡ begin_call level.now }
{
    level_of(level).map(Call::Begin).ok_or(LineFault::Word(2))
}

// A call on one key, as `ask` makes it.
#[tactic(auto, unfolding(crate::specs::Calls::key_fields))]
fn key_call<F: FnOnce(CardNumber) -> BookCall<CardNumber, Score>>(
    transaction: &[u8],
    key: &[u8],
    ask: F,
) -> Result<Call<CardNumber, Score>, LineFault>
    requires { F.IsAlwaysCallable ask }
    ensures { KeyAsked (F.post ask) (key_fields transaction.now key.now) result }
{
    let number = transaction_of(transaction)?;
    let card = card_at(3, key)?;
    Ok(Call::Book(number, ask(card)))
}

// A call on a key and a score, as `ask` makes it.
#[tactic(auto, unfolding(crate::specs::Calls::score_fields))]
fn score_call<F: FnOnce(CardNumber, Score) -> BookCall<CardNumber, Score>>(
    transaction: &[u8],
    key: &[u8],
    score: &[u8],
    ask: F,
) -> Result<Call<CardNumber, Score>, LineFault>
    requires { F.IsAlwaysCallable ask }
    ensures { ScoreAsked (F.post ask) (score_fields transaction.now key.now score.now) result }
{
    let number = transaction_of(transaction)?;
    let card = card_at(3, key)?;
    let value = score_at(4, score)?;
    Ok(Call::Book(number, ask(card, value)))
}

fn scan_call(
    transaction: &[u8],
    lower: &[u8],
    upper: &[u8],
) -> Result<Call<CardNumber, Score>, LineFault>
    ensures { result ≡ scan_call transaction.now lower.now upper.now }
{
    let number = transaction_of(transaction)?;
    let low = card_at(3, lower)?;
    let high = card_at(4, upper)?;
    Ok(Call::Book(number, BookCall::Scan(low, high)))
}

/// The call that a step asks for, or the first of its fields that is no number in range.
pub fn call_of(step: &Step<'_>) -> Result<Call<CardNumber, Score>, LineFault>
    ensures { result ≡ call_of (plain step.now) }
{
    match step {
        Step::Begin { level } => begin_call(level),
        Step::Read { transaction, key } => key_call(transaction, key, BookCall::Read),
        Step::Scan {
            transaction,
            lower,
            upper,
        } => scan_call(transaction, lower, upper),
        Step::Insert {
            transaction,
            key,
            score,
        } => score_call(transaction, key, score, BookCall::Insert),
        Step::Update {
            transaction,
            key,
            score,
        } => score_call(transaction, key, score, BookCall::Update),
        Step::Delete { transaction, key } => key_call(transaction, key, BookCall::Delete),
        Step::Prepare { transaction } => transaction_of(transaction).map(Call::Prepare),
        Step::Validate { transaction } => transaction_of(transaction).map(Call::Validate),
        Step::Commit { transaction } => transaction_of(transaction).map(Call::Commit),
        Step::Abort { transaction } => transaction_of(transaction).map(Call::Abort),
        Step::Finish { transaction } => transaction_of(transaction).map(Call::Finish),
        Step::Sweep => Ok(Call::Sweep),
        Step::Tally => Ok(Call::Tally),
    }
}
