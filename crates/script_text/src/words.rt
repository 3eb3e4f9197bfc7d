// The words of calls, and the rows that they hand out.
ghost use Rattle.std.specs.Prelude.{◌≡◌};
ghost use Rattle.script_text.specs.Words.{call_word, rows_said};

use rules::{Answer, BookCall, Call, Refusal, Row};

// Not a Display: that of Call says more than the word.
pub(crate) fn call_word<K, V>(call: &Call<K, V>) -> &'static str
    ensures { result.now ≡ call_word call.now }
{
    match call {
        Call::Open(_) => "open",
        Call::Begin(_) => "begin",
        Call::Book(_, BookCall::Read(_)) => "read",
        Call::Book(_, BookCall::Scan(_, _)) => "scan",
        Call::Book(_, BookCall::Insert(_, _)) => "insert",
        Call::Book(_, BookCall::Update(_, _)) => "update",
        Call::Book(_, BookCall::Delete(_)) => "delete",
        Call::Prepare(_) => "prepare",
        Call::Validate(_) => "validate",
        Call::Commit(_) => "commit",
        Call::Abort(_) => "abort",
        Call::Finish(_) => "finish",
        Call::Sweep => "sweep",
        Call::Tally => "tally",
    }
}

/// The rows that the call handed out, of those in the row table.
pub(crate) fn rows_of<'a, K, V>(
    call: &Call<K, V>,
    reply: &Result<Answer<V>, Refusal>,
    rows: &'a [Row<K, V>],
) -> &'a [Row<K, V>]
    ensures { result.now ≡ rows_said call.now reply.now rows.now }
{
    let (Call::Book(_, BookCall::Scan(_, _)), Ok(Answer::Number(count))) = (call, reply) else {
        return &[];
    };
    &rows[..rows.len().min(*count)]
}
