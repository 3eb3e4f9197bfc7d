// Decimal numbers, read from bytes.
ghost use Rattle.std.specs.Prelude.{◌≡◌, ◌≤◌, IfSome};
ghost use Rattle.script_lines.specs.Numbers.{number_up_to, score_of};
ghost use Rattle.script_lines.specs.Growing.{grown};

// The number n with one digit more, if it is a digit and the number stays within max.
fn grow(max: u64, n: u64, byte: u8) -> Option<u64>
    ensures { result ≡ grown max n byte }
{
    if !byte.is_ascii_digit() {
        return None;
    }
    let next = n.checked_mul(10)?.checked_add(u64::from(byte - b'0'))?;
    (next <= max).then_some(next)
}

/// The number that the digits write, if they do and it is at most max.
#[tactic(auto, using(crate::proofs::Reading::grown_none, crate::proofs::Reading::grown_more, crate::proofs::Reading::grown_stop, crate::proofs::Reading::grown_within, crate::proofs::Reading::number_is))]
pub(crate) fn up_to(max: u64, digits: &[u8]) -> Option<u64>
    ensures value { result ≡ number_up_to max digits.now }
    ensures within { IfSome result (λ n. n ≤ max) }
{
    if digits.is_empty() {
        return None;
    }
    let mut n: u64 = 0;
    let mut rest = digits;
    // Slice patterns take a script's bytes apart, as a rule of the project.
    while let [first, tail @ ..] = rest {
        n = grow(max, n, *first)?;
        rest = tail;
    }
    Some(n)
}

/// The score that the bytes write: a minus or none, and digits.
pub(crate) fn signed(text: &[u8]) -> Option<i32>
    ensures { result ≡ score_of text.now }
{
    match text {
        [b'-', digits @ ..] => up_to(2_147_483_648, digits).map(|n| -(n as i64) as i32),
        _ => up_to(2_147_483_647, text).map(|n| n as i32),
    }
}
