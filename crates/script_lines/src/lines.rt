// Lines and fields: one cut serves both.
ghost use Rattle.std.specs.Prelude.{◌≡◌, ◌<◌, [], ◌∷◌, length};
ghost use Rattle.std.specs.Option.{option_map};
ghost use Rattle.script_lines.specs.Lines.{lines, fields};
ghost use Rattle.script_lines.specs.Cuts.{from, before, after, all_of};

/// A text cut at its first stop byte: what stands before it, and what stands after it, if it is there.
#[derive(Clone, Copy)]
pub(crate) struct Cut<'a> {
    pub(crate) front: &'a [u8],
    pub(crate) rest: Option<&'a [u8]>,
}

// The bytes from the first stop byte on; without one, nothing. Slice patterns take a script's bytes apart, as a rule of the project.
#[tactic(auto, using(crate::proofs::Cutting::from_none, crate::proofs::Cutting::from_more))]
fn from_stop<'a>(bytes: &'a [u8], stop: u8) -> &'a [u8]
    ensures { result.now ≡ from stop bytes.now }
{
    let mut rest = bytes;
    while let [first, tail @ ..] = rest {
        if *first == stop {
            return rest;
        }
        rest = tail;
    }
    rest
}

#[tactic(auto, using(crate::proofs::Cutting::from_shorter, crate::proofs::Cutting::before_whole, crate::proofs::Cutting::after_none, crate::proofs::Cutting::after_some, crate::proofs::Cutting::before_is))]
fn cut_at<'a>(bytes: &'a [u8], stop: u8) -> Cut<'a>
    ensures front { result.front.now ≡ before stop bytes.now }
    ensures rest { option_map (λ x. x.now) result.rest ≡ after stop bytes.now }
{
    let ending = from_stop(bytes, stop);
    match ending {
        [] => Cut {
            front: bytes,
            rest: None,
        },
        [_, rest @ ..] => Cut {
            front: &bytes[..bytes.len() - ending.len()],
            rest: Some(rest),
        },
    }
}

/// The first line of a text, and the text after its line feed.
#[tactic(auto, using(crate::proofs::Cutting::lines_cut, crate::proofs::Cutting::after_shorter))]
pub fn cut_line<'a>(text: &'a [u8]) -> (&'a [u8], &'a [u8])
    ensures lines { 0 < length text.now → lines text.now ≡ result.0.now ∷ lines result.1.now }
    ensures shorter { 0 < length text.now → length result.1.now < length text.now }
    ensures none { (text.now ≡ [] → result.0.now ≡ []) × (text.now ≡ [] → result.1.now ≡ []) }
{
    let cut = cut_at(text, b'\n');
    (cut.front, cut.rest.unwrap_or(&[]))
}

/// The first field of a line, and the line after its comma.
#[tactic(auto, using(crate::proofs::Cutting::fields_cut))]
pub(crate) fn cut_field<'a>(line: &'a [u8]) -> Cut<'a>
    ensures { fields line.now ≡ all_of result }
{
    cut_at(line, b',')
}
