// What follows the comma after a word: no field, one, two or three.
// They come in tuples, since the borrow checker's proof does not cover an array of N references.
ghost use Rattle.std.specs.Prelude.{◌≡◌};
ghost use Rattle.std.specs.Option.{option_map};
ghost use Rattle.script_lines.specs.Cuts.{fields_of};
ghost use Rattle.script_lines.specs.Fields.{none, one, two, three, one_now, two_now, three_now};

use crate::LineFault;
use crate::lines::cut_field;

#[tactic(auto, using(crate::proofs::Counting::none_over))]
pub(crate) fn no_field(rest: Option<&[u8]>) -> Result<(), LineFault>
    ensures { result ≡ none (fields_of (option_map (λ x. x.now) rest.entry)) }
{
    if rest.is_some() {
        return Err(LineFault::Count);
    }
    Ok(())
}

pub(crate) fn one_field<'a>(rest: Option<&'a [u8]>) -> Result<&'a [u8], LineFault>
    ensures { one_now result ≡ one (fields_of (option_map (λ x. x.now) rest.entry)) }
{
    let first = cut_field(rest.ok_or(LineFault::Count)?);
    no_field(first.rest)?;
    Ok(first.front)
}

pub(crate) fn two_fields<'a>(rest: Option<&'a [u8]>) -> Result<(&'a [u8], &'a [u8]), LineFault>
    ensures { two_now result ≡ two (fields_of (option_map (λ x. x.now) rest.entry)) }
{
    let first = cut_field(rest.ok_or(LineFault::Count)?);
    let second = one_field(first.rest)?;
    Ok((first.front, second))
}

pub(crate) fn three_fields<'a>(
    rest: Option<&'a [u8]>,
) -> Result<(&'a [u8], &'a [u8], &'a [u8]), LineFault>
    ensures { three_now result ≡ three (fields_of (option_map (λ x. x.now) rest.entry)) }
{
    let first = cut_field(rest.ok_or(LineFault::Count)?);
    let (second, third) = two_fields(first.rest)?;
    Ok((first.front, second, third))
}
