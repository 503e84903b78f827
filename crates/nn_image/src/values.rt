//! What a value that was read is to a key that wants a text, a whole number or a truth value.
ghost use Rattle.std.specs.Prelude.{◌≡◌, option_map};
ghost use Rattle.serde_json.specs.Data.{Data};
ghost use Rattle.serde_json.specs.Find.{as_bool, as_str};
ghost use Rattle.nn_plain.specs.Spelling.{plain_of, spelled_or, whole_of};
ghost use Rattle.nn_image.specs.Reading.{limited};

use nn_plain::Plain;

const LIMIT: u64 = 0x8000_0000_0000_0000;

#[inline(always)]
pub(crate) fn text_of<'a>(value: Option<Plain<'a>>) -> Option<&'a str>
    ensures { (d : Data) → spelled_or value.entry ≡ plain_of d → option_map (λ s. s.now) result ≡ as_str d }
{
    match value {
        Some(Plain::Text(text)) => Some(text),
        Some(Plain::Whole(_)) | Some(Plain::Truth(_)) | None => None,
    }
}

#[inline(always)]
pub(crate) fn whole_of(value: Option<Plain<'_>>) -> Option<u64>
    ensures { (d : Data) → spelled_or value.entry ≡ plain_of d → result ≡ whole_of d }
{
    match value {
        Some(Plain::Whole(n)) => Some(n),
        Some(Plain::Text(_)) | Some(Plain::Truth(_)) | None => None,
    }
}

#[inline(always)]
pub(crate) fn truth_of(value: Option<Plain<'_>>) -> Option<bool>
    ensures { (d : Data) → spelled_or value.entry ≡ plain_of d → result ≡ as_bool d }
{
    match value {
        Some(Plain::Truth(truth)) => Some(truth),
        Some(Plain::Text(_)) | Some(Plain::Whole(_)) | None => None,
    }
}

/// The number, if it is below 2^63, as those of the formats are.
#[inline(always)]
pub(crate) fn limited(number: Option<u64>) -> Option<u64>
    ensures { result ≡ limited number }
{
    let n = number?;
    if n < LIMIT { Some(n) } else { None }
}
