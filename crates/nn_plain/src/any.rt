//! The next value of any line of JSON, read a token at a time and not kept: a text, a number or a truth value is handed out, and
//! an array or an object is passed over. The value of a key that nobody asks for goes this way, and still has to be JSON.
ghost use Rattle.std.specs.Prelude.{◌≡◌, ◌<◌, ◌≤◌, ◌==◌, ◌∷◌, true, false, length, slice_index, IsTrue, IfOk, OnOk, OnErr, IfSome, Some, None, option_map};
ghost use Rattle.json.specs.Reads.{token_of};
ghost use Rattle.serde_json.specs.Data.{Data, Members, no_members, unsigned};
ghost use Rattle.serde_json.specs.Read.{number_of, number_from};
ghost use Rattle.nn_plain.specs.Ahead.{data_at, members_at, LacksItems, PassesItems};
ghost use Rattle.nn_plain.specs.Spelling.{plain_of, plain_num, spelled, spelled_or};

use crate::value::Plain;
use fast_float::Numeral;
use json::{Invalid, Reader, Token};

/// The next value. Arrays and objects may nest `depth` deep, and are passed over.
///
/// None is a value that no `Plain` stands for: null, an array, an object, or a number that is not whole or not below 2^64.
#[cycle(read)]
pub fn read_value<'a>(reader: &mut Reader<'a>, depth: usize) -> Result<Option<Plain<'a>>, Invalid>
    ensures ok { IfOk result (λ v. (d : Data) × (data_at depth reader.old ≡ Some (d, reader.new))
        × (spelled_or v ≡ plain_of d)) }
    ensures shorter { OnOk result (length reader.new < length reader.old) }
    ensures err { OnErr result (data_at depth reader.old ≡ None) }
{
    let token = reader.next().ok_or(Invalid)?;
    read_from(reader, token, depth)
}

/// The value that begins with this token.
#[cycle(read)]
#[inline(always)]
pub(crate) fn read_from<'a>(
    reader: &mut Reader<'a>,
    token: Token<'a>,
    depth: usize,
) -> Result<Option<Plain<'a>>, Invalid>
    ensures ok { IfOk result
        (λ v. (d : Data) × (data_at depth (token_of token.entry ∷ reader.old) ≡ Some (d, reader.new))
        × (spelled_or v ≡ plain_of d)) }
    ensures shorter { OnOk result (length reader.new ≤ length reader.old) }
    ensures err { OnErr result (data_at depth (token_of token.entry ∷ reader.old) ≡ None) }
{
    match token {
        Token::String(text) => Ok(Some(Plain::Text(text))),
        Token::Number(text) => number_of(text).ok_or(Invalid),
        Token::Bool(truth) => Ok(Some(Plain::Truth(truth))),
        Token::Null => Ok(None),
        Token::EndObject | Token::EndArray | Token::Key(_) | Token::Bad => Err(Invalid),
        Token::BeginArray => {
            if depth == 0 {
                return Err(Invalid);
            }
            skip_items(reader, depth - 1)?;
            Ok(None)
        }
        Token::BeginObject => {
            if depth == 0 {
                return Err(Invalid);
            }
            skip_members(reader, depth - 1)?;
            Ok(None)
        }
    }
}

// Passes over the items of an array, and over its end.
#[cycle(read)]
#[inline(never)]
fn skip_items(reader: &mut Reader<'_>, depth: usize) -> Result<(), Invalid>
    ensures ok { OnOk result (PassesItems depth reader.old reader.new) }
    ensures shorter { OnOk result (length reader.new < length reader.old) }
    ensures err { OnErr result (LacksItems depth reader.old) }
{
    'items: while !reader.take_end_array() {
        let _item = read_value(reader, depth)?;
    }
    Ok(())
}

// Passes over the members of an object, and over its end.
#[cycle(read)]
#[inline(never)]
fn skip_members(reader: &mut Reader<'_>, depth: usize) -> Result<(), Invalid>
    ensures ok { OnOk result ((ms : Members)
        × (members_at depth (length reader.old) no_members reader.old ≡ Some (ms, reader.new))) }
    ensures shorter { OnOk result (length reader.new < length reader.old) }
    ensures err { OnErr result
        (members_at depth (length reader.old) no_members reader.old ≡ None) }
{
    'members: while let Some(_key) = reader.next_key()? {
        let _member = read_value(reader, depth)?;
    }
    Ok(())
}

// What a number stands for. A number beyond every float is no JSON, whoever asks for it.
#[inline(always)]
fn number_of<'a>(text: &str) -> Option<Option<Plain<'a>>>
    ensures { option_map spelled_or result ≡ option_map plain_num (number_of text.now) }
{
    let bytes = text.as_bytes();
    if let Some(n) = whole(bytes) {
        return Some(Some(Plain::Whole(n)));
    }
    if has_minus(bytes) {
        below_zero(&Numeral::scan(&bytes[1..]))
    } else {
        from_zero(&Numeral::scan(bytes))
    }
}

// The number of a text of digits alone, as most of a log are: no numeral has to be taken apart for it.
#[inline(always)]
fn whole(bytes: &[u8]) -> Option<u64>
    ensures { IfSome result (λ n. number_of bytes.now ≡ Some (unsigned n)) }
{
    if begins_with_plus(bytes) {
        return None;
    }
    fast_float::parse_u64(bytes).ok()
}

#[inline(always)]
fn begins_with_plus(bytes: &[u8]) -> bool
    ensures { result ≡ (slice_index bytes.now 0 == 43) }
{
    !bytes.is_empty() && bytes[0] == b'+'
}

#[inline(always)]
fn from_zero<'a>(numeral: &Numeral<'_>) -> Option<Option<Plain<'a>>>
    ensures { option_map spelled_or result ≡ option_map plain_num (number_from false numeral.now) }
{
    match numeral.to_u64() {
        Some(n) => Some(Some(Plain::Whole(n))),
        None => if numeral.to_float::<f64>(false).is_finite() {
            Some(None)
        } else {
            None
        },
    }
}

fn below_zero<'a>(numeral: &Numeral<'_>) -> Option<Option<Plain<'a>>>
    ensures { option_map spelled_or result ≡ option_map plain_num (number_from true numeral.now) }
{
    if let Some(n) = numeral.to_i64(true) {
        if n < 0 {
            return Some(None);
        }
    }
    if numeral.to_float::<f64>(true).is_finite() {
        Some(None)
    } else {
        None
    }
}

#[inline(always)]
fn has_minus(bytes: &[u8]) -> bool
    ensures value { result ≡ (slice_index bytes.now 0 == 45) }
    ensures len { IsTrue result → 0 < length bytes.now }
{
    !bytes.is_empty() && bytes[0] == b'-'
}
