//! The image in front of an input's lines.
ghost use Rattle.std.specs.Prelude.{◌≡◌, ◌≤◌, ◌<◌, ◌+◌, ◌^◌, [], ◌∷◌, List, ℕ, true, false, length, Err, IfOk, IfErr};
ghost use Rattle.std.specs.Str.{bytes_eq};
ghost use Rattle.nn_input.specs.Cut.{AsNoted, IsFresh, ahead};
ghost use Rattle.nn_image.specs.Loading.{loaded_from};
ghost use Rattle.nn_image.specs.Front.{FrontRead, LoadedAtOnce, WhyNoFront, WhyNotLoaded, mark, max_passed};
ghost use Rattle.nn_image.specs.FrontReading.{HasJudged, ImageRead, IsAtMark, IsNoObject, IsOpen, IsPassing, PassedOver, WaitsOn};

use crate::fault::ImageFault;
use crate::loading::Loading;
use crate::restoring::WHOLE;
use nn_device::Reader;
use nn_input::{InputFault, Lines, LinesFault};
use nn_tree::Namespace;
use nn_types::Txid;
use nn_types::limits::MAX_INPUT;
use std::alloc::{AllocError, Global};
use std::io::Read;

/// The line behind which an image begins.
const MARK: &[u8] = b"image";

/// The bytes that are kept of a line that is passed over: one more than the mark has.
const MAX_KEPT: usize = 6;

/// How many bytes may be passed over before an image.
const MAX_PASSED: u64 = MAX_INPUT as u64;

/// The image in front of an input.
#[derive(Debug, Drop)]
pub enum FrontImage {
    /// None begins, and the input has ended.
    Missing,
    /// The input has ended in it: its first fault.
    Torn(ImageFault),
    /// It has ended: its namespace and its txid, or its first fault.
    Ended(Result<(Namespace, Txid), ImageFault>),
}

/// Loads the image in front of these lines, up to its end line; behind a bad line the others are only parsed, to see which one is
/// the last. What follows is left. Where the input has ended, no more of it may be read.
pub fn load_front<R: Read>(
    alloc: Global,
    lines: &mut Lines,
    input: &mut Reader<R>,
) -> Result<FrontImage, InputFault>
    requires fresh { IsFresh lines.old }
    ensures front { IfOk result (λ image. FrontRead image input.old input.new lines.old lines.new) }
    ensures why { IfErr result (λ fault. WhyNoFront fault input.old input.new lines.old) }
{
    let found = pass_over(lines, input)?;
    if !found {
        lines.let_go(alloc);
        return Ok(FrontImage::Missing);
    }
    let image = load_image(alloc, lines, input)?;
    Ok(image)
}

/// Loads the image that these lines begin with, for who has to know at once: up to its end line, or to the first line that no image
/// has. An image that the input ends in is truncated. The input may go on for years: its reads are not counted.
pub fn load_at_once<R: Read>(
    alloc: Global,
    lines: &mut Lines,
    input: &mut Reader<R>,
) -> Result<Result<(Namespace, Txid), ImageFault>, LinesFault>
    requires fresh { IsFresh lines.old }
    requires none { ahead lines.old ≡ [] }
    ensures loaded { IfOk result (λ loaded. LoadedAtOnce loaded input.old input.new lines.new) }
    ensures why { IfErr result (λ fault. WhyNotLoaded fault input.old input.new) }
{
    let mut loading = Loading::new();
    'reads: loop {
        let Ok(judged) = push_lines(alloc, lines, &mut loading) else {
            return Err(LinesFault::OutOfMemory);
        };
        if judged {
            lines.let_go(alloc);
            return Ok(loading.end(&[]));
        }
        let Ok(more) = lines.refill_on(input) else {
            return Err(LinesFault::ReadFailed);
        };
        if !more {
            lines.let_go(alloc);
            return Ok(Err(ImageFault::Truncated));
        }
    }
}

// Passes over what stands before an image: nothing where the input begins with an object, else the lines up to the mark. Whether an
// image begins.
fn pass_over<R: Read>(lines: &mut Lines, input: &mut Reader<R>) -> Result<bool, InputFault>
    requires fresh { IsFresh lines.old }
    ensures passed { IfOk result (λ found. PassedOver found input.old input.new lines.old lines.new) }
    ensures why { IfErr result (λ fault. WhyNoFront fault input.old input.new lines.old) }
    ensures soon { input.new.given ≤ input.old.given + (max_passed + 2 ^ 16) }
{
    let Ok(first) = lines.first(input) else {
        return Err(InputFault::ReadFailed);
    };
    let Some(byte) = first else {
        return Ok(false);
    };
    if byte == b'{' {
        return Ok(true);
    }
    match pass_lines(lines, input) {
        Ok(found) => Ok(found),
        Err(fault) => Err(fault),
    }
}

// Passes over lines up to the mark. Whether it came. The limit is asked for at each read, so that bytes without a line feed are no
// endless line.
fn pass_lines<R: Read>(lines: &mut Lines, input: &mut Reader<R>) -> Result<bool, InputFault>
    requires fresh { IsFresh lines.old }
    requires other { IsNoObject (ahead lines.old) }
    ensures passed { IfOk result (λ found. PassedOver found input.old input.new lines.old lines.new) }
    ensures why { IfErr result (λ fault. WhyNoFront fault input.old input.new lines.old) }
    ensures soon { input.new.given + length (ahead lines.old) ≤ input.old.given + (max_passed + 2 ^ 16) }
{
    let given = input.given();
    let ahead = lines.left() as u64;
    'reads: loop {
        let Ok(found) = cut_to_mark(lines) else {
            return Err(InputFault::OutOfMemory);
        };
        if input.given() + ahead > given + (lines.left() as u64 + MAX_PASSED) {
            return Err(InputFault::TooLong);
        }
        if found {
            return Ok(true);
        }
        let Ok(more) = lines.refill(input) else {
            return Err(InputFault::ReadFailed);
        };
        if !more {
            return Ok(false);
        }
    }
}

// Cuts lines off what was read, up to the mark. Whether it came.
fn cut_to_mark(lines: &mut Lines) -> Result<bool, AllocError>
    ensures mark { IfOk result (λ found. found ≡ true → (bytes : List ℕ) → IsPassing bytes lines.old → IsAtMark bytes lines.new) }
    ensures none { IfOk result (λ found. found ≡ false
        → ((bytes : List ℕ) → IsPassing bytes lines.old → IsPassing bytes lines.new) × (ahead lines.new ≡ [])) }
{
    'lines: loop {
        let Ok(found) = lines.cut(MAX_KEPT) else {
            return Err(AllocError);
        };
        let Some(place) = found else {
            return Ok(false);
        };
        if is_mark(lines.text(place)) {
            return Ok(true);
        }
    }
}

// Loads lines up to the end line.
fn load_image<R: Read>(
    alloc: Global,
    lines: &mut Lines,
    input: &mut Reader<R>,
) -> Result<FrontImage, LinesFault>
    requires fresh { IsFresh lines.old }
    ensures image { IfOk result (λ image. ImageRead image input.old input.new lines.old lines.new) }
    ensures told { IfErr result (λ fault. AsNoted fault input.old.failed input.new.failed) }
{
    let mut loading = Loading::new();
    'lines: loop {
        let found = match lines.next(input, WHOLE) {
            Ok(found) => found,
            Err(fault) => return Err(fault),
        };
        let Some(place) = found else {
            lines.let_go(alloc);
            return Ok(FrontImage::Torn(torn_fault(&loading)));
        };
        let Ok(ends) = loading.push(alloc, lines.text(place)) else {
            return Err(LinesFault::OutOfMemory);
        };
        if ends {
            lines.let_go(alloc);
            return Ok(FrontImage::Ended(loading.end(&[])));
        }
    }
}

// Loads the lines that have ended in what was read, up to the end line, or the first that is refused. Whether there is one.
fn push_lines(alloc: Global, lines: &mut Lines, loading: &mut Loading) -> Result<bool, AllocError>
    ensures judged { IfOk result (λ judged. judged ≡ true
        → (bytes : List ℕ) → WaitsOn bytes lines.old loading.old → HasJudged bytes lines.new loading.new) }
    ensures none { IfOk result (λ judged. judged ≡ false
        → ((bytes : List ℕ) → WaitsOn bytes lines.old loading.old → WaitsOn bytes lines.new loading.new) × (ahead lines.new ≡ [])) }
{
    'lines: loop {
        let Ok(found) = lines.cut(WHOLE) else {
            return Err(AllocError);
        };
        let Some(place) = found else {
            return Ok(false);
        };
        let Ok(ends) = loading.push(alloc, lines.text(place)) else {
            return Err(AllocError);
        };
        if ends {
            return Ok(true);
        }
        if let Some(_) = loading.fault() {
            return Ok(true);
        }
    }
}

// The fault of an image that has no end line, whatever its last bytes are.
fn torn_fault(loading: &Loading) -> ImageFault
    requires { IsOpen loading.now }
    ensures { (torn : List ℕ) → loaded_from loading.now (torn ∷ []) ≡ Err result }
{
    let Some(fault) = loading.fault() else {
        return ImageFault::Truncated;
    };
    fault
}

fn is_mark(line: &[u8]) -> bool
    ensures { result ≡ bytes_eq line.now mark }
{
    line == MARK
}
