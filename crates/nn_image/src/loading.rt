//! An image whose lines come one after another.
ghost use Rattle.std.specs.Prelude.{◌≡◌, ◌≤◌, ◌<◌, ◌+◌, ◌^◌, ◌∷◌, [], false, Ok, IfOk, IfErr, OnOk, IfSome};
ghost use Rattle.std.specs.Ordering.{is_lt};
ghost use Rattle.nn_model.specs.Namespace.{path_cmp};
ghost use Rattle.nn_image.specs.Lawful.{HasPaths};
ghost use Rattle.nn_image.specs.Loading.{at_header, refused, is_first, ends_with, fault_of_loading, loaded_from, state_of, HasLimit, IsBegun, IsLawfulStage, TakesLine, TakesRow};
ghost use Rattle.nn_image.specs.Outcome.{IsNoRead};
ghost use Rattle.nn_image.specs.Reading.{read_image};
ghost use Rattle.nn_image.specs.Text.{image_text};
ghost use Rattle.nn_image.specs.declared.loading.Stage.TheVariants as stage;
ghost use Rattle.nn_image.specs.declared.row_line.RowLine.TheVariants.{Row, End};

use crate::fault::ImageFault;
use crate::header::read_header;
use crate::row_line::{RowLine, row_line};
use nn_model::Form;
use nn_tree::{Namespace, RestoreFault};
use nn_types::{Names, Path, Txid};
use std::alloc::{AllocError, Global};
use std::cmp::Ordering;
use std::marker::Model;

/// What the lines of an image that have come make of it: a namespace so far, or the first fault.
#[derive(Debug, Drop)]
pub struct Loading {
    stage: Stage,
}

impl Model for Loading {
    ghost use Rattle.nn_image.specs.Loading.{Loading, state_of, IsLawfulStage};

    ghost Value = { Loading };

    ghost view = { λ l. state_of l.stage };

    ghost invariant = { λ l. IsLawfulStage l.stage };
}

/// Where in an image a loading is.
#[derive(Debug, Drop)]
enum Stage {
    /// No line has come.
    Header,
    Begun(Begun),
    /// A line has this fault.
    Refused(ImageFault),
}

/// What stands behind a header.
#[derive(Debug, Drop)]
struct Begun {
    namespace: Namespace,
    // the path of the last line, or the root
    before: Path,
    // of the next line, where the header is line 1; of the end line, once that has come
    number: u64,
    txid: Txid,
    has_ended: bool,
}

impl Loading {
    /// No line has come. Takes no memory.
    pub fn new() -> Loading
        ensures { result ≡ at_header }
    {
        Loading {
            stage: Stage::Header,
        }
    }

    /// The next line, without its line feed. The answer is whether the image ends with it, also where a line before it is
    /// bad. Once memory was refused, no more can be pushed; and a count of lines that a `u64` does not hold is refused as
    /// that. O(names of the path · log children + blocks · log blocks).
    pub fn push(&mut self, alloc: Global, line: &[u8]) -> Result<bool, AllocError>
        ensures taken { OnOk result (TakesLine self.old self.new line.now) }
        ensures ends { IfOk result (λ b. b ≡ ends_with self.old line.now) }
        ensures later { OnOk result (is_first self.new ≡ false) }
    {
        match &mut self.stage {
            Stage::Header => {
                self.stage = behind_header(alloc, line)?;
                Ok(false)
            }
            Stage::Begun(begun) => {
                let read = row_line(alloc, line)?;
                let ends = read.is_end();
                if let Some(fault) = begun.push(read)? {
                    self.refuse(fault);
                }
                Ok(ends)
            }
            Stage::Refused(_) => {
                let read = row_line(alloc, line)?;
                Ok(read.is_end())
            }
        }
    }

    fn refuse(&mut self, fault: ImageFault)
        requires { IsNoRead fault }
        ensures { self.new ≡ refused fault }
    {
        self.stage = Stage::Refused(fault);
    }

    /// The first fault of the lines that have come.
    pub fn fault(&self) -> Option<ImageFault>
        ensures fault { result ≡ fault_of_loading self.now }
        ensures own { IfSome result IsNoRead }
    {
        match self.stage {
            Stage::Refused(fault) => Some(fault),
            Stage::Header | Stage::Begun(_) => None,
        }
    }

    /// The namespace and the txid of the whole text, of which these bytes come behind the last line feed. Saved, the two make
    /// an image that is read as the same.
    pub fn end(self, torn: &[u8]) -> Result<(Namespace, Txid), ImageFault>
        ensures loaded { result ≡ loaded_from self (torn.now ∷ []) }
        ensures own { IfErr result IsNoRead }
        ensures limit { IfOk result (λ i. i.1 < 2 ^ 63) }
        ensures paths { IfOk result (λ i. HasPaths i.0) }
        ensures again { IfOk result (λ i. read_image (image_text i.0 i.1) ≡ Ok i) }
    {
        match self.stage {
            Stage::Header => Err(ImageFault::Truncated),
            Stage::Begun(begun) => begun.end(torn),
            Stage::Refused(fault) => Err(fault),
        }
    }
}

// What stands behind the first line.
fn behind_header(alloc: Global, line: &[u8]) -> Result<Stage, AllocError>
    ensures taken { IfOk result (λ s. TakesLine at_header (state_of s) line.now) }
    ensures lawful { IfOk result IsLawfulStage }
    ensures later { IfOk result (λ s. is_first (state_of s) ≡ false) }
{
    let header = match read_header(alloc, line) {
        Ok(header) => header,
        Err(ImageFault::OutOfMemory) => return Err(AllocError),
        Err(fault) => return Ok(Stage::Refused(fault)),
    };
    let namespace = Namespace::bare(
        alloc,
        header.last_block,
        header.last_stamp,
        &header.awaiting,
        header.profile,
    )?;
    let before = root(alloc)?;
    Ok(Stage::Begun(Begun {
        namespace,
        before,
        number: 2,
        txid: header.txid,
        has_ended: false,
    }))
}

impl Begun {
    // The next line, and the fault that it has.
    fn push(&mut self, read: RowLine) -> Result<Option<ImageFault>, AllocError>
        requires begun { IsBegun self.old }
        requires limit { HasLimit read }
        ensures taken { IfOk result (TakesRow self.old self.new read) }
        ensures own { IfOk result (λ o. IfSome o IsNoRead) }
        ensures txid { self.new.txid ≡ self.old.txid }
        ensures begun { IsBegun self.new }
    {
        if self.has_ended {
            return Ok(Some(ImageFault::BadLine(self.number + 1)));
        }
        match read {
            RowLine::Row(path, form) => self.place(path, form),
            RowLine::End(count) => Ok(self.end_rows(count)),
            RowLine::Bad => Ok(Some(ImageFault::BadLine(self.number))),
        }
    }

    // Adds what stands at the path of the next line.
    fn place(&mut self, path: Path, form: Form) -> Result<Option<ImageFault>, AllocError>
        requires begun { IsBegun self.old }
        requires rows { self.old.has_ended ≡ false }
        ensures taken { IfOk result (TakesRow self.old self.new (Row path form)) }
        ensures own { IfOk result (λ o. IfSome o IsNoRead) }
        ensures txid { self.new.txid ≡ self.old.txid }
        ensures begun { IsBegun self.new }
    {
        let Some(next) = self.number.checked_add(1) else {
            return Err(AllocError);
        };
        if !comes_before(&self.before.names(), &path.names()) {
            return Ok(Some(ImageFault::WrongOrder(self.number)));
        }
        match self.namespace.restore(&path, form) {
            Ok(()) => {}
            Err(RestoreFault::Refused) => return Ok(Some(ImageFault::BadLine(self.number))),
            Err(RestoreFault::OutOfMemory) => return Err(AllocError),
        }
        self.before = path;
        self.number = next;
        Ok(None)
    }

    // The next line is the end line with this count.
    fn end_rows(&mut self, count: Option<u64>) -> Option<ImageFault>
        requires begun { IsBegun self.old }
        requires rows { self.old.has_ended ≡ false }
        requires limit { IfSome count (λ n. n < 2 ^ 63) }
        ensures taken { TakesRow self.old self.new (End count) result }
        ensures own { IfSome result IsNoRead }
        ensures txid { self.new.txid ≡ self.old.txid }
        ensures begun { IsBegun self.new }
    {
        let Some(count) = count else {
            return Some(ImageFault::BadLine(self.number));
        };
        if count != self.number - 2 {
            return Some(ImageFault::CountMismatch);
        }
        self.has_ended = true;
        None
    }

    // What the rows make of the text, of which these bytes come behind the last line feed.
    fn end(self, torn: &[u8]) -> Result<(Namespace, Txid), ImageFault>
        requires { IsBegun self }
        ensures loaded { result ≡ loaded_from (state_of (stage.Begun self)) (torn.now ∷ []) }
        ensures own { IfErr result IsNoRead }
        ensures limit { IfOk result (λ i. i.1 < 2 ^ 63) }
        ensures paths { IfOk result (λ i. HasPaths i.0) }
        ensures again { IfOk result (λ i. read_image (image_text i.0 i.1) ≡ Ok i) }
    {
        if !self.has_ended {
            return Err(ImageFault::Truncated);
        }
        if !torn.is_empty() {
            return Err(ImageFault::Truncated);
        }
        let Begun {
            namespace,
            txid,
            ..
        } = self;
        namespace.recall_invariant();
        // Recalls to the prover that the txid keeps its limits.
        let _recalled = txid.get();
        Ok((namespace, txid))
    }
}

// The path of the root.
fn root(alloc: Global) -> Result<Path, AllocError>
    ensures { IfOk result (λ p. p ≡ []) }
{
    let Ok(root) = Path::parse(alloc, "/") else {
        return Err(AllocError);
    };
    Ok(root)
}

fn comes_before(a: &Names<'_>, b: &Names<'_>) -> bool
    ensures { result ≡ is_lt (path_cmp a.now b.now) }
{
    let Some((x, xs)) = a.split_first() else {
        return !b.is_empty();
    };
    let Some((y, ys)) = b.split_first() else {
        return false;
    };
    match x.cmp(y) {
        Ordering::Less => true,
        Ordering::Equal => comes_before(&xs, &ys),
        Ordering::Greater => false,
    }
}
