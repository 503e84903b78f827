//! Where a run begins.
ghost use Rattle.std.specs.Prelude.{◌≡◌, ℕ, List, None};
ghost use Rattle.nn_run.specs.Input.{begun, loaded_in, start_of};
ghost use Rattle.nn_run.specs.Start.{from_root, start_in};

use nn_image::ImageFault;
use nn_tree::Namespace;
use nn_types::Txid;
use std::alloc::Global;

/// What an image is read as: its namespace and its txid, or its first fault.
pub(crate) type Loaded = Result<(Namespace, Txid), ImageFault>;

/// A namespace, and the txid of its last transaction, 0 where there was none.
#[derive(Drop)]
pub(crate) struct Begin {
    pub namespace: Namespace,
    pub txid: Txid,
}

/// Where the run of an input begins whose image is read as this, or the first fault of the image. Where an image is asked for
/// and none is there, it has no header.
pub(crate) fn start_from(
    alloc: Global,
    from_image: bool,
    loaded: Option<Loaded>,
) -> Result<Begin, ImageFault>
    ensures { (input : List ℕ) → loaded_in from_image input ≡ loaded → start_in from_image input ≡ begun result }
{
    match loaded {
        Some(Ok((namespace, txid))) => Ok(Begin { namespace, txid }),
        Some(Err(fault)) => Err(fault),
        None => without_image(alloc, from_image),
    }
}

fn without_image(alloc: Global, from_image: bool) -> Result<Begin, ImageFault>
    ensures { (input : List ℕ) → loaded_in from_image input ≡ None → start_in from_image input ≡ begun result }
{
    if from_image {
        return Err(ImageFault::NotHeader);
    }
    Ok(at_root(alloc))
}

/// The root alone, before the first transaction.
pub(crate) fn at_root(alloc: Global) -> Begin
    ensures { start_of result ≡ from_root }
{
    Begin {
        namespace: Namespace::new(alloc),
        txid: Txid::ZERO,
    }
}
