//! What a namespace and a standby show, as text.
use nn_device::{Page, Writer};
use nn_listing::{ReadyListing, ReadyTables, put_history, write_listing};
use nn_shadow::Shadow;
use nn_tree::Namespace;
use std::alloc::{AllocError, Global};

/// Whether two namespaces have the same listing.
pub fn have_the_same_listing(
    alloc: Global,
    namespace: &Namespace,
    other: &Namespace,
) -> Result<bool, AllocError> {
    Ok(listing_of(alloc, namespace)? == listing_of(alloc, other)?)
}

fn listing_of(alloc: Global, namespace: &Namespace) -> Result<Vec<u8>, AllocError> {
    let mut writer = Writer::new(Vec::new(alloc));
    match write_listing(alloc, namespace, 0, &mut writer) {
        Ok(()) => Ok(writer.into_inner()),
        // A write into memory fails where memory is refused.
        Err(_) => Err(AllocError),
    }
}

/// A standby's namespace and last txid, its replicas, orders and counts.
pub fn tables_of(alloc: Global, shadow: &Shadow) -> Result<String, AllocError> {
    let mut page = Page::new(alloc);
    let mut writer = Writer::new(Vec::new(alloc));
    put_tables(alloc, &mut page, &mut writer, shadow)?;
    ended(page, writer)
}

/// The same, and its history, and how many messages it holds.
pub fn text_of(alloc: Global, shadow: &Shadow) -> Result<String, AllocError> {
    let mut page = Page::new(alloc);
    let mut writer = Writer::new(Vec::new(alloc));
    put_tables(alloc, &mut page, &mut writer, shadow)?;
    put_history(&mut page, &mut writer, shadow.history());
    let mut text = ended(page, writer)?;
    let held = shadow.held_count();
    write!(text, "held {held}\n")?;
    Ok(text)
}

fn put_tables(
    alloc: Global,
    page: &mut Page,
    writer: &mut Writer<Vec<u8>>,
    shadow: &Shadow,
) -> Result<(), AllocError> {
    let extent = shadow.namespace().extent()?;
    let listing = ReadyListing::of(shadow.namespace(), extent, shadow.last_txid().get())?;
    let tables = ReadyTables::of(alloc, shadow.replicas(), shadow.safe_mode())?;
    listing.put(page, writer);
    tables.put(page, writer);
    Ok(())
}

// The text of a page that went into memory.
fn ended(page: Page, writer: Writer<Vec<u8>>) -> Result<String, AllocError> {
    let mut writer = writer;
    if page.end(&mut writer).is_err() {
        return Err(AllocError);
    }
    let Ok(text) = String::from_utf8(writer.into_inner()) else {
        return Err(AllocError);
    };
    Ok(text)
}
