//! A namespace, and its image as a text.
use crate::calls::call::Call;
use nn_device::{Reader, Writer};
use nn_edits::{Scratch, read_edit};
use nn_image::{image_name, load, rewrite, save};
use nn_tree::{Found, Namespace, Touched};
use nn_types::{Edit, Path, Status, Txid};

/// Calls on a namespace, and on its image. Whether this was one.
pub fn change(files: &mut Namespace, text: &mut Vec<u8>, call: &mut Call<'_>) -> bool {
    if call.is("apply") {
        apply(files, call);
    } else if call.is("load") {
        restore(files, text, call);
    } else if call.is("save") {
        write_image(files, text, call);
    } else if call.is("rewrite") {
        write_again(text, call);
    } else if call.is("show") {
        show_text(text, call);
    } else if call.is("image_name") {
        show_name(call);
    } else {
        return read(files, call);
    }
    true
}

fn show_name(call: &mut Call<'_>) {
    let Some(txid) = Txid::new(call.number(1)) else {
        call.failed = true;
        return;
    };
    match image_name(call.alloc, txid) {
        Ok(name) => call.say(&name),
        Err(_) => call.failed = true,
    }
}

fn apply(files: &mut Namespace, call: &mut Call<'_>) {
    let line = call.word(1).as_bytes();
    let mut scratch = Scratch::new(call.alloc);
    match read_edit(call.alloc, &mut scratch, line) {
        Ok(tx) => apply_edit(files, &tx.edit, call),
        Err(_) => call.failed = true,
    }
}

fn apply_edit(files: &mut Namespace, edit: &Edit, call: &mut Call<'_>) {
    match files.apply(edit) {
        Ok(touched) => show_touched(&touched, call),
        Err(fault) => call.fault(fault.number(), &fault),
    }
}

fn show_touched(touched: &Touched, call: &mut Call<'_>) {
    for row in &touched.changed {
        call.say("changed");
        call.show_row(row);
    }
    for id in &touched.retired {
        call.say("retired");
        call.show(&id.get());
    }
    if let Some((first, last)) = touched.skipped {
        call.say("skipped");
        call.show(&first.get());
        call.show(&last.get());
    }
}

// Puts the image of the namespace in the place of the text.
fn write_image(files: &Namespace, text: &mut Vec<u8>, call: &mut Call<'_>) {
    let Some(txid) = Txid::new(call.number(1)) else {
        call.failed = true;
        return;
    };
    let mut image = Writer::new(Vec::new(call.alloc));
    call.failed = save(call.alloc, files, txid, &mut image).is_err() || call.failed;
    *text = image.into_inner();
}

// Takes the namespace of an image, and answers its txid.
fn restore(files: &mut Namespace, text: &[u8], call: &mut Call<'_>) {
    match load(call.alloc, &mut Reader::new(text)) {
        Ok((namespace, txid)) => {
            *files = namespace;
            call.show(&txid.get());
        }
        Err(fault) => call.fault(fault.number(), &fault),
    }
}

// Puts what an image is written as in its place, and answers its txid.
fn write_again(text: &mut Vec<u8>, call: &mut Call<'_>) {
    let mut written = Writer::new(Vec::new(call.alloc));
    match rewrite(call.alloc, &mut Reader::new(text.as_slice()), &mut written) {
        Ok(txid) => call.show(&txid.get()),
        Err(fault) => call.fault(fault.number(), &fault),
    }
    *text = written.into_inner();
}

fn show_text(text: &[u8], call: &mut Call<'_>) {
    match str::from_utf8(text) {
        Ok(text) => call.say_lines(text),
        Err(_) => call.failed = true,
    }
}

// Calls that change nothing.
fn read(files: &Namespace, call: &mut Call<'_>) -> bool {
    if call.is("list") {
        show_paths(files, call);
    } else if call.is("lookup") {
        look_up(files, call);
    } else if call.is("status") {
        let status = files.status(call.id(1));
        show_status(&status, call);
    } else if call.is("block") {
        if let Some(row) = files.block(call.id(1)) {
            call.show_row(&row);
        }
    } else if call.is("awaiting") {
        show_awaiting(files, call);
    } else if call.is("issued") {
        call.show(&files.last_block().get());
        call.show(&files.last_stamp().get());
        call.show(&files.profile());
    } else {
        return false;
    }
    call.none();
    true
}

fn show_status(status: &Status, call: &mut Call<'_>) {
    match status {
        Status::Unnamed => call.say("unnamed"),
        Status::Awaiting => call.say("awaiting"),
        Status::Retired => call.say("retired"),
        Status::Named(stamp) => call.show(&stamp.get()),
    }
}

fn show_awaiting(files: &Namespace, call: &mut Call<'_>) {
    let Ok(ids) = files.awaiting(call.alloc) else {
        call.failed = true;
        return;
    };
    for id in &ids {
        call.show(&id.get());
    }
}

fn show_paths(files: &Namespace, call: &mut Call<'_>) {
    let Ok(rows) = files.list() else {
        call.failed = true;
        return;
    };
    for row in &rows {
        match row.text(call.alloc) {
            Ok(path) => call.say(&path),
            Err(_) => call.failed = true,
        }
    }
}

// What stands at a path: a directory, or a file with its replication and number of blocks.
fn look_up(files: &Namespace, call: &mut Call<'_>) {
    let Ok(path) = Path::parse(call.alloc, call.word(1)) else {
        call.failed = true;
        return;
    };
    match files.lookup(&path) {
        Some(Found::Dir) => call.say("dir"),
        Some(Found::File(file)) => {
            call.say("file");
            call.show(&file.replication.get());
            call.show(&file.blocks.as_slice().len());
        }
        None => {}
    }
}
