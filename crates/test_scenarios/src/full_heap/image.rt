//! `save`, an image in parts, `load` and `rewrite`.
use crate::full_heap::heap::Heap;
use crate::full_heap::lines::Lines;
use crate::full_heap::namespace;
use crate::full_heap::scenario::{EndFault, Scenario};
use crate::full_heap::trial::{Answer, Changing, Fate, change};
use nn_device::{Reader, Writer};
use nn_image::{ImageFault, RewriteFault, SaveFault, Saving, load, rewrite, save};
use nn_tree::Namespace;
use nn_types::Txid;
use std::alloc::Global;
use std::mem;

// What is printed for each call.
const NAMES: [&str; 4] = ["save", "save in parts", "load", "rewrite"];

// More parts than the image has.
const PARTS: usize = 1_000;

// Room for the image.
const ROOM: usize = 65_536;

#[derive(Clone, Copy)]
struct Save<'a> {
    alloc: Global,
    namespace: &'a Namespace,
    txid: Txid,
}

impl Changing for Save<'_> {
    type Subject = Vec<u8>;

    fn call(&self, image: &mut Vec<u8>) -> Answer {
        image.clear();
        let mut writer = Writer::new(mem::replace(image, Vec::new(self.alloc)));
        let saved = save(self.alloc, self.namespace, self.txid, &mut writer);
        *image = writer.into_inner();
        answer_of(saved)
    }

    // What was written is a prefix of the whole image.
    fn is_unchanged(&self, image: &Vec<u8>, whole: &Vec<u8>) -> bool {
        whole.starts_with(image)
    }
}

fn answer_of(saved: Result<(), SaveFault>) -> Answer {
    match saved {
        Ok(()) => Answer::Done,
        Err(SaveFault::OutOfMemory) => Answer::OutOfMemory,
        Err(SaveFault::WriteFault { .. }) => Answer::Other,
    }
}

// The same, a path a part.
#[derive(Clone, Copy)]
struct SaveInParts<'a>(Save<'a>);

impl SaveInParts<'_> {
    fn save(&self, writer: &mut Writer<Vec<u8>>) -> Result<(), SaveFault> {
        let Save {
            alloc,
            namespace,
            txid,
        } = self.0;
        let mut saving = Saving::begin(alloc, namespace, txid, writer)?;
        for _ in 0..PARTS {
            let Some(next) = saving.write_some(alloc, namespace, writer, 1)? else {
                return Ok(());
            };
            saving = next;
        }
        Ok(())
    }
}

impl Changing for SaveInParts<'_> {
    type Subject = Vec<u8>;

    fn call(&self, image: &mut Vec<u8>) -> Answer {
        image.clear();
        let mut writer = Writer::new(mem::replace(image, Vec::new(self.0.alloc)));
        let saved = self.save(&mut writer);
        *image = writer.into_inner();
        answer_of(saved)
    }

    // What was written is a prefix of the whole image.
    fn is_unchanged(&self, image: &Vec<u8>, whole: &Vec<u8>) -> bool {
        whole.starts_with(image)
    }
}

#[derive(Clone, Copy)]
struct Load<'a> {
    alloc: Global,
    image: &'a [u8],
}

impl Load<'_> {
    fn load(&self) -> Result<(Namespace, Txid), Answer> {
        match load(self.alloc, &mut Reader::new(self.image)) {
            Ok(loaded) => Ok(loaded),
            Err(ImageFault::OutOfMemory) => Err(Answer::OutOfMemory),
            Err(_) => Err(Answer::Other),
        }
    }
}

impl Changing for Load<'_> {
    type Subject = Option<(Namespace, Txid)>;

    fn call(&self, loaded: &mut Option<(Namespace, Txid)>) -> Answer {
        match self.load() {
            Ok(namespace) => {
                *loaded = Some(namespace);
                Answer::Done
            }
            Err(answer) => answer,
        }
    }

    fn is_unchanged(
        &self,
        loaded: &Option<(Namespace, Txid)>,
        _twin: &Option<(Namespace, Txid)>,
    ) -> bool {
        loaded.is_none()
    }
}

#[derive(Clone, Copy)]
struct Rewrite<'a> {
    alloc: Global,
    image: &'a [u8],
}

impl Changing for Rewrite<'_> {
    type Subject = Vec<u8>;

    fn call(&self, written: &mut Vec<u8>) -> Answer {
        written.clear();
        let mut writer = Writer::new(mem::replace(written, Vec::new(self.alloc)));
        let rewritten = rewrite(self.alloc, &mut Reader::new(self.image), &mut writer);
        *written = writer.into_inner();
        match rewritten {
            Ok(_) => Answer::Done,
            Err(RewriteFault::Load(ImageFault::OutOfMemory)) => Answer::OutOfMemory,
            Err(RewriteFault::Save(SaveFault::OutOfMemory)) => Answer::OutOfMemory,
            Err(_) => Answer::Other,
        }
    }

    // What was written is a prefix of the whole image.
    fn is_unchanged(&self, written: &Vec<u8>, whole: &Vec<u8>) -> bool {
        whole.starts_with(written)
    }
}

/// The image of the namespace after the scenario's first segment.
pub fn image_of(alloc: Global, scenario: &Scenario) -> Result<Vec<u8>, EndFault> {
    let mut image = Vec::with_capacity(alloc, ROOM)?;
    write_image(alloc, scenario, &mut image)?;
    Ok(image)
}

fn write_image(alloc: Global, scenario: &Scenario, image: &mut Vec<u8>) -> Result<(), EndFault> {
    let namespace = scenario.after_the_first(alloc)?;
    let save = Save {
        alloc,
        namespace: &namespace,
        txid: scenario.image_txid()?,
    };
    let answer = save.call(image);
    drop(namespace);
    match answer {
        Answer::Done => Ok(()),
        _ => Err(EndFault::OutOfMemory),
    }
}

/// Saves a namespace, and loads and rewrites its image.
pub fn save_and_load(
    alloc: Global,
    is_ample: bool,
    scenario: &Scenario,
    lines: &mut Lines,
) -> Result<(), EndFault> {
    let whole = image_of(alloc, scenario)?;
    let (saved, in_parts) = save_again(alloc, is_ample, scenario, &whole)?;
    let loaded = load_whole(alloc, is_ample, scenario, &whole)?;
    let rewrite = Rewrite {
        alloc,
        image: &whole,
    };
    let rewritten = write_again(alloc, is_ample, &rewrite, &whole)?;
    lines.push(&NAMES, &[saved, in_parts, loaded, rewritten])
}

fn save_again(
    alloc: Global,
    is_ample: bool,
    scenario: &Scenario,
    whole: &Vec<u8>,
) -> Result<(Fate, Fate), EndFault> {
    let namespace = scenario.after_the_first(alloc)?;
    let save = Save {
        alloc,
        namespace: &namespace,
        txid: scenario.image_txid()?,
    };
    let saved = write_again(alloc, is_ample, &save, whole);
    let in_parts = write_again(alloc, is_ample, &SaveInParts(save), whole);
    drop(namespace);
    Ok((saved?, in_parts?))
}

/// Makes a call that writes the whole image.
pub fn write_again<C: Changing<Subject = Vec<u8>>>(
    alloc: Global,
    is_ample: bool,
    call: &C,
    whole: &Vec<u8>,
) -> Result<Fate, EndFault> {
    let mut image = Vec::with_capacity(alloc, ROOM)?;
    let mut heap = Heap::new(alloc, is_ample)?;
    let fate = change(&mut heap, call, &mut image, whole);
    Ok(fate.if_same(image == *whole))
}

fn load_whole(
    alloc: Global,
    is_ample: bool,
    scenario: &Scenario,
    whole: &[u8],
) -> Result<Fate, EndFault> {
    let mut heap = Heap::new(alloc, is_ample)?;
    let namespace = scenario.after_the_first(alloc)?;
    let load = Load {
        alloc,
        image: whole,
    };
    let txid = scenario.image_txid()?;
    let fate = load_again(&mut heap, &load, scenario, txid, &namespace);
    drop(namespace);
    Ok(fate)
}

fn load_again(
    heap: &mut Heap,
    load: &Load<'_>,
    scenario: &Scenario,
    txid: Txid,
    namespace: &Namespace,
) -> Fate {
    let mut loaded = None;
    let fate = change(heap, load, &mut loaded, &None);
    let is_same = is_image_of(&loaded, namespace, txid, scenario);
    drop(loaded);
    fate.if_same(is_same)
}

// Whether what was loaded is this namespace, after the scenario's first segment.
fn is_image_of(
    loaded: &Option<(Namespace, Txid)>,
    namespace: &Namespace,
    txid: Txid,
    scenario: &Scenario,
) -> bool {
    match loaded {
        Some((read, read_txid)) => {
            *read_txid == txid && namespace::are_alike(read, namespace, scenario)
        }
        None => false,
    }
}
