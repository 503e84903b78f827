//! `Standby::checkpoint`.
ghost use Rattle.std.specs.Prelude.{◌≡◌, [], ◌∷◌, IfOk};

use crate::full_heap::image::{image_of, write_again};
use crate::full_heap::lines::Lines;
use crate::full_heap::scenario::{EndFault, Scenario};
use crate::full_heap::trial::{Answer, Changing};
use nn_device::{Reader, Writer};
use nn_image::SaveFault;
use nn_lane::{LaneEnd, lane};
use nn_lane_standby::Standby;
use nn_types::Settings;
use std::alloc::Global;
use std::mem;

#[derive(Clone, Copy)]
struct Checkpoint<'a> {
    alloc: Global,
    standby: &'a Standby,
}

impl Changing for Checkpoint<'_> {
    type Subject = Vec<u8>;

    fn call(&self, image: &mut Vec<u8>) -> Answer {
        image.clear();
        let mut writer = Writer::new(mem::replace(image, Vec::new(self.alloc)));
        let written = self.standby.checkpoint(self.alloc, &mut writer);
        *image = writer.into_inner();
        match written {
            Ok(()) => Answer::Done,
            Err(SaveFault::OutOfMemory) => Answer::OutOfMemory,
            Err(_) => Answer::Other,
        }
    }

    // What was written is a prefix of the whole image.
    fn is_unchanged(&self, image: &Vec<u8>, whole: &Vec<u8>) -> bool {
        whole.starts_with(image)
    }
}

/// A standby that started from an image writes it again.
pub fn write_checkpoint(
    alloc: Global,
    is_ample: bool,
    settings: Settings,
    scenario: &Scenario,
    lines: &mut Lines,
) -> Result<(), EndFault> {
    let whole = image_of(alloc, scenario)?;
    let standby = standby_from(alloc, settings, &whole)?;
    let call = Checkpoint {
        alloc,
        standby: &standby,
    };
    let fate = write_again(alloc, is_ample, &call, &whole);
    drop(standby);
    lines.push(&["Standby::checkpoint"], &[fate?])
}

// A standby over a lane that carries nothing.
fn standby_from(alloc: Global, settings: Settings, image: &[u8]) -> Result<Standby, EndFault> {
    let (_reporter, end) = lane(alloc, 1, 1)?;
    let ends = ends_of(alloc, end)?;
    match Standby::from_image(alloc, ends, settings, &mut Reader::new(image)) {
        Ok(standby) => Ok(standby),
        Err(_) => Err(EndFault::OutOfMemory),
    }
}

fn ends_of(alloc: Global, end: LaneEnd) -> Result<Vec<LaneEnd>, EndFault>
    ensures { IfOk result (λ ends. ends.items ≡ end ∷ []) }
{
    let mut ends = Vec::new(alloc);
    let Ok(()) = ends.push(end) else {
        return Err(EndFault::OutOfMemory);
    };
    Ok(ends)
}
