//! Services whose checkpoints are written in parts of one path: written, called off by a promotion, and failed.
use crate::serve::{AT_ONCE, ENDLESS, Service, Until, operator_of, served};
use crate::values::Shared;
use nn_drive::{
    CheckpointOperator, CheckpointOutcome, Checkpointing, EndedCheckpoint, Operator, Request,
};
use nn_image::SaveFault;
use nn_lane_standby::Standby;
use std::alloc::Global;
use std::io;
use std::io::Write;
use std::process::Abort;
use std::sync::{Arc, Wait};
use std::thread::Threads;

// What the standby starts from. Its first line has 112 bytes, that of a path 27.
const IMAGE: &str =
    r#"{"awaiting":[],"image":"hdfs-standby","last_block":1073741824,"last_gen":1000,"profile":1,"txid":2,"version":2}
{"path":"/a","type":"dir"}
{"path":"/b","type":"dir"}
{"path":"/c","type":"dir"}
{"path":"/d","type":"dir"}
{"end":4}
"#;

// Takes so many bytes, and fails then.
#[derive(Drop)]
struct Device {
    got: Vec<u8>,
    most: usize,
}

impl Write for Device {
    fn write(&mut self, buf: &[u8]) -> io::Result<usize> {
        let left = self.most.saturating_sub(self.got.len());
        if left == 0 {
            return Err(io::Error::from(io::ErrorKind::Other));
        }
        let n = buf.len().min(left);
        self.got.extend_from_slice(&buf[..n])?;
        Ok(n)
    }

    fn flush(&mut self) -> io::Result<()> {
        Ok(())
    }
}

// How a checkpoint ended: its transaction, how many bytes were written, and whether these are a prefix of the image.
type End = (u64, CheckpointOutcome, u64, bool);

// Wants a checkpoint for each of these devices, in turn. Requests what another operator does, but no promotion before so many
// rotations with a checkpoint in hand.
#[derive(Drop)]
struct Wanting {
    alloc: Global,
    until: Until,
    limits: &'static [usize],
    wanted: usize,
    rotations: u64,
    ends: Vec<End>,
}

impl Operator for Wanting {
    ghost use Rattle.std.specs.Prelude.{⊤};

    ghost asks = { λ o x n w p. ⊤ };

    fn ask(&mut self, standby: &Standby, running: usize) -> Request {
        if self.wanted > self.ends.len() {
            self.rotations = self.rotations.saturating_sub(1);
        }
        if self.rotations > 0 {
            return Request::GoOn;
        }
        self.until.ask(standby, running)
    }
}

impl CheckpointOperator<Device> for Wanting {
    ghost use Rattle.std.specs.Prelude.{⊤};

    ghost wants = { λ o x w p. ⊤ };

    ghost hears = { λ o w e p. ⊤ };

    fn due(&mut self, _standby: &Standby) -> Option<Device> {
        let most = *self.limits.get(self.wanted)?;
        self.wanted = self.wanted.saturating_add(1);
        Some(Device {
            got: Vec::new(self.alloc),
            most,
        })
    }

    fn ended(&mut self, device: Device, checkpoint: EndedCheckpoint) {
        let is_prefix = IMAGE.as_bytes().starts_with(device.got.as_slice());
        let EndedCheckpoint {
            txid,
            bytes,
            outcome,
        } = checkpoint;
        let _is_told = self.ends.push((txid.get(), outcome, bytes, is_prefix));
    }
}

#[test]
fn written(rt: HostRuntime) {
    let ends = ends_of(&rt, rt.alloc(), &ENDLESS, &[usize::MAX], 1);
    has_ends(&rt, ends, &[(2, CheckpointOutcome::Written, 230, true)]);
}

// It has its first line, and the lines of two paths.
#[test]
fn called_off(rt: HostRuntime) {
    let ends = ends_of(&rt, rt.alloc(), &AT_ONCE, &[usize::MAX], 3);
    has_ends(&rt, ends, &[(2, CheckpointOutcome::CalledOff, 166, true)]);
}

// The first device fails at once, the second one in the first line, and the third one in that of the second path.
#[test]
fn failed(rt: HostRuntime) {
    let ends = ends_of(&rt, rt.alloc(), &ENDLESS, &[0, 100, 140, usize::MAX], 6);
    let failed = |written: u64| CheckpointOutcome::Failed(SaveFault::WriteFault { written });
    has_ends(
        &rt,
        ends,
        &[
            (2, failed(0), 0, true),
            (2, failed(100), 100, true),
            (2, failed(1), 140, true),
            (2, CheckpointOutcome::Written, 230, true),
        ],
    );
}

fn has_ends(rt: &impl Abort, ends: Option<Vec<End>>, wanted: &[End]) {
    let Some(ends) = ends else {
        assert!(rt; false, "not promoted");
        return;
    };
    assert_eq!(rt; ends.as_slice(), wanted);
}

fn ends_of<R: Threads + Wait + Copy + Send + Drop + 'static>(
    rt: &R,
    alloc: Global,
    service: &Service,
    limits: &'static [usize],
    rotations: u64,
) -> Option<Vec<End>> {
    let shared = Shared::new(alloc)?;
    let wanting = Wanting {
        alloc,
        until: operator_of(service, &shared)?,
        limits,
        wanted: 0,
        rotations,
        ends: Vec::new(alloc),
    };
    let mut operator = Checkpointing::new(alloc, wanting, 1);
    let is_promoted = is_promoted(rt, alloc, service, &shared, &mut operator)?;
    let Wanting { ends, .. } = operator.into_operator();
    is_promoted.then_some(ends)
}

fn is_promoted<R: Threads + Wait + Copy + Send + Drop + 'static>(
    rt: &R,
    alloc: Global,
    service: &Service,
    shared: &Arc<Shared, Global>,
    operator: &mut Checkpointing<Device, Wanting>,
) -> Option<bool> {
    match served(rt, alloc, service, shared, Some(IMAGE.as_bytes()), operator)? {
        Ok(promoted) => {
            drop(promoted);
            Some(true)
        }
        Err(unserved) => {
            drop(unserved);
            Some(false)
        }
    }
}
