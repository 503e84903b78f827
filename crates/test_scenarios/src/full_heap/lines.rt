//! The lines that are printed, all at the end.
use crate::full_heap::scenario::EndFault;
use crate::full_heap::trial::Fate;
use std::alloc::Global;

/// A line for each call.
#[derive(Drop)]
pub struct Lines {
    text: String,
    is_ample: bool,
}

impl Lines {
    /// No lines.
    pub fn new(alloc: Global, is_ample: bool) -> Lines {
        Lines {
            text: String::new(alloc),
            is_ample,
        }
    }

    /// Adds the line of each call.
    pub fn push(&mut self, names: &[&str], fates: &[Fate]) -> Result<(), EndFault> {
        for (name, fate) in names.iter().zip(fates) {
            self.push_line(name, *fate)?;
        }
        Ok(())
    }

    fn push_line(&mut self, name: &str, fate: Fate) -> Result<(), EndFault> {
        let became = self.shown(fate)?.text();
        write!(self.text, "{name}: {became}\n")?;
        Ok(())
    }

    // Where the heap is left as it is, a call that was refused at first is as good as one that never was, and one that is
    // still refused halts the program.
    fn shown(&self, fate: Fate) -> Result<Fate, EndFault> {
        match fate {
            Fate::StillRefused if self.is_ample => Err(EndFault::OutOfMemory),
            Fate::RefusedThenDone if self.is_ample => Ok(Fate::Done),
            _ => Ok(fate),
        }
    }

    /// The text of all lines.
    pub fn as_bytes(&self) -> &[u8] {
        self.text.as_bytes()
    }
}
