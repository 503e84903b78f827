//! Plays scripts of calls, and prints each answer that is not the one the script gives.
//!
//! A line of a script is a call and, after ` -> `, its answer, which is `done` where none is given. Words are split at
//! blanks. A line that starts with `#` is a comment, and an empty line is passed over. `?` is the answer of a line that is
//! no call, and of one for which memory does not suffice. Each script begins with nothing held, an empty table, no lane,
//! no standby, the root alone and an empty text.
mod call;
mod faults;
mod files;
mod held;
mod lane;
mod standby;
mod table;
mod text;

use crate::calls::call::Call;
use crate::calls::lane::Lane;
use crate::calls::standby::Tailing;
use crate::tally::Tally;
use nn_postponed::Postponed;
use nn_replicas::Replicas;
use nn_tree::Namespace;
use nn_types::Settings;
use std::alloc::Global;
use std::{fs, io};

/// Plays those of these names that are scripts.
pub fn play(rt: &HostRuntime, names: &[String]) -> io::Result<()> {
    let mut tally = Tally::new();
    for name in names {
        if name.ends_with(".calls") {
            let script = fs::read_to_string(rt, name.as_str())?;
            play_script(rt, rt.alloc(), name, &script, &mut tally)?;
        }
    }
    tally.print(rt)
}

fn play_script(
    rt: &impl Print,
    alloc: Global,
    name: &str,
    script: &str,
    tally: &mut Tally,
) -> io::Result<()> {
    let mut subjects = Subjects::new(alloc);
    let played = play_lines(rt, alloc, name, script, &mut subjects, tally);
    drop(subjects);
    played
}

fn play_lines(
    rt: &impl Print,
    alloc: Global,
    name: &str,
    script: &str,
    subjects: &mut Subjects,
    tally: &mut Tally,
) -> io::Result<()> {
    for (at, line) in script.lines().enumerate() {
        if line.is_empty() || line.starts_with('#') {
            continue;
        }
        let (line, want) = line.split_once(" -> ").unwrap_or((line, "done"));
        let mut call = Call::new(alloc, line);
        let agrees = answers(subjects, &mut call, want);
        tally.count(agrees);
        if !agrees {
            let number = at.saturating_add(1);
            println!(rt; "{name} {number}: {}", call.answer)?;
        }
    }
    Ok(())
}

// What the calls of a script are about.
#[derive(Drop)]
struct Subjects {
    held: Postponed,
    table: Replicas,
    lane: Lane,
    files: Namespace,
    text: Vec<u8>,
    tailing: Option<Tailing>,
}

impl Subjects {
    fn new(alloc: Global) -> Subjects {
        Subjects {
            held: Postponed::new(alloc),
            table: Replicas::new(alloc, Settings::new(999, 1).unwrap()),
            lane: Lane {
                ends: None,
                reporter: None,
                end: None,
            },
            files: Namespace::new(alloc),
            text: Vec::new(alloc),
            tailing: None,
        }
    }
}

// Whether the call answers what is wanted.
fn answers(subjects: &mut Subjects, call: &mut Call<'_>, want: &str) -> bool {
    let known = held::change(&mut subjects.held, call)
        || table::change(&mut subjects.table, call)
        || lane::play(&mut subjects.lane, call)
        || text::play(&mut subjects.text, call)
        || files::change(&mut subjects.files, &mut subjects.text, call)
        || faults::play(call)
        || standby::play(&mut subjects.tailing, &mut subjects.text, call);
    if call.failed || !known {
        call.say("?");
    } else if call.answer.is_empty() {
        call.say("done");
    }
    call.answer.as_str() == want
}
