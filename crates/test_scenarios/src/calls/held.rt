//! Held messages.
use crate::calls::call::Call;
use nn_postponed::Postponed;

/// Calls that change what is held. Whether this was one.
pub fn change(held: &mut Postponed, call: &mut Call<'_>) -> bool {
    if call.is("hold") {
        call.failed = held.hold(call.message(1)).is_err() || call.failed;
    } else if call.is("hold_all") {
        let messages = call.messages();
        call.failed = held.hold_all(&messages).is_err() || call.failed;
    } else if call.is("take_last") {
        let message = held.take_last(call.id(1));
        call.show_taken(&message);
    } else if call.is("take_first") {
        call.show_taken(&held.take_first());
    } else if call.is("release") {
        let message = held.release(call.id(1), call.status(2));
        call.show_taken(&message);
    } else {
        return read(held, call);
    }
    true
}

// Calls that change nothing.
fn read(held: &Postponed, call: &mut Call<'_>) -> bool {
    if call.is("waiting") {
        if !held.is_empty() {
            call.show(&held.len());
        }
    } else if call.is("held") {
        show_queue(held, call);
    } else if call.is("holds") {
        let holds = held.holds(call.datanode(1), call.id(2));
        call.show(&holds);
    } else if call.is("held_from") {
        let count = held.count_from(call.datanode(1));
        call.show(&count);
    } else if call.is("next_held") {
        if let Some(id) = held.next_held(call.id(1)) {
            call.show(&id.get());
        }
    } else if call.is("due") {
        let count = held.due_count(call.id(1), call.status(2));
        call.show(&count);
    } else {
        return false;
    }
    call.none();
    true
}

fn show_queue(held: &Postponed, call: &mut Call<'_>) {
    if let Some(mut queue) = held.queue(call.id(1)) {
        for _ in 0..held.len() {
            if let Some(message) = queue.next() {
                call.show_message(&message);
            }
        }
    }
}
