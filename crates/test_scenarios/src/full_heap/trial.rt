//! A call under a full heap, made again until memory suffices.
use crate::full_heap::heap::Heap;

// More refusals than there are pieces.
const MOST_REFUSALS: u64 = 1_000_000;

/// What a call answered.
#[derive(Clone, Copy)]
pub enum Answer {
    Done,
    OutOfMemory,
    /// Neither of these, which is wrong here.
    Other,
}

/// A call that changes what it works on.
pub trait Changing {
    type Subject;

    /// Makes the call.
    fn call(&self, subject: &mut Self::Subject) -> Answer;

    /// Whether a subject shows after a refusal what it showed before. Its twin still does: the call was not made on it. It
    /// can do without memory.
    fn is_unchanged(&self, subject: &Self::Subject, twin: &Self::Subject) -> bool;
}

/// A call that makes something of what it is given, or gives that back.
pub trait Making {
    type Given: Drop;

    type Made: Drop;

    /// Makes the call. What comes back comes with what it answered.
    fn call(&self, given: Self::Given) -> Result<Self::Made, (Answer, Self::Given)>;

    /// Whether what came back is what was given. It can do without memory.
    fn is_unchanged(&self, given: &Self::Given) -> bool;
}

/// What became of a call, or of all calls of one kind. The later ones are worse.
#[derive(Clone, Copy, PartialEq, Eq, PartialOrd, Ord)]
pub enum Fate {
    /// It was never made.
    Untried,
    /// It succeeded at once.
    Done,
    /// It was refused memory, changed nothing, and succeeded later.
    RefusedThenDone,
    /// All pieces were given back, and it was still refused.
    StillRefused,
    /// It was refused memory, and something had changed.
    Changed,
    /// It had another answer.
    OtherAnswer,
    /// It succeeded, and what it made is not what an undisturbed run makes.
    Differs,
}

impl Fate {
    /// What is printed for it.
    pub fn text(self) -> &'static str {
        match self {
            Fate::Untried => "never called",
            Fate::Done => "done",
            Fate::RefusedThenDone => "refused, then done",
            Fate::StillRefused => "refused with all memory back",
            Fate::Changed => "refused and changed",
            Fate::OtherAnswer => "another answer",
            Fate::Differs => "done with another result",
        }
    }

    /// The worse of two.
    pub fn and(self, other: Fate) -> Fate {
        if self < other { other } else { self }
    }

    /// The same, or `Differs` if it succeeded and what was made is not what an undisturbed run makes.
    pub fn if_same(self, is_same: bool) -> Fate {
        match self {
            Fate::Done | Fate::RefusedThenDone if !is_same => Fate::Differs,
            _ => self,
        }
    }

    // Of a call that succeeded after so many refusals.
    fn after(refusals: u64) -> Fate {
        if refusals == 0 {
            Fate::Done
        } else {
            Fate::RefusedThenDone
        }
    }
}

/// Makes a call under a full heap, with one piece of memory more each time, until it is not refused any more; and then on
/// the twin, so that both show the same again.
pub fn change_both<C: Changing>(
    heap: &mut Heap,
    call: &C,
    subject: &mut C::Subject,
    twin: &mut C::Subject,
) -> Fate {
    let fate = change(heap, call, subject, twin);
    // The subject is a call ahead of its twin now, so the two cannot be compared.
    fate.and(follow(heap, call, twin))
}

/// The same without the twin's call.
pub fn change<C: Changing>(
    heap: &mut Heap,
    call: &C,
    subject: &mut C::Subject,
    twin: &C::Subject,
) -> Fate {
    heap.fill();
    for refusals in 0..MOST_REFUSALS {
        match call.call(subject) {
            Answer::Done => return Fate::after(refusals),
            Answer::Other => return Fate::OtherAnswer,
            Answer::OutOfMemory => {}
        }
        if !call.is_unchanged(subject, twin) {
            return Fate::Changed;
        }
        if !heap.give(refusals) {
            return Fate::StillRefused;
        }
    }
    Fate::StillRefused
}

fn follow<C: Changing>(heap: &mut Heap, call: &C, twin: &mut C::Subject) -> Fate {
    for refusals in 0..MOST_REFUSALS {
        match call.call(twin) {
            Answer::Done => return Fate::Done,
            Answer::Other => return Fate::OtherAnswer,
            Answer::OutOfMemory => {}
        }
        if !heap.give(refusals) {
            return Fate::StillRefused;
        }
    }
    Fate::StillRefused
}

/// Makes a call again, with the memory that an equal one gave back.
pub fn repeat<C: Changing>(heap: &Heap, call: &C, subject: &mut C::Subject) -> Fate {
    for refusals in 0..MOST_REFUSALS {
        match call.call(subject) {
            Answer::Done => return Fate::Done,
            Answer::Other => return Fate::OtherAnswer,
            Answer::OutOfMemory => {}
        }
        if !heap.may_suffice(refusals) {
            return Fate::StillRefused;
        }
    }
    Fate::StillRefused
}

/// Makes something under a full heap, with one piece of memory more each time.
pub fn make<M: Making>(heap: &mut Heap, call: &M, given: M::Given) -> (Fate, Option<M::Made>) {
    heap.fill();
    let mut left = given;
    for refusals in 0..MOST_REFUSALS {
        match call.call(left) {
            Ok(made) => return (Fate::after(refusals), Some(made)),
            Err((Answer::OutOfMemory, back)) => left = back,
            Err(_) => return (Fate::OtherAnswer, None),
        }
        if !call.is_unchanged(&left) {
            return (Fate::Changed, None);
        }
        if !heap.give(refusals) {
            return (Fate::StillRefused, None);
        }
    }
    (Fate::StillRefused, None)
}

/// What calls are made on, and its twin.
#[derive(Drop)]
pub struct Pair<T> {
    pub subject: T,
    pub twin: T,
}

impl<T: Drop> Pair<T> {
    /// Both, if both were made.
    pub fn of(subject: Option<T>, twin: Option<T>) -> Option<Pair<T>> {
        let subject = subject?;
        let twin = twin?;
        Some(Pair { subject, twin })
    }

    /// Makes a call on the subject under a full heap, and then on the twin.
    pub fn change<C: Changing<Subject = T>>(&mut self, heap: &mut Heap, call: &C) -> Fate {
        change_both(heap, call, &mut self.subject, &mut self.twin)
    }
}

/// Makes two of a kind.
pub fn make_both<M: Making>(
    heap: &mut Heap,
    call: &M,
    given: M::Given,
    other: M::Given,
) -> (Fate, Option<Pair<M::Made>>) {
    let (fate, subject) = make(heap, call, given);
    let (other_fate, twin) = make(heap, call, other);
    (fate.and(other_fate), Pair::of(subject, twin))
}

/// The worse of each two, or `Differs` where what was made is not what an undisturbed run makes.
pub fn both<const N: usize>(fates: [Fate; N], others: [Fate; N], is_same: bool) -> [Fate; N] {
    let mut worse = fates;
    for place in 0..N {
        worse[place] = fates[place].and(others[place]).if_same(is_same);
    }
    worse
}

/// The same for two plays, one of them undisturbed, each with what it shows at its end. One that shows nothing differs.
pub fn compared<const N: usize>(
    played: (Option<String>, [Fate; N]),
    undisturbed: (Option<String>, [Fate; N]),
) -> [Fate; N] {
    let is_same = played.0.is_some() && played.0 == undisturbed.0;
    both(played.1, undisturbed.1, is_same)
}
