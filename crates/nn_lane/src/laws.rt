//! Laws of the lane: its two words and what its seats show are a lane of the intake core, and each step is an event.
ghost use Rattle.std.specs.Prelude.{◌≡◌, ◌<◌, ℕ, List, [], ◌∷◌, length, slice_index};
ghost use mathlib.Core.Option.{some};
ghost use lib.ListN.{get_elem?};
ghost use Rattle.atomic_table.specs.Table.{Step, opening, Allows};
ghost use Rattle.nn_types.specs.declared.report.Message.{Message};
ghost use Rattle.nn_lane.specs.declared.view.View.{View};
ghost use Rattle.nn_lane.specs.Intake.{IntakeEvent, no_intake, intake_after, MayAll, words_of};
ghost use Rattle.nn_lane.specs.Lane.{Lane, opening_view};
ghost use Rattle.nn_lane.specs.Moves.{LaneState, SeatSteps, shown_by, MovesInTurn, PartsSeat, Meets, EachStepIsAnEvent};

use crate::view::View;
use atomic_table::Play;
use nn_types::Message;

/// However the steps of the two ends follow one another, each is an event of the intake core that may come then, and the
/// lane shows what the core is after them.
pub fn a_run_is_a_list_of_events()
    ensures { (node n : ℕ) (s s' : LaneState) (events : List IntakeEvent) (h : Lane node s) (h' : Lane node s') → length s.homes ≡ n → MovesInTurn node n s events s' → MayAll n (shown_by node s h) events × (shown_by node s' h' ≡ intake_after (shown_by node s h) events) }
{}

/// What a seat of a lane's table is allowed to do is a step of its seat, and keeps the rule.
pub fn an_allowed_step_is_a_move<M: Play<Message, View>>()
    ensures { (node n id i : ℕ) (f : ℕ → ℕ) (st : Step Message) (v : View) (cs : List (ℕ × Message)) → Allows (Lane node) n id (v, cs) i f (M.then st (v, cs)) → (s : LaneState) → Lane node s → length s.homes ≡ n → get_elem? s.views id ≡ some v → slice_index s.words i < 18446744073709551616 → (s' : LaneState) × Lane node s' × (length s'.homes ≡ n) × SeatSteps s v i f (M.then st) s' }
{}

/// Each step that a call of a lane makes is the event of the intake core that its kind and the word that it found say.
pub fn each_step_is_an_event()
    ensures { EachStepIsAnEvent }
{}

/// Whenever no step is under way, the lane's words and what its ends show are those of the intake core after some events.
pub fn a_lane_is_an_intake()
    ensures { (node : ℕ) (s : LaneState) (h : Lane node s) → (events : List IntakeEvent) × MayAll (length s.homes) no_intake events × (shown_by node s h ≡ intake_after no_intake events) × (s.words ≡ words_of (shown_by node s h)) }
{}

/// A new lane shows the intake core before any event, and neither the parting of its seats nor their meeting is one.
pub fn no_event_but_a_step()
    ensures new { (node : ℕ) (slots : List Message) (h : Lane node (opening (words_of no_intake) slots (opening_view node))) → shown_by node (opening (words_of no_intake) slots (opening_view node)) h ≡ no_intake }
    ensures parts { (node : ℕ) (s s' : LaneState) (h : Lane node s) (h' : Lane node s') → PartsSeat s s' → shown_by node s' h' ≡ shown_by node s h }
    ensures meets { (node : ℕ) (s s' : LaneState) (h : Lane node s) (h' : Lane node s') → Meets s s' → shown_by node s' h' ≡ shown_by node s h }
{}
