//! Laws of worlds. Each is the contract of a function that does nothing.

ghost use Rattle.std.specs.Prelude.{◌≡◌, List, Bool, true};
ghost use Rattle.wfs_world.specs.declared.event.Event.{Event};
ghost use Rattle.wfs_world.specs.declared.event.Event.TheVariants.{Crash};
ghost use Rattle.wfs_world.specs.Events.{MayHappen};
ghost use Rattle.wfs_world.specs.Laws.{AreReplied, Recovers, Stay};
ghost use Rattle.wfs_world.specs.Scene.{Scene};
ghost use Rattle.wfs_world.specs.Sound.{IsReached, IsSound};

/// Wherever events lead, a world that is up is sound: its history has changing requests alone, at moments that never go back; no seat has
/// seen more than there is; and the journal has what was found and the changes of the history, in order, and at most the one that was put
/// and has not entered.
pub fn whatever_happens_is_sound()
    ensures { (events : List Event) (w : Scene) → IsReached events w → w.is_up ≡ true → IsSound w }
{}

/// The answers that were seen at the ends of turns since the opening began are, in order, the replies of the history; only the reply to a
/// request that is still in turn has not been seen.
pub fn answers_are_the_replies_of_the_history()
    ensures { (events : List Event) (w : Scene) → IsReached events w → w.is_up ≡ true
        → AreReplied events w }
{}

/// What has entered the history, and so all that was answered, stays in the journal whatever happens later, in order and with none
/// skipped.
pub fn what_has_entered_stays()
    ensures { (events more : List Event) (w : Scene) → IsReached events w → w.is_up ≡ true
        → Stay w more }
{}

/// A new opening begins with what the journal's list up to the crash keeps, under the next number. The list has every change of the history
/// before the crash, and so every one that was answered, in order and with none skipped, and at most one change more.
pub fn a_new_opening_has_all_that_entered()
    ensures { (events : List Event) (w : Scene) (with_begun : Bool) → IsReached events w
        → MayHappen w (Crash with_begun) → Recovers w with_begun }
{}
