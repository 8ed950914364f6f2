//! What the definition of a fill says after worked logs in which receivers are filled.
ghost use Rattle.test_model.specs.FillRows.{IsFillOfOnly, IsLeftOut, holds, collects};
ghost use Rattle.test_model.specs.FillRows.{leaves, holds_when_closed, two_filled};
ghost use Rattle.test_model.specs.FillRows.{collects_before_the_end, holds_until_the_end};
ghost use Rattle.test_model.specs.FillRows.{filled_with_front, wake_passed_on};

/// After each of these runs a fill is of one message, or of any if not collected before the end.
pub fn fills_are_of_what_was_handed_out()
    ensures holds { IsFillOfOnly holds 1 7 }
    ensures collects { IsFillOfOnly collects 1 7 }
    ensures leaves { IsFillOfOnly leaves 1 7 }
    ensures holds_when_closed { IsFillOfOnly holds_when_closed 1 7 }
    ensures two_filled { IsFillOfOnly two_filled 1 7 × IsFillOfOnly two_filled 2 8 }
    ensures filled_with_front { IsFillOfOnly filled_with_front 2 1 }
    ensures wake_passed_on { IsFillOfOnly wake_passed_on 2 5 }
    ensures collects_before_the_end { IsFillOfOnly collects_before_the_end 1 7 }
    ensures holds_until_the_end { IsLeftOut holds_until_the_end 1 }
{}
