//! Laws of tickets. Each is the contract of a function that does nothing.
ghost use Rattle.std.specs.Prelude.{◌≡◌, [], ◌∷◌};
ghost use Rattle.kc_tickets.specs.Tickets.{numbers_below};
ghost use Rattle.kc_tickets.specs.Laws.{EachStandsOnce, NoneIsLeftOut, TwoKeepRule, seat_view};

/// Shows that the numbers below `n`, in whatever order, contain each of them once and no other number: what the
/// contract of `Tickets::close` states of all that was drawn or returned. It does nothing when it runs.
pub fn each_stands_once()
    ensures { EachStandsOnce }
{}

/// Shows that `n` distinct numbers below `n` are all of them: whoever knows that every number drawn was processed, and
/// counted as many as there are, knows that none is missing. It does nothing when it runs.
pub fn none_is_left_out()
    ensures { NoneIsLeftOut }
{}

/// Worked rows of the rule, for tickets with the limit 2 and two seats.
pub fn worked_rows()
    ensures numbers { numbers_below 3 ≡ 0 ∷ 1 ∷ 2 ∷ [] }
    // before any seat is split off
    ensures start { TwoKeepRule 0 (seat_view 2 [] ∷ []) }
    // the seats drew in turn: 0 and 2, 1 and 3
    ensures in_turn { TwoKeepRule 4 (seat_view 1 (0 ∷ 2 ∷ []) ∷ seat_view 1 (1 ∷ 3 ∷ []) ∷ []) }
    // the second one was joined to the first
    ensures back { TwoKeepRule 4 (seat_view 2 (0 ∷ 2 ∷ 1 ∷ 3 ∷ []) ∷ seat_view 0 [] ∷ []) }
    // no number is drawn twice, none is left out, and no seat draws on after a number at or past the limit
    ensures twice { ¬ TwoKeepRule 2 (seat_view 1 (0 ∷ []) ∷ seat_view 1 (0 ∷ []) ∷ []) }
    ensures left_out { ¬ TwoKeepRule 2 (seat_view 1 (0 ∷ []) ∷ seat_view 1 [] ∷ []) }
    ensures drew_on { ¬ TwoKeepRule 4 (seat_view 1 (0 ∷ 2 ∷ 3 ∷ []) ∷ seat_view 1 (1 ∷ []) ∷ []) }
{}
