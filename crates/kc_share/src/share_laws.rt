//! Laws of shares and their entries. Each is the contract of a function that does nothing.
ghost use Rattle.kc_share.specs.Laws.{AddsUp, SameInSomeOrder, AmongIsThere};

/// What a sheet's rule means in numbers: the words and the entries that were booked into a stripe are those kept for
/// it, and each batch was booked as often as it is kept.
pub fn sheets_add_up()
    ensures { AddsUp }
{}

/// Lists with the same entries, each as often, are permutations of each other: so what a whole share booked into a
/// stripe is the stripe's journal, reordered.
pub fn same_in_some_order()
    ensures { SameInSomeOrder }
{}

/// The entries of a list that is among another one are in that one: so what a share booked is in the journal.
pub fn among_is_there()
    ensures { AmongIsThere }
{}
