//! The law that relates a gathered tally to the reads, as the contract of a function that does nothing.
ghost use Rattle.kc_gather.specs.Laws.{TallyOfCutting};

/// The tally of the batches of a cutting of cleaned reads is the tally of the reads. With it, a caller of
/// `kc_gather::gather` knows the tally of the reads whose cutting was counted.
pub fn tally_of_cutting()
    ensures { TallyOfCutting }
{}
