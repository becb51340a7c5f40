//! That each id is handed out once (`specs/Laws.antt`). It is the contract of a function that does nothing.
ghost use Rattle.dso_ids.specs.Laws.{BatchesDiffer, TakenInTurn};

/// An id stands in one batch alone, at one place of it; and a pool that was filled with a batch hands out its 256 ids in
/// turn, each once, and then no more.
pub fn each_id_once()
    ensures batches { BatchesDiffer }
    ensures pool { TakenInTurn }
{}
