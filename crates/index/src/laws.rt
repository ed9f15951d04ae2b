//! The laws of whole histories: each function's contract is a theorem.
ghost use Rattle.index.specs.Laws.{HistoryShows, HeldAlike, SearchKeeps};

/// After any history the counts and the store show exactly what the history holds.
pub fn history_shows()
    ensures { HistoryShows }
{}

/// Histories that hold the same leave the same counts and the same stated bytes.
pub fn held_alike()
    ensures { HeldAlike }
{}

/// A search changes nothing.
pub fn search_keeps()
    ensures { SearchKeeps }
{}
