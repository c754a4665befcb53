//! Laws of the definitions alone: functions that do nothing, whose contracts speak of definitions.
ghost use Rattle.std.specs.Prelude.{◌≡◌, ℕ, List, Some, filter, map, slice_get};
ghost use Rattle.spk_history.specs.Entry.{EntryData};
ghost use Rattle.spk_history.specs.File.{AreParts, file_of, joined};
ghost use Rattle.spk_history_rows.specs.History.{AreRowsOf, entry_of, is_message, rows_of};
ghost use Rattle.spk_history_rows.specs.Row.{RowData};

/// The rows of parts.
pub fn rows()
    // are those of their entries, in order, each once
    ensures each { (parts : List (List EntryData)) → map entry_of (rows_of parts) ≡ joined parts }
    // and each tells its place
    ensures placed { (parts : List (List EntryData)) (k : ℕ) (row : RowData)
        → slice_get (rows_of parts) k ≡ Some row → row.place ≡ k }
{}

/// The rows of the files of whole parts: the message rows are exactly the messages that were put, in order, each once.
pub fn whole()
    ensures each { (parts : List (List EntryData)) (rows : List RowData) → AreParts parts
        → AreRowsOf (map file_of parts) rows → map entry_of rows ≡ joined parts }
    ensures messages { (parts : List (List EntryData)) (rows : List RowData) → AreParts parts
        → AreRowsOf (map file_of parts) rows
        → filter is_message (map entry_of rows) ≡ filter is_message (joined parts) }
{
    spk_history::laws::parts();
}
