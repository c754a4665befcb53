//! Laws of the definitions alone.
ghost use Rattle.std.specs.Prelude.{◌≡◌, ◌++◌, ◌∷◌, [], ℕ, List, Ok, map, reverse};
ghost use Rattle.std.specs.List.{filter, filter_map};
ghost use Rattle.spk_payload.specs.Meaning.{PayloadData};
ghost use Rattle.spk_payload.specs.Reading.{payload_at};
ghost use Rattle.spk_payload.specs.Spelling.{PayloadFits, spelling};
ghost use Rattle.spk_payload.specs.declared.values.Values.TheVariants as choice;
ghost use Rattle.spk_history.specs.Entry.{EntryData};
ghost use Rattle.spk_history.specs.File.{AreParts, AreRead, Begins, file_of, joined};
ghost use Rattle.spk_historian.specs.Event.{EventData};
ghost use Rattle.spk_historian.specs.Kept.{kept_payload};
ghost use Rattle.spk_historian.specs.Told.{HistorianData, Tells, consumed, entries_of, happened, is_message};

/// What is read of a history in parts: besides the names of nodes it is what was told, in order, each once.
pub fn read()
    // of whole parts, of which nothing is to be written, all that was told
    ensures whole { (h : HistorianData) (parts : List (List EntryData)) (entries read : List EntryData)
        (part : List ℕ) (es : List EventData) → AreParts parts → Tells (joined parts) entries part es h
        → h.parts.unwritten ≡ [] → AreRead (map file_of parts ++ part ∷ []) read
        → happened read ≡ reverse (entries_of es) }
    // of whole parts and a last one that was cut off at whatever byte, a front of it
    ensures torn { (h : HistorianData) (parts : List (List EntryData)) (entries read : List EntryData)
        (part front lost : List ℕ) (es : List EventData) → AreParts parts
        → Tells (joined parts) entries part es h → front ++ lost ≡ part
        → AreRead (map file_of parts ++ front ∷ []) read
        → Begins (happened read) (reverse (entries_of es)) }
{
    spk_history::laws::parts();
}

/// The entries of messages are those of the messages that were consumed, in order, each once.
pub fn messages()
    ensures { (es : List EventData) → filter is_message (entries_of es) ≡ filter_map consumed es }
{}

/// What a record keeps of a payload is read again: the payload, without the values that aren't read.
pub fn payloads()
    ensures { (p : PayloadData) → PayloadFits (kept_payload p)
        → payload_at choice.All (spelling p) ≡ Ok (kept_payload p) }
{
    spk_payload::laws::canonical();
    spk_payload::laws::reading();
}
