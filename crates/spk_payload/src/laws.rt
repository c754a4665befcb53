//! Laws of the definitions alone.

ghost use Rattle.std.specs.Prelude.{◌≡◌, ◌↔◌, ℕ, List, Some, Ok, Err};
ghost use Rattle.spk_payload.specs.declared.fault.PayloadFault.{PayloadFault};
ghost use Rattle.spk_payload.specs.Faults.{IsPayloadFault};
ghost use Rattle.spk_payload.specs.declared.values.Values.{Values};
ghost use Rattle.spk_payload.specs.declared.values.Values.TheVariants as choice;
ghost use Rattle.spk_payload.specs.Meaning.{Content, PayloadData, MeansPayload, whole_payload};
ghost use Rattle.spk_payload.specs.Reading.{payload_at, whole_result};
ghost use Rattle.spk_payload.specs.Typing.{Typed, TypedFits, typed_of, written_of};
ghost use Rattle.spk_payload.specs.Spelling.{spelling, PayloadFits};

/// The canonical spelling of a payload means that payload, and nothing else. So what `encode` writes, `decode_as` reads by
/// `Values::All` as what was written.
pub fn canonical()
    ensures means { (p : PayloadData) → PayloadFits p → MeansPayload choice.All (spelling p) p }
    ensures only { (p q : PayloadData) → PayloadFits p → MeansPayload choice.All (spelling p) q → q ≡ p }
{}

/// What bytes mean, or their first fault, is a function of them: what `decode_as` answers.
pub fn reading()
    ensures meaning { (values : Values) (bytes : List ℕ) (p : PayloadData)
        → (payload_at values bytes ≡ Ok p) ↔ MeansPayload values bytes p }
    ensures fault { (values : Values) (bytes : List ℕ) (f : PayloadFault)
        → (payload_at values bytes ≡ Err f) ↔ IsPayloadFault bytes f }
{}

/// No bytes mean two payloads, none have two first faults, and none that mean something have one.
pub fn one_meaning()
    ensures meaning { (values : Values) (bytes : List ℕ) (p q : PayloadData)
        → MeansPayload values bytes p → MeansPayload values bytes q → p ≡ q }
    ensures fault { (bytes : List ℕ) (f g : PayloadFault) → IsPayloadFault bytes f
        → IsPayloadFault bytes g → f ≡ g }
    ensures apart { (values : Values) (bytes : List ℕ) (p : PayloadData) (f : PayloadFault)
        → MeansPayload values bytes p
        → IsPayloadFault bytes f → ⊥ }
{}

/// To read whole values alone is to read all, and to pass over what floats and doubles are: every other value, and each fault, is the
/// same.
pub fn choices()
    ensures reading { (bytes : List ℕ) → payload_at choice.Whole bytes
        ≡ whole_result (payload_at choice.All bytes) }
    ensures meaning { (bytes : List ℕ) (p : PayloadData) → MeansPayload choice.All bytes p
        → MeansPayload choice.Whole bytes (whole_payload p) }
{}

/// What `written` gives of a value of a datatype, `typed` reads as that value.
pub fn written_again()
    ensures { (datatype : ℕ) (v : Typed) (c : Content) → TypedFits v
        → written_of datatype v ≡ Some c
        → typed_of datatype c ≡ Some v }
{}
