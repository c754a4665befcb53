//! Laws on lists of inputs: functions that do nothing, whose contracts speak of definitions alone.
ghost use Rattle.std.specs.Prelude.{◌≡◌, ◌⊎◌, ℕ, ◌-◌, ◌^◌, ◌<◌, ◌≤◌, List, [], ◌∷◌, ◌++◌, filter, length, map, min, slice_get, take, Option, Some, None, Ok, Err, All, IsTrue, true, false};
ghost use Rattle.std.specs.List.{AllByRecursion, list_any};
ghost use Rattle.std.specs.Option.{option_and_then};
ghost use Rattle.spk_payload.specs.declared.values.Values.TheVariants as choice;
ghost use Rattle.spk_payload.specs.Meaning.{MeansPayload, PayloadData};
ghost use Rattle.spk_payload.specs.Reading.{payload_at};
ghost use Rattle.spk_payload.specs.Spelling.{spelling};
ghost use Rattle.spk_payload.specs.Typing.{Typed};
ghost use Rattle.spk_packets.specs.Grammar.{Spells};
ghost use Rattle.spk_packets.specs.Message as packets;
ghost use Rattle.spk_topics.specs.Spark.{has_names, topic_of};
ghost use Rattle.spk_topics.specs.declared.spark.Verb.TheVariants.{Data};
ghost use Rattle.spk_sequence.specs.NodeRecord as sequence;
ghost use Rattle.spk_store.specs.Kept as kept;
ghost use Rattle.spk_device.specs.Book.{Book, DeviceData};
ghost use Rattle.spk_device.specs.Values.{is_written};
ghost use Rattle.spk_edge_rules.specs.declared.fault.EdgeFault.{EdgeFault};
ghost use Rattle.spk_edge_rules.specs.declared.fault.EdgeFault.TheVariants.{TooLarge};
ghost use Rattle.spk_edge_rules.specs.declared.phase.Phase.TheVariants.{Born};
ghost use Rattle.spk_edge_rules.specs.Answers.{Answer};
ghost use Rattle.spk_edge_rules.specs.Births.{later_stamp, owner_is_up};
ghost use Rattle.spk_edge_rules.specs.Claims.{AreNumbered, AreWholeBirths, HasNames, IsAlive, IsUnreserved, IsWhole, Joined, ListsWhatIs, SaysSession, SaysSessionOnce, SendsLongest, TakesSome, is_disconnect, is_numbered, link_of, numbers_at, numbers_from, payload_in, topic_in};
ghost use Rattle.spk_edge_rules.specs.Commands.{command_of, orders_in, target_of};
ghost use Rattle.spk_edge_rules.specs.Config.{Config, Setup};
ghost use Rattle.spk_edge_rules.specs.History.{can_go, front_run, history};
ghost use Rattle.spk_edge_rules.specs.Inputs.{ChangeData, Changes, Drain, Input, Open, Stop};
ghost use Rattle.spk_edge_rules.specs.Later.{all_historical, historical_in, said_later};
ghost use Rattle.spk_edge_rules.specs.Messages.{Draft, is_birth, named_by, opens, payload_of, wire};
ghost use Rattle.spk_edge_rules.specs.Packets.{connect_of, death_payload, farewell, will_of};
ghost use Rattle.spk_edge_rules.specs.Run.{Message, asked_of, births_in, book_of, calls_of, kept_of, next_number, number_at, opened, opened_at, outline, phase_of, published, record_of, right_at, run_of, session_number, stamp_of};
ghost use Rattle.spk_edge_rules.specs.Rules.{Asked, Given, rules};
ghost use Rattle.spk_edge_rules.specs.Several.{AreTaken, book_behind, messages_of, told_in};
ghost use Rattle.spk_edge_rules.specs.Step.{Standing, answer_at, book_after, record_at, standing_of};

/// For every node and every list of inputs, newest first, whatever the node begins with.
pub fn any_list()
    // stepping the data answers as the rules ask of the list: each message under the number of its position
    ensures same_steps { (s : Setup) (is : List Input) (i : Input)
        → answer_at s.config (standing_of s is) i ≡ right_at s (run_of s is) i }

    // and what the rules look at is what was set, kept, heard, opened and published so far
    ensures standing { (s : Setup) (is : List Input)
        → (standing_of s is).asked ≡ asked_of s (run_of s is) }

    // a node that runs after it goes on behind its last message, its last session and its last stamp
    ensures goes_on { (s : Setup) (is : List Input)
        → record_at s.config (standing_of s is) ≡ record_of s (run_of s is) }

    // a refused input uses no number, publishes nothing, and leaves the data as they were
    ensures refused { (s : Setup) (is : List Input) (i : Input) (fault : EdgeFault)
        → right_at s (run_of s is) i ≡ Err fault
        → (run_of s (i ∷ is) ≡ run_of s is) × (standing_of s (i ∷ is) ≡ standing_of s is) }

    // what was published is a node record: births one by one, sessions and stamps that never fall, and each NBIRTH newer
    // than all before it
    ensures record { (s : Setup) (is : List Input)
        → sequence.IsNodeRecord (outline (published (run_of s is))) }

    // a birth begins exactly where the message is an NBIRTH
    ensures openings { (s : Setup) (is : List Input) (p : ℕ) (m : Message)
        → slice_get (published (run_of s is)) p ≡ Some m
        → sequence.opens (outline (published (run_of s is))) p ≡ opens m.draft }

    // each NBIRTH begins with the bdSeq of its session
    ensures sessions { (s : Setup) (is : List Input)
        → AllByRecursion (SaysSession s) (published (run_of s is)) }

    // a birth lists the metrics of its owner in order of adding, with the values last set
    ensures births { (s : Setup) (is : List Input) (i : Input) (answer : Answer)
        → right_at s (run_of s is) i ≡ Ok answer
        → AllByRecursion
        (ListsWhatIs (book_of s (run_of s is)) (session_number s (opened (run_of s is) - 1)))
        answer.given.drafts }

    // an NBIRTH is followed by a DBIRTH for each device that is up, in order of adding, and by nothing else
    ensures whole_births { (s : Setup) (is : List Input) (i : Input) (answer : Answer)
        → right_at s (run_of s is) i ≡ Ok answer
        → AreWholeBirths (book_of s (run_of s is)) (session_number s (opened (run_of s is) - 1))
        answer.given.drafts }

    // a numbered message is given only between an accepted open and the next stop, cut or closing
    ensures joined { (s : Setup) (is : List Input) (i : Input) (answer : Answer)
        → right_at s (run_of s is) i ≡ Ok answer → 0 < length answer.given.drafts
        → link_of (run_of s (i ∷ is)) ≡ Joined }

    // no more changes are dropped than are kept, and lost are those overwritten or dropped for a device that is down
    ensures kept { (s : Setup) (is : List Input)
        → kept.IsLawful s.capacity (calls_of (run_of s is)) }
    ensures lost { (s : Setup) (is : List Input)
        → (standing_of s is).asked.store.lost
        ≡ min (kept.lost_of s.capacity (calls_of (run_of s is))) (2 ^ 64 - 1) }
{}

/// Of each message that a node published, whatever the node begins with and for every list of inputs, newest first.
pub fn published()
    // it is an NBIRTH, NDATA, DBIRTH, DDATA or DDEATH
    ensures kinds { (s : Setup) (is : List Input) (p : ℕ) (m : Message)
        → slice_get (published (run_of s is)) p ≡ Some m → is_numbered m.draft ≡ true }

    // its stamp is a moment
    ensures stamps { (s : Setup) (is : List Input) (p : ℕ) (m : Message)
        → slice_get (published (run_of s is)) p ≡ Some m → m.draft.stamp < 2 ^ 63 }

    // it stays where it stands, whatever comes later
    ensures grows { (s : Setup) (later is : List Input)
        → (more : List Message)
        × (published (run_of s (later ++ is)) ≡ published (run_of s is) ++ more) }

    // its number is a byte
    ensures numbers { (s : Setup) (is : List Input) (p : ℕ)
        → number_at s (published (run_of s is)) p < 256 }

    // it was sent under the number of its position, which the node's data counted on to
    ensures sent { (s : Setup) (is : List Input) (i : Input) (answer : Answer)
        → right_at s (run_of s is) i ≡ Ok answer
        → numbers_from s.config (standing_of s is).seq answer.given.drafts
        ≡ numbers_at s (published (run_of s (i ∷ is))) (length (published (run_of s is)))
        answer.given.drafts }

    // its topic has names, if those of the node and of its registry's devices can stand in one
    ensures names { (s : Setup) (is : List Input) (p : ℕ) (m : Message) → HasNames s
        → slice_get (published (run_of s is)) p ≡ Some m
        → IsTrue (has_names (named_by s.config m.draft)) }

    // an NBIRTH says the bdSeq of its session once, if no metric of the registry is named so
    ensures one_session { (s : Setup) (is : List Input) (p : ℕ) (m : Message) → IsUnreserved s
        → slice_get (published (run_of s is)) p ≡ Some m → SaysSessionOnce s m }

    // Data and DDEATH of a device stand only where it is born: behind its DBIRTH, which stands in the same session and behind
    // the same NBIRTH, and before its DDEATH. A device that is up, of a node whose births were given, is born.
    ensures devices { (s : Setup) (is : List Input) (p : ℕ) (m : Message) (name : List ℕ)
        → slice_get (published (run_of s is)) p ≡ Some m → m.draft.device ≡ Some name
        → is_birth m.draft.verb ≡ false
        → IsAlive name m.birth m.session (take p (published (run_of s is))) }
    ensures up { (s : Setup) (is : List Input) (n : ℕ) (d : DeviceData)
        → phase_of (run_of s is) ≡ Born → slice_get (book_of s (run_of s is)).devices n ≡ Some d
        → d.up ≡ true
        → IsAlive d.name (births_in (published (run_of s is)) - 1) (opened (run_of s is) - 1)
        (published (run_of s is)) }

    // and one that isn't up is not, if no two devices of the registry have one name: so its DDEATH is given when it goes down
    ensures down { (s : Setup) (is : List Input) (n : ℕ) (d : DeviceData) → AreNumbered s.book
        → phase_of (run_of s is) ≡ Born → slice_get (book_of s (run_of s is)).devices n ≡ Some d
        → d.up ≡ false
        → IsAlive d.name (births_in (published (run_of s is)) - 1) (opened (run_of s is) - 1)
        (published (run_of s is)) → ⊥ }

    // what is done is done at a moment, and so was the last Open
    ensures moments { (s : Setup) (is : List Input) (i : Input) (answer : Answer)
        → right_at s (run_of s is) i ≡ Ok answer → i.now < 2 ^ 63 }
    ensures opened_at { (s : Setup) (is : List Input) → opened_at (run_of s is) < 2 ^ 63 }
{
    spk_sequence::laws::records();
}

/// Of each Drain, whatever the node begins with and for every list of inputs, newest first.
pub fn drains()
    // it is never refused with TooLarge, whatever the data are, where nothing acknowledges it
    ensures never { (c : Config) (st : Standing) (i : Input) → i.act ≡ Drain → i.ack ≡ None
        → answer_at c st i ≡ Err TooLarge → ⊥ }
    ensures never_along { (s : Setup) (is : List Input) (i : Input) → i.act ≡ Drain → i.ack ≡ None
        → right_at s (run_of s is) i ≡ Err TooLarge → ⊥ }

    // one that is done takes at least one of the changes kept, and 32 at the most
    ensures takes { (s : Setup) (is : List Input) (i : Input) (answer : Answer) → i.act ≡ Drain
        → right_at s (run_of s is) i ≡ Ok answer
        → 0 < length (kept_of s (run_of s is)).items
        → TakesSome (kept_of s (run_of s is)).items (kept_of s (run_of s (i ∷ is))).items }

    // what it sends of an owner that is up is the longest front of the front run that can be written
    ensures longest { (s : Setup) (is : List Input) (i : Input) (answer : Answer) (x : ChangeData)
        (xs : List ChangeData) → i.act ≡ Drain → right_at s (run_of s is) i ≡ Ok answer
        → (kept_of s (run_of s is)).items ≡ x ∷ xs
        → owner_is_up (book_of s (run_of s is)) x.owner ≡ true
        → SendsLongest s.config (next_number s (run_of s is)) (book_of s (run_of s is)) x.owner
        (later_stamp (stamp_of s (run_of s is)) i.now) (x ∷ xs) answer.given }

    // so a front run that can be written goes whole
    ensures whole { (s : Setup) (is : List Input) (i : Input) (answer : Answer) (x : ChangeData)
        (xs : List ChangeData) → i.act ≡ Drain → right_at s (run_of s is) i ≡ Ok answer
        → (kept_of s (run_of s is)).items ≡ x ∷ xs
        → owner_is_up (book_of s (run_of s is)) x.owner ≡ true
        → can_go s.config (next_number s (run_of s is)) (book_of s (run_of s is)) x.owner
        (later_stamp (stamp_of s (run_of s is)) i.now) (x ∷ xs) (front_run (x ∷ xs)) ≡ true
        → answer.given.drafts
        ≡ history (book_of s (run_of s is)) x.owner (later_stamp (stamp_of s (run_of s is)) i.now)
        (x ∷ xs) (front_run (x ∷ xs)) ∷ [] }
{}

/// Of kept changes, whatever the node begins with and for every list of inputs, newest first.
pub fn history()
    // the historical metrics of all that was published are, in order, the changes that left the store as sent, each under its
    // owner's topic, by its alias, with the time at which it came and its value
    ensures sent { (s : Setup) (is : List Input)
        → all_historical (published (run_of s is))
        ≡ map (said_later s.book) (kept.sent_of s.capacity (calls_of (run_of s is))) }

    // and each change that was pushed has left, sent or lost, or is kept, in order; as many are lost as are counted
    ensures fates { (s : Setup) (is : List Input)
        → map (λ e. e.0) (kept.left_of s.capacity (calls_of (run_of s is)))
        ++ kept.kept_of s.capacity (calls_of (run_of s is)) ≡ kept.pushed (calls_of (run_of s is)) }
    ensures counted { (s : Setup) (is : List Input)
        → kept.lost_of s.capacity (calls_of (run_of s is))
        ≡ length (filter (λ e. e.1) (kept.left_of s.capacity (calls_of (run_of s is)))) }

    // no message has more than 32 of them, and only data has any
    ensures few { (s : Setup) (is : List Input) (p : ℕ) (m : Message)
        → slice_get (published (run_of s is)) p ≡ Some m → length (historical_in m.draft) ≤ 32 }
    ensures data { (s : Setup) (is : List Input) (p : ℕ) (m : Message)
        → slice_get (published (run_of s is)) p ≡ Some m → 0 < length (historical_in m.draft)
        → m.draft.verb ≡ Data }
{}

/// Of several changes at once, whatever the rules look at: they come to what they come to one after the other.
pub fn several()
    // none of them would be refused alone, each behind those before it
    ensures taken { (c : Config) (number : ℕ) (a : Asked) (now : ℕ) (ack : Option ℕ)
        (changes : List (ℕ × Option Typed)) (g : Given)
        → rules c number a (record { now = now; ack = ack; act = Changes changes }) ≡ Ok g
        → AreTaken c a now changes }

    // they give one message at most
    ensures one { (c : Config) (number : ℕ) (a : Asked) (now : ℕ) (ack : Option ℕ)
        (changes : List (ℕ × Option Typed)) (g : Given)
        → rules c number a (record { now = now; ack = ack; act = Changes changes }) ≡ Ok g
        → (g.drafts ≡ []) ⊎ ((d : Draft) × (g.drafts ≡ d ∷ [])) }

    // whose metrics are, in order, those that each of them would have in a message of its own, of the same owner and with the
    // same stamp
    ensures metrics { (c : Config) (number : ℕ) (a : Asked) (now : ℕ) (ack : Option ℕ)
        (changes : List (ℕ × Option Typed)) (g : Given)
        → rules c number a (record { now = now; ack = ack; act = Changes changes }) ≡ Ok g
        → told_in g.drafts ≡ told_in (messages_of c a now changes) }

    // and the registry behind them is the one behind the last of these
    ensures values { (c : Config) (a : Asked) (now : ℕ) (changes : List (ℕ × Option Typed))
        → book_after a.book (Changes changes) ≡ book_behind c a now changes }
{}

/// Of each message's bytes: whoever reads them by the grammar reads that message and nothing else.
pub fn messages()
    // bytes that spell the packet of a message spell that packet alone, whatever follows them
    ensures alone { (c : Config) (number : ℕ) (d : Draft) (bytes other x y : List ℕ)
        (p : packets.Message) → IsWhole bytes c number d → Spells other p
        → bytes ++ x ≡ other ++ y → (bytes ≡ other) × (p ≡ wire c number d) }

    // its payload means these metrics, under that number and that stamp, and nothing else
    ensures means { (c : Config) (number : ℕ) (d : Draft) (bytes : List ℕ)
        → IsWhole bytes c number d
        → MeansPayload choice.All (spelling (payload_of number d)) (payload_of number d) }
    ensures read { (c : Config) (number : ℕ) (d : Draft) (bytes : List ℕ) (p : packets.Message)
        (q : PayloadData) → IsWhole bytes c number d → Spells bytes p
        → MeansPayload choice.All (payload_in p) q
        → (topic_in p ≡ topic_of (named_by c d))
        × (q.seq ≡ Some number) × (q.timestamp ≡ Some d.stamp) × (q.metrics ≡ d.metrics) }

    // an Open gives the CONNECT of the next session
    ensures opens { (s : Setup) (is : List Input) (i : Input) (answer : Answer) → i.act ≡ Open
        → i.ack ≡ None → right_at s (run_of s is) i ≡ Ok answer
        → answer.packets
        ≡ connect_of s.config (session_number s (opened (run_of s is))) i.now ∷ [] }

    // whose will is an NDEATH of the node that means the bdSeq of that session, and nothing else
    ensures will { (c : Config) (bd time : ℕ) (q : PayloadData) → bd < 256 → time < 2 ^ 63
        → MeansPayload choice.All (will_of c bd time).message (death_payload bd time)
        × (MeansPayload choice.All (will_of c bd time).message q → q ≡ death_payload bd time) }

    // a Stop gives the NDEATH of the session that it ends, with that session's bdSeq, and DISCONNECT; and no DISCONNECT is
    // given in any other way
    ensures ends { (s : Setup) (is : List Input) (i : Input) (answer : Answer) → i.act ≡ Stop
        → i.ack ≡ None → right_at s (run_of s is) i ≡ Ok answer
        → answer.packets
        ≡ farewell s.config (session_number s (opened (run_of s is) - 1))
        (opened_at (run_of s is)) }
    ensures disconnects { (s : Setup) (is : List Input) (i : Input) (answer : Answer)
        → right_at s (run_of s is) i ≡ Ok answer → list_any is_disconnect answer.packets ≡ true
        → (front : List packets.Message)
        × (answer.packets
        ≡ front ++ farewell s.config (session_number s (opened (run_of s is) - 1))
        (opened_at (run_of s is))) }

    // messages of different nodes have different topics
    ensures topics { (b c : Config) (d e : Draft) → IsTrue (has_names (named_by b d))
        → IsTrue (has_names (named_by c e)) → topic_of (named_by b d) ≡ topic_of (named_by c e)
        → (b.group ≡ c.group) × (b.node ≡ c.node) }
{
    spk_payload::laws::canonical();
    spk_packets::laws::prefix_free();
    spk_topics::laws::one_topic();
}

/// Of a node whose registry has whole values alone, as `spk_device::laws::from_any` says of one by `Values::Whole`.
pub fn whole_values()
    // what it does of a command is the same whether floats and doubles are read or not
    ensures { (c : Config) (b : Book) (topic payload : List ℕ)
        → All (λ g. is_written choice.Whole g.datatype ≡ true) b.gauges
        → command_of c b topic payload
        ≡ option_and_then (λ target. orders_in b target (payload_at choice.Whole payload))
        (target_of c topic) }
{
    spk_payload::laws::choices();
}
