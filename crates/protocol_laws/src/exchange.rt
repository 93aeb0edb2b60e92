//! Neighbours in the order that may be exchanged, and the copy of the data before a transaction of the order.

ghost use Rattle.std.specs.Prelude.{◌≡◌, true, false, List, ◌∷◌, ◌++◌, Some};
ghost use Rattle.tcs_terms.specs.declared.ids.TxId.{TxId};
ghost use Rattle.tcs_terms.specs.declared.inputs.Note.{Note};
ghost use Rattle.tcs_terms.specs.declared.payloads.ReadPart.{ReadPart};
ghost use Rattle.tcs_terms.specs.Payloads.{Accesses, IsPayload};
ghost use Rattle.tcs_laws.specs.Certification.{Tests};
ghost use Rattle.tcs_laws.specs.Laws.{IsLawful};
ghost use Rattle.cert_commute.specs.Commute.{commute, writes_truly_seen};
ghost use Rattle.protocol.specs.CorrectHistory.{is_legal};
ghost use Rattle.protocol.specs.History.{order_of, payload_in, payloads_of};
ghost use Rattle.protocol.specs.Invariant.Time.{StandsIn};
ghost use Rattle.protocol.specs.OneCopy.{is_one_copy};
ghost use Rattle.protocol_laws.specs.Exchange.{may_commit, Finds, OnlyAdds};

/// The payloads of a legal history may commit in its order.
pub fn order_may_commit()
    ensures { (tests : Tests) (history : List Note) → is_legal tests history ≡ true → may_commit tests (payloads_of history (order_of history)) ≡ true }
{}

/// Two neighbours that do not conflict may be exchanged: where the second one passes the prepared test against the
/// first, by a certifier that obeys the laws.
pub fn neighbours_exchange()
    ensures { (tests : Tests) (front : List Accesses) (a b : Accesses) (back : List Accesses) → IsLawful tests → IsPayload a → IsPayload b → tests.prepared_ok b a ≡ true
        → may_commit tests (front ++ (a ∷ b ∷ back)) ≡ true → may_commit tests (front ++ (b ∷ a ∷ back)) ≡ true }
{}

/// By the rule in which additions commute, two neighbours may be exchanged where the second one writes nothing that the
/// first one truly read.
pub fn unread_exchange()
    ensures { (front : List Accesses) (a b : Accesses) (back : List Accesses) → writes_truly_seen b a ≡ false
        → may_commit commute (front ++ (a ∷ b ∷ back)) ≡ true → may_commit commute (front ++ (b ∷ a ∷ back)) ≡ true }
{}

/// So they may where each object that the second one writes and the first one reads is a counter to which both add.
pub fn additions_exchange()
    ensures { (front : List Accesses) (a b : Accesses) (back : List Accesses) → OnlyAdds b a
        → may_commit commute (front ++ (a ∷ b ∷ back)) ≡ true → may_commit commute (front ++ (b ∷ a ∷ back)) ≡ true }
{}

/// Where there is one copy of the data, each transaction of the order finds in the copy before it what it read: each
/// object that it read by name, at that version and with the value that was told.
pub fn found_before()
    ensures { (history : List Note) (txn : TxId) (payload : Accesses) (read : ReadPart) → is_one_copy history ≡ true → StandsIn txn (order_of history)
        → payload_in history txn ≡ Some payload → StandsIn read payload.reads → Finds history txn read }
{}
