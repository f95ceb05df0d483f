ghost use Rattle.offer_answer.specs.Laws.{NamesDrawnKeys, RejectsWhatGoes, DropsWhatGoes, SecuresLegs, HaveLegs, HavePairsFamilies};

/// What a signal says of keys: the number that it names for a leg is that of a key which an offer of the call drew for that leg,
/// in the suite under which the leg's side sends; and since that offer no offer dropped the section and no answer rejected it.
/// So a key number never returns once its leg has gone.
pub fn signals_name_drawn_keys()
    ensures { NamesDrawnKeys }
{}

/// A signal rejects exactly the sections that have no pairs once the answer is accepted.
pub fn signals_reject_what_goes()
    ensures { RejectsWhatGoes }
{}

/// An offer drops exactly the sections that had pairs and have none once the offer is accepted.
pub fn offers_drop_what_goes()
    ensures { DropsWhatGoes }
{}

/// A leg is committed with keys for both directions where its profile is SRTP, and for none where it isn't: nothing is sent in
/// the clear to a side that agreed on SRTP (RFC 3711). This is said of rounds as they come about, without a fault and with the
/// keys drawn that the offers demanded.
pub fn signals_secure_legs()
    ensures { SecuresLegs }
{}

/// A section that has pairs has one for each of its two legs.
pub fn sections_have_both_legs()
    ensures { HaveLegs }
{}

/// A leg has the family of its pair, where each offer leased pairs of the families that it demanded. So the address that stands beside a
/// port in a description is the one of the interface at which the port is.
pub fn legs_have_their_pairs_families()
    ensures { HavePairsFamilies }
{}
