ghost use Rattle.std.specs.Prelude.{◌≡◌, ◌++◌, [], List};
ghost use Rattle.relay_outside.specs.declared.settings.Config.{Config};
ghost use Rattle.turn_table.specs.declared.machine.Entry as table;
ghost use Rattle.relay_core.specs.Entries.{Entry};
ghost use Rattle.relay_core.specs.Legal.{Orderly, Legal};
ghost use Rattle.relay_core.specs.WholeCalls.{CarriesCalls};
ghost use Rattle.relay_core.specs.Safe.{BoardSafe, Safe, IsIsolated};
ghost use Rattle.relay_core.specs.Records.{Made};
ghost use Rattle.relay_core.specs.Joins.{IsLaneRows, IsSound};
ghost use Rattle.relay_core.specs.Continued.{continued, TakesLater, IsSoundAfter};

/// A legal list is safe, for every configuration and every list: every packet sent is the transform of one received packet,
/// sent once, to the opposite side's endpoint in that moment's state of the call that held the receiving port at receipt; no
/// port has two holders; no key, source and index protects two packets; a kept cookie gives its first reply and changes
/// nothing; a valid offer fails only for a named shortage.
///
/// Legality says less than one might look for: of the moment that a turn, a tick or a relay was handed, which no entry has,
/// only that moments never fall; nothing of bounds that types fix (30 bytes of a key, ports below 65,536); and an entry's
/// `board` means nothing where it isn't nested. "No other entry" is said of entries as values: that a value stands once is
/// its part on numbers.
pub fn legal_is_safe()
    ensures { (config : Config) (l : List Entry) → Legal config l → Safe config l }
{}

/// What a relay does depends on its receipt, the result of its send and the entries of its own cell since the last end of a
/// call there, and on nothing else that happens.
/// The receipt includes the number of its take. It asks for no equal moment, since what a relay does hangs on none.
pub fn cells_are_apart()
    ensures { (config : Config) → IsIsolated config }
{}

/// What an orderly list tells by itself, whatever else happens: it is what the list of the control loop's own hand is to
/// have between its turns, whatever the lanes do.
/// That no box is opened twice, or closed while shut, is no part of being orderly: it follows from the pairs being held
/// apart.
pub fn orderly_is_safe()
    ensures { (config : Config) (l : List Entry) → Orderly config l → BoardSafe config l }
{}

/// There are legal lists that do something, so that what is said of every legal list is said of something: one that carries a
/// call from its offer to its end, with a packet that is taken as plain RTP and sent as SRTP under a key that the offer drew,
/// and one that is opened and sent in the clear; then another call at the same ports, which times out; and then one that is
/// deleted with a delay, which a tick ends when it is due.
pub fn a_legal_list_exists()
    ensures { (config : Config) × (l : List Entry) × Legal config l × CarriesCalls config l }
{}

/// What is known of the main hand's list when the table is closed is known of it with the list of a lane's hand behind it, as
/// `join_hand` leaves it: so it is known whichever lanes' hands were taken in, and in which order.
/// The same is known of a list that goes on from an earlier one.
pub fn joined_lists_are_sound()
    ensures fresh { (config : Config) (rows others : List (table.Entry Made (Unit {0}))) → IsSound config rows → IsLaneRows config others → IsSound config (rows ++ others) }
    ensures continued { (config : Config) (before : List Entry) (rows others : List (table.Entry Made (Unit {0}))) → IsSoundAfter config before rows → IsLaneRows config others → IsSoundAfter config before (rows ++ others) }
{}

/// A list that goes on from nothing is that list itself, so what is said of lists that go on from any list is said of one that
/// begins with a fresh start. No relay of a list that goes on from another one is of a take of that one.
pub fn lists_go_on()
    ensures from_nothing { (config : Config) (l : List Entry) → continued config [] l ≡ l }
    ensures takes_later { (config : Config) (before l : List Entry) → TakesLater config before l }
{}
