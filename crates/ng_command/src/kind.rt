ghost use Rattle.std.specs.Prelude.{◌≡◌};
ghost use Rattle.ng_command.specs.Effects.{command_kind};
ghost use Rattle.ng_command.specs.Faults.{is_offer, is_answer, is_delete, is_query, is_list, has_description};

/// The six commands.
#[derive(Clone, Copy)]
pub(crate) enum Kind {
    Ping,
    Offer,
    Answer,
    Delete,
    Query,
    List,
}

/// The command of this name.
pub(crate) fn kind_of(name: &[u8]) -> Option<Kind>
    ensures { result ≡ command_kind name.now }
{
    if name == b"ping".as_slice() {
        Some(Kind::Ping)
    } else if name == b"offer".as_slice() {
        Some(Kind::Offer)
    } else if name == b"answer".as_slice() {
        Some(Kind::Answer)
    } else if name == b"delete".as_slice() {
        Some(Kind::Delete)
    } else if name == b"query".as_slice() {
        Some(Kind::Query)
    } else if name == b"list".as_slice() {
        Some(Kind::List)
    } else {
        None
    }
}

impl Kind {
    pub(crate) fn is_offer(self) -> bool
        ensures { result ≡ is_offer self }
    {
        matches!(self, Kind::Offer)
    }

    pub(crate) fn is_answer(self) -> bool
        ensures { result ≡ is_answer self }
    {
        matches!(self, Kind::Answer)
    }

    pub(crate) fn is_delete(self) -> bool
        ensures { result ≡ is_delete self }
    {
        matches!(self, Kind::Delete)
    }

    pub(crate) fn is_query(self) -> bool
        ensures { result ≡ is_query self }
    {
        matches!(self, Kind::Query)
    }

    pub(crate) fn is_list(self) -> bool
        ensures { result ≡ is_list self }
    {
        matches!(self, Kind::List)
    }

    /// Whether the command carries a description.
    pub(crate) fn is_media(self) -> bool
        ensures { result ≡ has_description self }
    {
        self.is_offer() || self.is_answer()
    }
}
