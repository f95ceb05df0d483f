use ng_bencode::Text;

/// For how many milliseconds a reply is found: it is not found any more at this distance.
const LIFETIME_MS: u64 = 60_000;

/// A reply that is kept, under the source and the cookie of the command that it answered.
#[derive(Drop)]
pub struct KeptReply {
    /// How many replies were kept before it, modulo 2^64.
    pub number: u64,
    /// The bytes of the reply.
    pub reply: Text,
    /// When the reply was kept, in milliseconds.
    pub moment: u64,
}

impl KeptReply {
    ghost use Rattle.std.specs.Prelude.{◌≡◌, ◌-◌, nat_lt};

    /// Whether it answers a command that comes at this moment.
    pub(crate) fn answers_at(&self, at: u64) -> bool
        ensures { result ≡ nat_lt (at - self.now.moment) 60000 }
    {
        at.saturating_sub(self.moment) < LIFETIME_MS
    }
}
