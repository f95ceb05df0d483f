ghost use Rattle.std.specs.Prelude.{◌≤◌};

use srtp_sources::{MOST_SOURCES, load_words, part_at, put_part, save_words};

/// How many packets each source has sent under one key. It can't be cloned.
#[derive(Drop)]
pub(crate) struct Counts {
    /// The SSRCs of the known sources, in the order in which they came.
    ssrcs: [u32; MOST_SOURCES],
    /// How many packets each of the same sources has sent.
    sent: [u32; MOST_SOURCES],
    /// How many sources are known.
    count: usize,
    ghost within: { count ≤ 32 },
}

/// A source as `Counts::find` found it in a table: where it stands there, if it is known. It holds until the table counts a
/// packet.
#[derive(Clone, Copy, Drop)]
pub(crate) struct Sender {
    /// The source's SSRC.
    ssrc: u32,
    /// Its place among the known sources.
    place: Option<usize>,
}

impl Counts {
    ghost use Rattle.std.specs.Prelude.{◌≡◌, ◌<◌, ◌^◌, ◌+◌, ◌==◌, List, [], ◌∷◌, ℕ, IfSome, position, slice_index, slice_set, true, take, length};
    ghost use Rattle.rtp_packet.specs.declared.head.Half.TheVariants.{Rtcp};
    ghost use Rattle.srtp_sources.specs.Notes.{Note, has_room};
    ghost use Rattle.srtcp_context.specs.OutboundPackets.{next_index};
    ghost use Rattle.srtcp_context.specs.Counts.{CountsFor, IsSenderPlaced, can_count};
    ghost use Rattle.std.specs.Prelude.{IfNone};
    ghost use Rattle.srtcp_context.specs.declared.counts.Counts.{Counts};
    ghost use Rattle.srtcp_context.specs.SavedCounts.{FitsCounts, saved_counts};

    /// A table without a source.
    pub(crate) fn new() -> Counts
        ensures { CountsFor result [] }
    {
        Counts {
            ssrcs: [0; 32],
            sent: [0; 32],
            count: 0,
        }
    }

    /// Looks a source up. The calls that take the answer look no further.
    pub(crate) fn find(&self, ssrc: u32) -> Sender
        ensures ssrc { result.ssrc ≡ ssrc }
        ensures placed { IsSenderPlaced self.now result }
    {
        let place = self.ssrcs[..self.count]
            .iter()
            .position(|known| *known == ssrc);
        Sender { ssrc, place }
    }

    // Where a source that was found stands.
    fn place(&self, sender: Sender) -> Option<usize>
        requires { IsSenderPlaced self.now sender }
        ensures first { result ≡ position (λ known. known == sender.ssrc) (take self.now.count self.now.ssrcs) }
        ensures found { IfSome result (λ place. (place < self.now.count) × (slice_index self.now.ssrcs place ≡ sender.ssrc)) }
    {
        sender.place
    }

    /// The index of the next packet of a source that was found: how many it has sent.
    pub(crate) fn next(&self, sender: Sender) -> u32
        requires { IsSenderPlaced self.now sender }
        ensures { (notes : List Note) → CountsFor self.now notes → result ≡ next_index sender.ssrc notes }
    {
        match self.place(sender) {
            Some(place) => self.sent[place],
            None => 0,
        }
    }

    /// Whether a source that was looked up is known or may still come in.
    pub(crate) fn has_room(&self, sender: Sender) -> bool
        requires { IsSenderPlaced self.now sender }
        ensures room { result ≡ can_count self.now sender.ssrc }
        ensures notes { (notes : List Note) → CountsFor self.now notes → result ≡ has_room Rtcp sender.ssrc notes }
    {
        self.count < MOST_SOURCES || self.place(sender).is_some()
    }

    /// Counts a packet of a source that was found; `next` is what that call returns.
    pub(crate) fn advance(&mut self, sender: Sender, next: u32)
        requires placed { IsSenderPlaced self.old sender }
        requires next { next < 2 ^ 31 }
        requires room { can_count self.old sender.ssrc ≡ true }
        ensures { (notes : List Note) → CountsFor self.old notes → next ≡ next_index sender.ssrc notes → CountsFor self.new (record { half = Rtcp; ssrc = sender.ssrc; index = next } ∷ notes) }
    {
        match self.place(sender) {
            Some(place) => self.set(place, next + 1),
            None => self.enter(sender.ssrc, next + 1),
        }
    }

    /// The saved form, with all that the table keeps.
    pub(crate) fn save(self) -> [u8; 257]
        ensures fits { FitsCounts self }
        ensures saved { result ≡ saved_counts self }
    {
        let mut bytes = [0; 257];
        put_part(&mut bytes, 0, &[self.count as u8]);
        put_part(&mut bytes, 1, &save_words(&self.ssrcs));
        put_part(&mut bytes, 129, &save_words(&self.sent));
        bytes
    }

    /// The table of a saved form; None where it is that of no table.
    pub(crate) fn load(bytes: &[u8; 257]) -> Option<Counts>
        ensures some { IfSome result (λ table. FitsCounts table × (saved_counts table ≡ bytes.now)) }
        ensures none { IfNone result ((table : Counts) → FitsCounts table → saved_counts table ≡ bytes.now → ⊥) }
    {
        let count = usize::from(bytes[0]);
        if count > MOST_SOURCES {
            return None;
        }
        let ssrcs = load_words(&part_at(bytes, 1));
        let sent = load_words(&part_at(bytes, 129));
        Some(Counts { ssrcs, sent, count })
    }

    // Sets the count of the source at `place`.
    fn set(&mut self, place: usize, sent: u32)
        requires { place < 32 }
        ensures ssrcs { self.new.ssrcs ≡ self.old.ssrcs }
        ensures sent { self.new.sent ≡ slice_set self.old.sent place sent }
        ensures count { self.new.count ≡ self.old.count }
    {
        self.sent[place] = sent;
    }

    // Takes in a new source with its first count.
    fn enter(&mut self, ssrc: u32, sent: u32)
        requires { self.old.count < 32 }
        ensures ssrcs { self.new.ssrcs ≡ slice_set self.old.ssrcs self.old.count ssrc }
        ensures sent { self.new.sent ≡ slice_set self.old.sent self.old.count sent }
        ensures count { self.new.count ≡ self.old.count + 1 }
    {
        self.ssrcs[self.count] = ssrc;
        self.sent[self.count] = sent;
        self.count += 1;
    }
}
