use ng_bencode::Text;
use relay_outside::{Family, Flags, Ip};
use sdp_text::Proto;

/// A command of the ng protocol.
#[derive(Drop)]
pub enum Command {
    /// Answered `pong`.
    Ping,
    /// Opens a call, or changes an open one.
    Offer(OfferIn),
    /// Answers the last offer.
    Answer(AnswerIn),
    /// Ends a call.
    Delete(DeleteIn),
    /// Asks for the report of a call.
    Query(QueryIn),
    /// Asks for at most this many of the live calls, 200 at most.
    List(u32),
}

/// An offer.
#[derive(Drop)]
pub struct OfferIn {
    /// The call, 1 to 255 bytes.
    pub call_id: Text,
    /// The offerer, 1 to 255 bytes.
    pub from_tag: Text,
    /// The offerer's description.
    pub sdp: Text,
    /// How it is to be served.
    pub options: Options,
}

/// An answer.
#[derive(Drop)]
pub struct AnswerIn {
    /// The call, 1 to 255 bytes.
    pub call_id: Text,
    /// The offerer, 1 to 255 bytes.
    pub from_tag: Text,
    /// The answerer, 1 to 255 bytes.
    pub to_tag: Text,
    /// The answerer's description.
    pub sdp: Text,
    /// How it is to be served. An answer asks for no protocol, for no family and for nothing under `rtcp-mux`.
    pub options: Options,
}

/// A delete.
#[derive(Drop)]
pub struct DeleteIn {
    /// The call, 1 to 255 bytes.
    pub call_id: Text,
    /// The side that deletes, 1 to 255 bytes, where it is given.
    pub from_tag: Option<Text>,
    /// Whether an unknown call or side is an error, and no warning.
    pub fatal: bool,
    /// After how many seconds the call is to end, 0 to 86,400; 0 where nothing is said.
    pub delay_s: u32,
}

/// A query.
#[derive(Drop)]
pub struct QueryIn {
    /// The call, 1 to 255 bytes.
    pub call_id: Text,
}

/// How an offer or an answer is to be served.
#[derive(Clone, Copy, Debug, PartialEq, Eq)]
pub struct Options {
    /// Whose packets are taken, and where packets go.
    pub flags: Flags,
    /// Whether the address of the origin line is replaced.
    pub replace_origin: bool,
    /// Whether the connection line of the session is replaced.
    pub replace_session: bool,
    /// The protocol that the other side is offered, where it is to be another.
    pub transport: Option<Proto>,
    /// The address that is signalled in place of the description's.
    pub source: Option<Ip>,
    /// The family that the offer asks for on the leg of the other side (`address family`), in an offer alone.
    pub family: Option<Family>,
    /// Whether the other side is to be offered RTP and RTCP on one port (RFC 5761), also where the description does not
    /// offer it (the word `offer` of `rtcp-mux`, in an offer alone).
    pub mux_offer: bool,
    /// Whether the other side is never to be offered it, while this side has it where its description offers it (the word
    /// `demux` of `rtcp-mux`, in an offer alone).
    pub mux_demux: bool,
    /// Whether this side has it where its description offers it, also where the other side declines (the word `accept` of
    /// `rtcp-mux`, in an offer alone).
    pub mux_accept: bool,
}
