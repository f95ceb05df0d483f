use crate::cases::none_failed;
use ng_bencode::Text;
use ng_command::{AnswerIn, Command, CommandFault, KeyName, OfferIn, Options, read};
use relay_outside::{Family, Flags, Ip};
use sdp_text::Proto;
use std::alloc::Global;

/// The fault with which a body is refused.
fn fault_of(alloc: Global, body: &[u8]) -> Option<CommandFault> {
    read(alloc, body).err()
}

fn is_text(text: &Text, want: &[u8]) -> bool {
    text.as_slice() == want
}

/// Bodies that are no command, and the fault of each.
const FAULTY: &[(&[u8], CommandFault)] = &[
    (b"5", CommandFault::Malformed),
    (b"i5e", CommandFault::Malformed),
    (b"le", CommandFault::Malformed),
    (b"d7:command4:ping", CommandFault::Malformed),
    (b"d7:command4:pingex", CommandFault::Malformed),
    (b"", CommandFault::Malformed),
    (b"de", CommandFault::NoCommand),
    (b"d7:commandi1ee", CommandFault::NoCommand),
    (b"d7:commandl4:pingee", CommandFault::NoCommand),
    (b"d3:foo4:pinge", CommandFault::NoCommand),
    (b"d7:command3:fooe", CommandFault::Unrecognized),
    (b"d7:command4:Pinge", CommandFault::Unrecognized),
    (b"d7:command0:e", CommandFault::Unrecognized),
    (
        b"d7:command5:offer8:from-tag1:a3:sdp3:v=0e",
        CommandFault::Key(KeyName::CallId),
    ),
    (
        b"d7:command5:offer7:call-id0:8:from-tag1:a3:sdp3:v=0e",
        CommandFault::Key(KeyName::CallId),
    ),
    (
        b"d7:command5:offer7:call-idi7e8:from-tag1:a3:sdp3:v=0e",
        CommandFault::Key(KeyName::CallId),
    ),
    (b"d7:command5:offere", CommandFault::Key(KeyName::CallId)),
    (b"d7:command5:querye", CommandFault::Key(KeyName::CallId)),
    (b"d7:command6:deletee", CommandFault::Key(KeyName::CallId)),
    (
        b"d7:command5:offer7:call-id2:c13:sdp3:v=0e",
        CommandFault::Key(KeyName::FromTag),
    ),
    (
        b"d7:command5:offer7:call-id2:c18:from-tag0:3:sdp3:v=0e",
        CommandFault::Key(KeyName::FromTag),
    ),
    (
        b"d7:command6:delete7:call-id2:c18:from-tag0:e",
        CommandFault::Key(KeyName::FromTag),
    ),
    (
        b"d7:command6:delete7:call-id2:c18:from-tagi1ee",
        CommandFault::Key(KeyName::FromTag),
    ),
    (
        b"d7:command6:answer7:call-id2:c18:from-tag1:a3:sdp3:v=0e",
        CommandFault::Key(KeyName::ToTag),
    ),
    (
        b"d7:command6:answer7:call-id2:c18:from-tag1:a6:to-tag0:3:sdp3:v=0e",
        CommandFault::Key(KeyName::ToTag),
    ),
    (
        b"d7:command5:offer7:call-id2:c18:from-tag1:ae",
        CommandFault::Key(KeyName::Sdp),
    ),
    (
        b"d7:command6:answer7:call-id2:c18:from-tag1:a6:to-tag1:b3:sdpl3:v=0ee",
        CommandFault::Key(KeyName::Sdp),
    ),
    (
        b"d7:command5:offer7:call-id2:c18:from-tag1:a3:sdp3:v=05:flagsi1ee",
        CommandFault::Key(KeyName::Flags),
    ),
    (
        b"d7:command6:delete7:call-id2:c15:flagsd5:fatali1eee",
        CommandFault::Key(KeyName::Flags),
    ),
    (
        b"d7:command5:offer7:call-id2:c18:from-tag1:a3:sdp3:v=07:replacei1ee",
        CommandFault::Key(KeyName::Replace),
    ),
    (
        b"d7:command5:offer7:call-id2:c18:from-tag1:a3:sdp3:v=018:transport protocol7:RTP/SAVe",
        CommandFault::Key(KeyName::TransportProtocol),
    ),
    (
        b"d7:command5:offer7:call-id2:c18:from-tag1:a3:sdp3:v=018:transport-protocoli1ee",
        CommandFault::Key(KeyName::TransportProtocol),
    ),
    (
        b"d7:command5:offer7:call-id2:c18:from-tag1:a3:sdp3:v=018:transport protocol7:UDP/TLSe",
        CommandFault::Key(KeyName::TransportProtocol),
    ),
    (
        b"d7:command5:offer7:call-id2:c18:from-tag1:a3:sdp3:v=05:flagsl18:SIP source addressee",
        CommandFault::Key(KeyName::ReceivedFrom),
    ),
    (
        b"d7:command5:offer7:call-id2:c18:from-tag1:a3:sdp3:v=05:flagsl18:SIP-source-addresse13:received froml3:IP49:300.1.1.1ee",
        CommandFault::Key(KeyName::ReceivedFrom),
    ),
    (
        b"d7:command5:offer7:call-id2:c18:from-tag1:a3:sdp3:v=05:flagsl18:SIP source addresse13:received froml3:IP67:1.2.3.4ee",
        CommandFault::Key(KeyName::ReceivedFrom),
    ),
    (
        b"d7:command6:answer7:call-id2:c18:from-tag1:a6:to-tag1:b3:sdp3:v=05:flagsl18:SIP source addresse13:received froml3:IP47:1.2.3.41:xee",
        CommandFault::Key(KeyName::ReceivedFrom),
    ),
    (
        b"d7:command6:answer7:call-id2:c18:from-tag1:a6:to-tag1:b3:sdp3:v=05:flags18:SIP source address13:received from3:IP4e",
        CommandFault::Key(KeyName::ReceivedFrom),
    ),
    (
        b"d7:command5:offer7:call-id2:c18:from-tag1:a3:sdp3:v=05:flagsl18:SIP source addresse13:received froml3:IP411:2001:db8::1ee",
        CommandFault::Key(KeyName::ReceivedFrom),
    ),
    (
        b"d7:command6:answer7:call-id2:c18:from-tag1:a6:to-tag1:b3:sdp3:v=05:flagsl18:SIP source addresse13:received froml3:IP43:::1ee",
        CommandFault::Key(KeyName::ReceivedFrom),
    ),
    (
        b"d7:command6:answer7:call-id2:c18:from-tag1:a6:to-tag1:b3:sdp3:v=05:flagsl18:SIP source addresse13:received froml3:IP69:192.0.2.1ee",
        CommandFault::Key(KeyName::ReceivedFrom),
    ),
    (
        b"d7:command5:offer7:call-id2:c18:from-tag1:a3:sdp3:v=05:flagsl18:SIP source addresse13:received froml3:IP616:::ffff:192.0.2.1ee",
        CommandFault::Key(KeyName::ReceivedFrom),
    ),
    (
        b"d7:command5:offer7:call-id2:c18:from-tag1:a3:sdp3:v=05:flagsl18:SIP source addresse13:received froml3:IP614:2001:db8::1::2ee",
        CommandFault::Key(KeyName::ReceivedFrom),
    ),
    (
        b"d7:command5:offer7:call-id2:c18:from-tag1:a3:sdp3:v=05:flagsl18:SIP source addresse13:received froml3:IP622:2001:db8:0:0:0:0:0:1:2ee",
        CommandFault::Key(KeyName::ReceivedFrom),
    ),
    (
        b"d7:command5:offer7:call-id2:c18:from-tag1:a3:sdp3:v=05:flagsl18:SIP source addresse13:received froml3:IP618:2001:db8:0:0:0:0:1ee",
        CommandFault::Key(KeyName::ReceivedFrom),
    ),
    (
        b"d7:command5:offer7:call-id2:c18:from-tag1:a3:sdp3:v=05:flagsl18:SIP source addresse13:received froml3:IP613:[2001:db8::1]ee",
        CommandFault::Key(KeyName::ReceivedFrom),
    ),
    (
        b"d7:command5:offer7:call-id2:c18:from-tag1:a3:sdp3:v=05:flagsl18:SIP source addresse13:received froml3:IP612:fe80::1%eth0ee",
        CommandFault::Key(KeyName::ReceivedFrom),
    ),
    (
        b"d7:command5:offer7:call-id2:c18:from-tag1:a3:sdp3:v=05:flagsl18:SIP source addresse13:received froml3:IP615:2001:db8::12345ee",
        CommandFault::Key(KeyName::ReceivedFrom),
    ),
    (
        b"d7:command5:offer7:call-id2:c18:from-tag1:a3:sdp3:v=05:flagsl18:SIP source addresse13:received froml3:IP645:0000:0000:0000:0000:0000:ffff:192.168.100.200ee",
        CommandFault::Key(KeyName::ReceivedFrom),
    ),
    (
        b"d7:command5:offer7:call-id2:c18:from-tag1:a3:sdp3:v=05:flagsl18:SIP source addresse13:received froml3:IP646:0000:0000:0000:0000:0000:00000000:0000000:0001ee",
        CommandFault::Key(KeyName::ReceivedFrom),
    ),
    (
        b"d7:command5:offer7:call-id2:c18:from-tag1:a3:sdp3:v=05:flagsl18:SIP source addresse13:received froml3:IP60:ee",
        CommandFault::Key(KeyName::ReceivedFrom),
    ),
    (
        b"d7:command5:offer7:call-id2:c18:from-tag1:a3:sdp3:v=05:flagsl18:SIP source addresse13:received froml3:ip63:::1ee",
        CommandFault::Key(KeyName::ReceivedFrom),
    ),
    (
        b"d7:command5:offer7:call-id2:c18:from-tag1:a3:sdp3:v=05:flagsl18:SIP source addresse13:received froml2:IP3:::1ee",
        CommandFault::Key(KeyName::ReceivedFrom),
    ),
    (
        b"d7:command5:offer7:call-id2:c18:from-tag1:a3:sdp3:v=05:flagsl18:SIP source addresse13:received froml3:IP63:::11:xee",
        CommandFault::Key(KeyName::ReceivedFrom),
    ),
    (
        b"d7:command4:list5:limiti-1ee",
        CommandFault::Key(KeyName::Limit),
    ),
    (
        b"d7:command4:list5:limit1:5e",
        CommandFault::Key(KeyName::Limit),
    ),
    (
        b"d7:call-id2:c17:command6:delete12:delete delayi-1ee",
        CommandFault::Key(KeyName::DeleteDelay),
    ),
    (
        b"d7:call-id2:c17:command6:delete12:delete delayi86401ee",
        CommandFault::Key(KeyName::DeleteDelay),
    ),
    (
        b"d7:call-id2:c17:command6:delete12:delete delay2:30e",
        CommandFault::Key(KeyName::DeleteDelay),
    ),
    (
        b"d7:call-id2:c17:command6:delete12:delete-delay1:012:delete delayi0ee",
        CommandFault::Key(KeyName::DeleteDelay),
    ),
    (
        b"d7:call-id2:c17:command6:delete12:delete delayi-1e5:flagsi1ee",
        CommandFault::Key(KeyName::Flags),
    ),
    (
        b"d7:command5:offer7:call-id2:c18:from-tag1:a3:sdp3:v=014:address family3:IP5e",
        CommandFault::Key(KeyName::AddressFamily),
    ),
    (
        b"d7:command5:offer7:call-id2:c18:from-tag1:a3:sdp3:v=014:address family0:e",
        CommandFault::Key(KeyName::AddressFamily),
    ),
    (
        b"d7:command5:offer7:call-id2:c18:from-tag1:a3:sdp3:v=014:address family3:ip4e",
        CommandFault::Key(KeyName::AddressFamily),
    ),
    (
        b"d7:command5:offer7:call-id2:c18:from-tag1:a3:sdp3:v=014:address family4:IP46e",
        CommandFault::Key(KeyName::AddressFamily),
    ),
    (
        b"d7:command5:offer7:call-id2:c18:from-tag1:a3:sdp3:v=014:address family4:IP6 e",
        CommandFault::Key(KeyName::AddressFamily),
    ),
    (
        b"d7:command5:offer7:call-id2:c18:from-tag1:a3:sdp3:v=014:address familyi6ee",
        CommandFault::Key(KeyName::AddressFamily),
    ),
    (
        b"d7:command5:offer7:call-id2:c18:from-tag1:a3:sdp3:v=014:address familyl3:IP6ee",
        CommandFault::Key(KeyName::AddressFamily),
    ),
    (
        b"d7:command5:offer7:call-id2:c18:from-tag1:a3:sdp3:v=014:address-familyd3:IP60:ee",
        CommandFault::Key(KeyName::AddressFamily),
    ),
    (
        b"d7:command5:offer7:call-id2:c18:from-tag1:a3:sdp3:v=014:address-family1:x14:address family3:IP6e",
        CommandFault::Key(KeyName::AddressFamily),
    ),
    (
        b"d7:command5:offer7:call-id2:c18:from-tag1:a3:sdp3:v=014:address family1:x18:transport protocol1:xe",
        CommandFault::Key(KeyName::TransportProtocol),
    ),
    (
        b"d7:command5:offer7:call-id2:c18:from-tag1:a3:sdp3:v=014:address family1:x5:flagsl18:SIP source addresse13:received fromi1ee",
        CommandFault::Key(KeyName::ReceivedFrom),
    ),
    (
        b"d7:command5:offer7:call-id2:c18:from-tag1:a3:sdp3:v=014:address family1:x3:ICE5:force5:codecd9:transcodeleee",
        CommandFault::Key(KeyName::AddressFamily),
    ),
    (
        b"d7:command5:offer7:call-id2:c18:from-tag1:a3:sdp3:v=014:address family3:IP63:ICE5:forcee",
        CommandFault::Unsupported(KeyName::Ice),
    ),
    (
        b"d7:command5:offer7:call-id2:c18:from-tag1:a3:sdp3:v=08:rtcp-muxi1ee",
        CommandFault::Key(KeyName::RtcpMux),
    ),
    (
        b"d7:command5:offer7:call-id2:c18:from-tag1:a3:sdp3:v=08:rtcp muxd5:offer0:ee",
        CommandFault::Key(KeyName::RtcpMux),
    ),
    (
        b"d7:command5:offer7:call-id2:c18:from-tag1:a3:sdp3:v=08:rtcp-muxi1e8:rtcp muxl5:offeree",
        CommandFault::Key(KeyName::RtcpMux),
    ),
    (
        b"d7:command5:offer7:call-id2:c18:from-tag1:a3:sdp3:v=014:address family1:x8:rtcp-muxi1ee",
        CommandFault::Key(KeyName::AddressFamily),
    ),
    (
        b"d7:command5:offer7:call-id2:c18:from-tag1:a3:sdp3:v=08:rtcp-muxi1e3:ICE5:forcee",
        CommandFault::Key(KeyName::RtcpMux),
    ),
    (
        b"d7:command5:offer7:call-id2:c18:from-tag1:a3:sdp3:v=03:ICE5:forcee",
        CommandFault::Unsupported(KeyName::Ice),
    ),
    (
        b"d7:command6:answer7:call-id2:c18:from-tag1:a6:to-tag1:b3:sdp3:v=03:ICEi1ee",
        CommandFault::Unsupported(KeyName::Ice),
    ),
    (
        b"d7:command5:offer7:call-id2:c18:from-tag1:a3:sdp3:v=04:DTLS7:passivee",
        CommandFault::Unsupported(KeyName::Dtls),
    ),
    (
        b"d7:command5:offer7:call-id2:c18:from-tag1:a3:sdp3:v=018:transport protocol17:UDP/TLS/RTP/SAVPFe",
        CommandFault::Unsupported(KeyName::TransportProtocol),
    ),
    (
        b"d7:command5:offer7:call-id2:c18:from-tag1:a3:sdp3:v=011:record call3:yese",
        CommandFault::Unsupported(KeyName::RecordCall),
    ),
    (
        b"d7:command6:answer7:call-id2:c18:from-tag1:a6:to-tag1:b3:sdp3:v=011:record-calll2:onee",
        CommandFault::Unsupported(KeyName::RecordCall),
    ),
    (
        b"d7:command5:offer7:call-id2:c18:from-tag1:a3:sdp3:v=05:codecd9:transcodel4:PCMUeee",
        CommandFault::Unsupported(KeyName::Codec),
    ),
    (
        b"d7:command5:offer7:call-id2:c18:from-tag0:5:flagsi1e3:ICE5:forcee",
        CommandFault::Key(KeyName::FromTag),
    ),
    (
        b"d7:command5:offer7:call-id2:c18:from-tag1:a3:sdp3:v=05:codecd9:transcodelee11:record call3:yes4:DTLS1:xe",
        CommandFault::Unsupported(KeyName::Dtls),
    ),
    (
        b"d7:command5:offer7:call-id2:c18:from-tag1:a3:sdp3:v=03:ICE5:force7:replacei1ee",
        CommandFault::Key(KeyName::Replace),
    ),
    (
        b"d7:command5:offer7:call-id256:xxxxxxxxxxxxxxxxxxxxxxxxxxxxxxxxxxxxxxxxxxxxxxxxxxxxxxxxxxxxxxxxxxxxxxxxxxxxxxxxxxxxxxxxxxxxxxxxxxxxxxxxxxxxxxxxxxxxxxxxxxxxxxxxxxxxxxxxxxxxxxxxxxxxxxxxxxxxxxxxxxxxxxxxxxxxxxxxxxxxxxxxxxxxxxxxxxxxxxxxxxxxxxxxxxxxxxxxxxxxxxxxxxxxxxxxxxxxxxxxxxxxxxxxxxxxxxxx8:from-tag1:a3:sdp3:v=0e",
        CommandFault::Key(KeyName::CallId),
    ),
];

fn other_fault(alloc: Global) -> Option<usize> {
    for (number, (body, fault)) in FAULTY.iter().enumerate() {
        if fault_of(alloc, body) != Some(*fault) {
            return Some(number);
        }
    }
    None
}

#[test]
fn a_body_that_is_no_command_is_told_by_its_first_fault(rt: HostRuntime) {
    none_failed(&rt, "FAULTY", other_fault(rt.alloc()));
}

/// Commands with values that they don't use.
const UNUSED: &[&[u8]] = &[
    b"d7:command4:pinge",
    b"d3:foo3:bar7:command4:pinge",
    b"d7:command4:ping7:call-idi1e3:ICE5:forcee",
    b"d7:command6:delete7:call-id2:c15:flags5:fatal3:sdpi1e7:replacei1e5:limiti-1e3:ICE5:forcee",
    b"d7:command5:query7:call-id2:c15:flagsi1ee",
    b"d7:call-id2:c17:command5:query12:delete delayi-1ee",
    b"d7:command5:offer7:call-id2:c18:from-tag1:a3:sdp3:v=03:ICE6:remove4:DTLS3:off11:record call2:no5:codecd5:stripl4:PCMUee18:transport protocol9:RTP/SAVPFe",
    b"d7:command6:answer7:call-id2:c18:from-tag1:a6:to-tag1:b3:sdp3:v=018:transport protocol16:UDP/TLS/RTP/SAVP4:DTLS7:disable11:record call3:off5:codec9:transcode5:limiti-1ee",
    b"d7:command5:offer7:call-id2:c18:from-tag1:a3:sdp3:v=05:flagsl18:SIP source address13:trust-addresse13:received fromi1ee",
    b"d7:command5:offer7:call-id2:c18:from-tag1:a3:sdp3:v=013:received fromi1ee",
    b"d7:command6:answer7:call-id2:c18:from-tag1:a6:to-tag1:b3:sdp3:v=014:address family3:IP5e",
    b"d7:command6:answer7:call-id2:c18:from-tag1:a6:to-tag1:b3:sdp3:v=014:address familyi1ee",
    b"d7:call-id2:c17:command6:delete14:address family1:xe",
    b"d7:call-id2:c17:command5:query14:address family1:xe",
    b"d7:command4:list14:address family1:xe",
    b"d7:command4:ping14:address family1:xe",
    b"d7:command6:answer7:call-id2:c18:from-tag1:a6:to-tag1:b3:sdp3:v=08:rtcp-muxi1ee",
    b"d7:call-id2:c17:command6:delete8:rtcp-muxi1ee",
    b"d7:command5:offer7:call-id2:c18:from-tag1:a3:sdp3:v=08:rtcp-muxlee",
    b"d7:command5:offer7:call-id2:c18:from-tag1:a3:sdp3:v=08:rtcp-muxli1e6:reject7:requireee",
    b"d7:command5:offer7:call-id2:c18:from-tag1:a3:sdp3:v=013:received froml3:IP67:1.2.3.4ee",
    b"d7:command5:offer7:call-id255:xxxxxxxxxxxxxxxxxxxxxxxxxxxxxxxxxxxxxxxxxxxxxxxxxxxxxxxxxxxxxxxxxxxxxxxxxxxxxxxxxxxxxxxxxxxxxxxxxxxxxxxxxxxxxxxxxxxxxxxxxxxxxxxxxxxxxxxxxxxxxxxxxxxxxxxxxxxxxxxxxxxxxxxxxxxxxxxxxxxxxxxxxxxxxxxxxxxxxxxxxxxxxxxxxxxxxxxxxxxxxxxxxxxxxxxxxxxxxxxxxxxxxxxxxxxxxxx8:from-tag1:a3:sdp3:v=0e",
];

fn refused(alloc: Global) -> Option<usize> {
    for (number, body) in UNUSED.iter().enumerate() {
        if fault_of(alloc, body).is_some() {
            return Some(number);
        }
    }
    None
}

#[test]
fn what_a_command_does_not_use_is_ignored(rt: HostRuntime) {
    none_failed(&rt, "UNUSED", refused(rt.alloc()));
}

const OFFER: &[u8] =
    b"d7:command5:offer7:call-id2:c18:from-tag1:a3:sdp3:v=05:flagsl13:strict-source18:SIP source addresse7:replace18:session connection13:received froml3:IP411:192.0.02.10e18:transport protocol8:RTP/SAVPe";

const OFFERED: Options = Options {
    flags: Flags {
        strict: true,
        handover: false,
        asymmetric: false,
    },
    replace_origin: false,
    replace_session: true,
    transport: Some(Proto::Savp),
    source: Some(Ip::V4([192, 0, 2, 10])),
    family: None,
    mux_offer: false,
    mux_demux: false,
    mux_accept: false,
};

fn has_offers_texts(offer: &OfferIn) -> bool {
    is_text(&offer.call_id, b"c1") && is_text(&offer.from_tag, b"a") && is_text(&offer.sdp, b"v=0")
}

#[test]
fn an_offer_says_its_options(rt: HostRuntime) {
    let Ok(Command::Offer(offer)) = read(rt.alloc(), OFFER) else {
        panic!(rt; "no offer");
    };
    assert!(rt; has_offers_texts(&offer));
    assert!(rt; offer.options == OFFERED);
}

const ANSWER: &[u8] =
    b"d7:command6:answer7:call-id2:c18:from-tag1:a6:to-tag1:b3:sdp3:v=05:flagsl14:media handoveri5e10:asymmetric3:fooe7:replacel6:origin18:session-connectionee";

const ANSWERED: Options = Options {
    flags: Flags {
        strict: false,
        handover: true,
        asymmetric: true,
    },
    replace_origin: true,
    replace_session: true,
    transport: None,
    source: None,
    family: None,
    mux_offer: false,
    mux_demux: false,
    mux_accept: false,
};

fn has_answers_texts(answer: &AnswerIn) -> bool {
    is_text(&answer.call_id, b"c1")
        && is_text(&answer.from_tag, b"a")
        && is_text(&answer.to_tag, b"b")
        && is_text(&answer.sdp, b"v=0")
}

#[test]
fn an_answer_says_its_options(rt: HostRuntime) {
    let Ok(Command::Answer(answer)) = read(rt.alloc(), ANSWER) else {
        panic!(rt; "no answer");
    };
    assert!(rt; has_answers_texts(&answer));
    assert!(rt; answer.options == ANSWERED);
}

/// Bodies of offers, and the family that each asks for.
const FAMILIES: &[(&[u8], Option<Family>)] = &[
    (
        b"d7:command5:offer7:call-id2:c18:from-tag1:a3:sdp3:v=0e",
        None,
    ),
    (
        b"d7:command5:offer7:call-id2:c18:from-tag1:a3:sdp3:v=014:address family3:IP4e",
        Some(Family::V4),
    ),
    (
        b"d7:command5:offer7:call-id2:c18:from-tag1:a3:sdp3:v=014:address family3:IP6e",
        Some(Family::V6),
    ),
    (
        b"d7:command5:offer7:call-id2:c18:from-tag1:a3:sdp3:v=014:address-family3:IP6e",
        Some(Family::V6),
    ),
    (
        b"d7:command5:offer7:call-id2:c18:from-tag1:a3:sdp3:v=014:address family3:IP414:address-family3:IP6e",
        Some(Family::V4),
    ),
    (
        b"d7:command5:offer7:call-id2:c18:from-tag1:a3:sdp3:v=014:Address family3:IP6e",
        None,
    ),
];

/// The family that a body asks for, where it is an offer.
fn asked_family(alloc: Global, body: &[u8]) -> Option<Option<Family>> {
    match read(alloc, body) {
        Ok(Command::Offer(offer)) => Some(offer.options.family),
        _ => None,
    }
}

fn other_family(alloc: Global) -> Option<usize> {
    for (number, (body, family)) in FAMILIES.iter().enumerate() {
        if asked_family(alloc, body) != Some(*family) {
            return Some(number);
        }
    }
    None
}

#[test]
fn an_offer_says_the_family_that_it_asks_for(rt: HostRuntime) {
    none_failed(&rt, "FAMILIES", other_family(rt.alloc()));
}

#[test]
fn an_answer_asks_for_no_family(rt: HostRuntime) {
    let body =
        b"d7:command6:answer7:call-id2:c18:from-tag1:a6:to-tag1:b3:sdp3:v=014:address family3:IP6e";
    let Ok(Command::Answer(answer)) = read(rt.alloc(), body) else {
        panic!(rt; "no answer");
    };
    assert!(rt; answer.options.family.is_none());
}

/// Bodies of offers, and whether each gives `offer`, `demux` and `accept` under `rtcp-mux`.
const MUXES: &[(&[u8], [bool; 3])] = &[
    (
        b"d7:command5:offer7:call-id2:c18:from-tag1:a3:sdp3:v=0e",
        [false, false, false],
    ),
    (
        b"d7:command5:offer7:call-id2:c18:from-tag1:a3:sdp3:v=08:rtcp-muxl5:offeree",
        [true, false, false],
    ),
    (
        b"d7:command5:offer7:call-id2:c18:from-tag1:a3:sdp3:v=08:rtcp-mux5:demuxe",
        [false, true, false],
    ),
    (
        b"d7:command5:offer7:call-id2:c18:from-tag1:a3:sdp3:v=08:rtcp muxli5e6:accept6:rejectee",
        [false, false, true],
    ),
    (
        b"d7:command5:offer7:call-id2:c18:from-tag1:a3:sdp3:v=08:rtcp-muxl5:Offer7:require6:acceptl5:demux6:demux e5:offeree",
        [true, false, true],
    ),
    (
        b"d7:command5:offer7:call-id2:c18:from-tag1:a3:sdp3:v=08:rtcp-muxl6:accept5:demux5:offere8:rtcp muxlee",
        [true, true, true],
    ),
];

/// What a body asks for under `rtcp-mux`, where it is an offer.
fn asked_mux(alloc: Global, body: &[u8]) -> Option<[bool; 3]> {
    match read(alloc, body) {
        Ok(Command::Offer(offer)) => {
            let options = offer.options;
            Some([options.mux_offer, options.mux_demux, options.mux_accept])
        }
        _ => None,
    }
}

fn other_mux(alloc: Global) -> Option<usize> {
    for (number, (body, mux)) in MUXES.iter().enumerate() {
        if asked_mux(alloc, body) != Some(*mux) {
            return Some(number);
        }
    }
    None
}

#[test]
fn an_offer_says_what_it_asks_of_rtcp_mux(rt: HostRuntime) {
    none_failed(&rt, "MUXES", other_mux(rt.alloc()));
}

#[test]
fn an_answer_asks_nothing_of_rtcp_mux(rt: HostRuntime) {
    let body =
        b"d7:command6:answer7:call-id2:c18:from-tag1:a6:to-tag1:b3:sdp3:v=08:rtcp-muxl5:offer5:demux6:acceptee";
    let Ok(Command::Answer(answer)) = read(rt.alloc(), body) else {
        panic!(rt; "no answer");
    };
    let options = answer.options;
    assert!(rt; !options.mux_offer && !options.mux_demux && !options.mux_accept);
}

/// Bodies of answers whose addresses are signalled, and the address of each.
const SOURCES: &[(&[u8], Ip)] = &[
    (
        b"d7:command6:answer7:call-id2:c18:from-tag1:a6:to-tag1:b3:sdp3:v=05:flagsl18:SIP source addresse13:received froml3:IP411:192.0.02.10ee",
        Ip::V4([192, 0, 2, 10]),
    ),
    (
        b"d7:command6:answer7:call-id2:c18:from-tag1:a6:to-tag1:b3:sdp3:v=05:flagsl18:SIP source addresse13:received froml3:IP618:2001:0DB8:0:0:1::1ee",
        Ip::V6([0x20, 1, 0xd, 0xb8, 0, 0, 0, 0, 0, 1, 0, 0, 0, 0, 0, 1]),
    ),
    (
        b"d7:command6:answer7:call-id2:c18:from-tag1:a6:to-tag1:b3:sdp3:v=05:flagsl18:SIP source addresse13:received froml3:IP621:2001:db8:0:0:0:0:0:20ee",
        Ip::V6([0x20, 1, 0xd, 0xb8, 0, 0, 0, 0, 0, 0, 0, 0, 0, 0, 0, 0x20]),
    ),
    (
        b"d7:command6:answer7:call-id2:c18:from-tag1:a6:to-tag1:b3:sdp3:v=05:flagsl18:SIP source addresse13:received froml3:IP639:FFFF:ffff:FFFF:ffff:FFFF:ffff:FFFF:fffeee",
        Ip::V6([
            255, 255, 255, 255, 255, 255, 255, 255, 255, 255, 255, 255, 255, 255, 255, 254,
        ]),
    ),
    (
        b"d7:command6:answer7:call-id2:c18:from-tag1:a6:to-tag1:b3:sdp3:v=05:flagsl18:SIP source addresse13:received froml3:IP62:::ee",
        Ip::V6([0; 16]),
    ),
];

/// The address that a body signals, where it is an answer.
fn source_of(alloc: Global, body: &[u8]) -> Option<Ip> {
    match read(alloc, body) {
        Ok(Command::Answer(answer)) => answer.options.source,
        _ => None,
    }
}

fn other_source(alloc: Global) -> Option<usize> {
    for (number, (body, source)) in SOURCES.iter().enumerate() {
        if source_of(alloc, body) != Some(*source) {
            return Some(number);
        }
    }
    None
}

#[test]
fn an_address_of_either_family_is_signalled(rt: HostRuntime) {
    none_failed(&rt, "SOURCES", other_source(rt.alloc()));
}

fn is_tag(tag: Option<&Text>, want: Option<&[u8]>) -> bool {
    match (tag, want) {
        (Some(tag), Some(want)) => is_text(tag, want),
        (None, None) => true,
        _ => false,
    }
}

/// Whether a body is a delete of `c1` by this side, and asks that an unknown call be an error.
fn is_delete(alloc: Global, body: &[u8], from_tag: Option<&[u8]>, fatal: bool) -> bool {
    let Ok(Command::Delete(delete)) = read(alloc, body) else {
        return false;
    };
    is_tag(delete.from_tag.as_ref(), from_tag)
        && delete.fatal == fatal
        && is_text(&delete.call_id, b"c1")
}

/// Bodies of deletes, and the delay of each.
const DELETES: &[(&[u8], u32)] = &[
    (b"d7:call-id2:c17:command6:deletee", 0),
    (b"d7:call-id2:c17:command6:delete12:delete delayi0ee", 0),
    (b"d7:call-id2:c17:command6:delete12:delete-delayi30ee", 30),
    (
        b"d7:call-id2:c17:command6:delete12:delete delayi86400ee",
        86_400,
    ),
    (
        b"d7:call-id2:c17:command6:delete12:delete delayi5e12:delete-delay1:0e",
        5,
    ),
];

/// The delay of a body that is a delete.
fn delay_of(alloc: Global, body: &[u8]) -> Option<u32> {
    match read(alloc, body) {
        Ok(Command::Delete(delete)) => Some(delete.delay_s),
        _ => None,
    }
}

fn other_delay(alloc: Global) -> Option<usize> {
    for (number, (body, delay)) in DELETES.iter().enumerate() {
        if delay_of(alloc, body) != Some(*delay) {
            return Some(number);
        }
    }
    None
}

/// Bodies of lists, and the limit of each.
const LISTS: &[(&[u8], u32)] = &[
    (b"d7:command4:liste", 32),
    (b"d7:command4:list5:limiti0ee", 0),
    (b"d7:command4:list5:limiti200ee", 200),
    (b"d7:command4:list5:limiti201ee", 200),
    (b"d7:command4:list5:limiti9223372036854775807ee", 200),
];

/// The limit of a body that is a list.
fn limit_of(alloc: Global, body: &[u8]) -> Option<u32> {
    match read(alloc, body) {
        Ok(Command::List(limit)) => Some(limit),
        _ => None,
    }
}

fn other_limit(alloc: Global) -> Option<usize> {
    for (number, (body, limit)) in LISTS.iter().enumerate() {
        if limit_of(alloc, body) != Some(*limit) {
            return Some(number);
        }
    }
    None
}

/// Whether a body is a query of `c1`.
fn is_query(alloc: Global, body: &[u8]) -> bool {
    match read(alloc, body) {
        Ok(Command::Query(query)) => is_text(&query.call_id, b"c1"),
        _ => false,
    }
}

#[test]
fn the_other_commands_say_what_they_ask_for(rt: HostRuntime) {
    let alloc = rt.alloc();
    assert!(rt; is_delete(alloc, b"d7:command6:delete7:call-id2:c1e", None, false));
    let fatal = b"d7:command6:delete7:call-id2:c18:from-tag1:a5:flagsl5:fatalee";
    assert!(rt; is_delete(alloc, fatal, Some(b"a"), true));
    none_failed(&rt, "DELETES", other_delay(alloc));
    none_failed(&rt, "LISTS", other_limit(alloc));
    assert!(rt; is_query(alloc, b"d7:call-id2:c17:command5:querye"));
}
