//! Descriptions as they come, and as they are to be written. The edited texts come from another
//! implementation of the rules, made for this table.

use crate::sdp_edit_tests::{Case, Keys, SectionCase};
use sdp_text::{Host, Proto};

pub(crate) const PROXY: Host = Host::V4([203, 0, 113, 1]);

pub(crate) const PROXY_IPV6: Host = Host::V6([
    0x20, 0x01, 0x0d, 0xb8, 0, 0, 0, 0, 0, 0, 0, 0, 0, 0, 0, 1,
]);

const PLAIN_AUDIO: &[u8] =
    b"v=0\r\no=alice 1 1 IN IP4 192.0.2.10\r\ns=-\r\nc=IN IP4 192.0.2.10\r\nt=0 0\r\nm=audio 6000 RTP/AVP 0 8\r\na=rtpmap:0 PCMU/8000\r\na=sendrecv\r\n";

const PLAIN_AUDIO_EDITED: &[u8] =
    b"v=0\r\no=alice 1 1 IN IP4 192.0.2.10\r\ns=-\r\nc=IN IP4 192.0.2.10\r\nt=0 0\r\nm=audio 30000 RTP/AVP 0 8\r\nc=IN IP4 203.0.113.1\r\na=rtpmap:0 PCMU/8000\r\na=sendrecv\r\n";

const PLAIN_AUDIO_SECTIONS: &[SectionCase] = &[SectionCase {
    port: 30000,
    proto: Proto::Avp,
    address: PROXY,
    mux: false,
    keys: Keys::None,
}];

const PLAIN_AUDIO_REPLACED: &[u8] =
    b"v=0\r\no=alice 1 1 IN IP4 192.0.2.10\r\ns=-\r\nc=IN IP4 192.0.2.10\r\nt=0 0\r\nm=audio 6000 RTP/AVP 0 8\r\na=rtpmap:0 PCMU/8000\r\na=sendrecv\r\n";

const PLAIN_AUDIO_REPLACED_EDITED: &[u8] =
    b"v=0\r\no=alice 1 1 IN IP4 203.0.113.1\r\ns=-\r\nc=IN IP4 203.0.113.1\r\nt=0 0\r\nm=audio 30000 RTP/AVP 0 8\r\nc=IN IP4 203.0.113.1\r\na=rtpmap:0 PCMU/8000\r\na=sendrecv\r\n";

const PLAIN_AUDIO_REPLACED_SECTIONS: &[SectionCase] = &[SectionCase {
    port: 30000,
    proto: Proto::Avp,
    address: PROXY,
    mux: false,
    keys: Keys::None,
}];

const PLAIN_AUDIO_TO_SRTP: &[u8] =
    b"v=0\r\no=alice 1 1 IN IP4 192.0.2.10\r\ns=-\r\nc=IN IP4 192.0.2.10\r\nt=0 0\r\nm=audio 6000 RTP/AVP 0 8\r\na=rtpmap:0 PCMU/8000\r\na=sendrecv\r\n";

const PLAIN_AUDIO_TO_SRTP_EDITED: &[u8] =
    b"v=0\r\no=alice 1 1 IN IP4 192.0.2.10\r\ns=-\r\nc=IN IP4 192.0.2.10\r\nt=0 0\r\nm=audio 30000 RTP/SAVP 0 8\r\nc=IN IP4 203.0.113.1\r\na=rtpmap:0 PCMU/8000\r\na=sendrecv\r\na=crypto:1 AES_CM_128_HMAC_SHA1_80 inline:AQEBAQEBAQEBAQEBAQEBAQEBAQEBAQEBAQEBAQEB\r\na=crypto:2 AES_CM_128_HMAC_SHA1_32 inline:AgICAgICAgICAgICAgICAgICAgICAgICAgICAgIC\r\n";

const PLAIN_AUDIO_TO_SRTP_SECTIONS: &[SectionCase] = &[SectionCase {
    port: 30000,
    proto: Proto::Savp,
    address: PROXY,
    mux: false,
    keys: Keys::Both,
}];

const ANSWER: &[u8] =
    b"v=0\r\no=bob 2 2 IN IP4 198.51.100.20\r\ns=-\r\nc=IN IP4 198.51.100.20\r\nt=0 0\r\nm=audio 7000 RTP/AVP 0\r\n";

const ANSWER_EDITED: &[u8] =
    b"v=0\r\no=bob 2 2 IN IP4 198.51.100.20\r\ns=-\r\nc=IN IP4 198.51.100.20\r\nt=0 0\r\nm=audio 30002 RTP/AVP 0\r\nc=IN IP4 203.0.113.1\r\n";

const ANSWER_SECTIONS: &[SectionCase] = &[SectionCase {
    port: 30002,
    proto: Proto::Avp,
    address: PROXY,
    mux: false,
    keys: Keys::None,
}];

const SRTP_ANSWER_TO_PLAIN: &[u8] =
    b"v=0\r\no=bob 2 2 IN IP4 198.51.100.20\r\ns=-\r\nc=IN IP4 198.51.100.20\r\nt=0 0\r\nm=audio 7000 RTP/SAVP 0\r\na=crypto:1 AES_CM_128_HMAC_SHA1_80 inline:4fl6DT4Bi+DWT6MsBt5BOQ7Gda1Jiv7rtpYLOqvm\r\n";

const SRTP_ANSWER_TO_PLAIN_EDITED: &[u8] =
    b"v=0\r\no=bob 2 2 IN IP4 198.51.100.20\r\ns=-\r\nc=IN IP4 198.51.100.20\r\nt=0 0\r\nm=audio 30002 RTP/AVP 0\r\nc=IN IP4 203.0.113.1\r\n";

const SRTP_ANSWER_TO_PLAIN_SECTIONS: &[SectionCase] = &[SectionCase {
    port: 30002,
    proto: Proto::Avp,
    address: PROXY,
    mux: false,
    keys: Keys::None,
}];

const AUDIO_VIDEO_FEEDBACK_KEPT: &[u8] =
    b"v=0\r\no=- 20518 0 IN IP4 198.51.100.1\r\ns=call\r\nc=IN IP4 198.51.100.1\r\nt=0 0\r\na=group:BUNDLE 0 1\r\na=msid-semantic: WMS *\r\nm=audio 49170 RTP/AVPF 111 0 101\r\na=mid:0\r\na=rtpmap:111 opus/48000/2\r\na=fmtp:111 minptime=10;useinbandfec=1\r\na=rtpmap:101 telephone-event/8000\r\na=fmtp:101 0-16\r\na=rtcp-fb:111 transport-cc\r\na=rtcp-mux\r\nm=video 51372 RTP/AVPF 96 97\r\na=mid:1\r\nb=AS:512\r\na=rtpmap:96 VP8/90000\r\na=rtcp-fb:96 nack\r\na=rtcp-fb:96 nack pli\r\na=rtcp-fb:* ccm fir\r\na=rtpmap:97 rtx/90000\r\na=fmtp:97 apt=96\r\na=rtcp-mux\r\na=rtcp-rsize\r\n";

const AUDIO_VIDEO_FEEDBACK_KEPT_EDITED: &[u8] =
    b"v=0\r\no=- 20518 0 IN IP4 198.51.100.1\r\ns=call\r\nc=IN IP4 198.51.100.1\r\nt=0 0\r\na=msid-semantic: WMS *\r\nm=audio 30000 RTP/AVPF 111 0 101\r\nc=IN IP4 203.0.113.1\r\na=mid:0\r\na=rtpmap:111 opus/48000/2\r\na=fmtp:111 minptime=10;useinbandfec=1\r\na=rtpmap:101 telephone-event/8000\r\na=fmtp:101 0-16\r\na=rtcp-fb:111 transport-cc\r\nm=video 30004 RTP/AVPF 96 97\r\nc=IN IP4 203.0.113.1\r\na=mid:1\r\nb=AS:512\r\na=rtpmap:96 VP8/90000\r\na=rtcp-fb:96 nack\r\na=rtcp-fb:96 nack pli\r\na=rtcp-fb:* ccm fir\r\na=rtpmap:97 rtx/90000\r\na=fmtp:97 apt=96\r\na=rtcp-rsize\r\n";

const AUDIO_VIDEO_FEEDBACK_KEPT_SECTIONS: &[SectionCase] = &[
    SectionCase {
        port: 30000,
        proto: Proto::Avpf,
        address: PROXY,
        mux: false,
        keys: Keys::None,
    },
    SectionCase {
        port: 30004,
        proto: Proto::Avpf,
        address: PROXY,
        mux: false,
        keys: Keys::None,
    },
];

const AUDIO_VIDEO_FEEDBACK_REMOVED: &[u8] =
    b"v=0\r\no=- 20518 0 IN IP4 198.51.100.1\r\ns=call\r\nc=IN IP4 198.51.100.1\r\nt=0 0\r\na=group:BUNDLE 0 1\r\na=msid-semantic: WMS *\r\nm=audio 49170 RTP/AVPF 111 0 101\r\na=mid:0\r\na=rtpmap:111 opus/48000/2\r\na=fmtp:111 minptime=10;useinbandfec=1\r\na=rtpmap:101 telephone-event/8000\r\na=fmtp:101 0-16\r\na=rtcp-fb:111 transport-cc\r\na=rtcp-mux\r\nm=video 51372 RTP/AVPF 96 97\r\na=mid:1\r\nb=AS:512\r\na=rtpmap:96 VP8/90000\r\na=rtcp-fb:96 nack\r\na=rtcp-fb:96 nack pli\r\na=rtcp-fb:* ccm fir\r\na=rtpmap:97 rtx/90000\r\na=fmtp:97 apt=96\r\na=rtcp-mux\r\na=rtcp-rsize\r\n";

const AUDIO_VIDEO_FEEDBACK_REMOVED_EDITED: &[u8] =
    b"v=0\r\no=- 20518 0 IN IP4 198.51.100.1\r\ns=call\r\nc=IN IP4 198.51.100.1\r\nt=0 0\r\na=msid-semantic: WMS *\r\nm=audio 30000 RTP/AVP 111 0 101\r\nc=IN IP4 203.0.113.1\r\na=mid:0\r\na=rtpmap:111 opus/48000/2\r\na=fmtp:111 minptime=10;useinbandfec=1\r\na=rtpmap:101 telephone-event/8000\r\na=fmtp:101 0-16\r\nm=video 30004 RTP/SAVP 96 97\r\nc=IN IP4 203.0.113.1\r\na=mid:1\r\nb=AS:512\r\na=rtpmap:96 VP8/90000\r\na=rtpmap:97 rtx/90000\r\na=fmtp:97 apt=96\r\na=rtcp-rsize\r\na=crypto:1 AES_CM_128_HMAC_SHA1_80 inline:AQEBAQEBAQEBAQEBAQEBAQEBAQEBAQEBAQEBAQEB\r\n";

const AUDIO_VIDEO_FEEDBACK_REMOVED_SECTIONS: &[SectionCase] = &[
    SectionCase {
        port: 30000,
        proto: Proto::Avp,
        address: PROXY,
        mux: false,
        keys: Keys::None,
    },
    SectionCase {
        port: 30004,
        proto: Proto::Savp,
        address: PROXY,
        mux: false,
        keys: Keys::One,
    },
];

const AUDIO_VIDEO_ONE_PROFILE_EACH: &[u8] =
    b"v=0\r\no=- 20518 0 IN IP4 198.51.100.1\r\ns=call\r\nc=IN IP4 198.51.100.1\r\nt=0 0\r\na=group:BUNDLE 0 1\r\na=msid-semantic: WMS *\r\nm=audio 49170 RTP/AVPF 111 0 101\r\na=mid:0\r\na=rtpmap:111 opus/48000/2\r\na=fmtp:111 minptime=10;useinbandfec=1\r\na=rtpmap:101 telephone-event/8000\r\na=fmtp:101 0-16\r\na=rtcp-fb:111 transport-cc\r\na=rtcp-mux\r\nm=video 51372 RTP/AVPF 96 97\r\na=mid:1\r\nb=AS:512\r\na=rtpmap:96 VP8/90000\r\na=rtcp-fb:96 nack\r\na=rtcp-fb:96 nack pli\r\na=rtcp-fb:* ccm fir\r\na=rtpmap:97 rtx/90000\r\na=fmtp:97 apt=96\r\na=rtcp-mux\r\na=rtcp-rsize\r\n";

const AUDIO_VIDEO_ONE_PROFILE_EACH_EDITED: &[u8] =
    b"v=0\r\no=- 20518 0 IN IP4 203.0.113.1\r\ns=call\r\nc=IN IP4 203.0.113.1\r\nt=0 0\r\na=msid-semantic: WMS *\r\nm=audio 30000 RTP/SAVPF 111 0 101\r\nc=IN IP4 203.0.113.1\r\na=mid:0\r\na=rtpmap:111 opus/48000/2\r\na=fmtp:111 minptime=10;useinbandfec=1\r\na=rtpmap:101 telephone-event/8000\r\na=fmtp:101 0-16\r\na=rtcp-fb:111 transport-cc\r\na=crypto:1 AES_CM_128_HMAC_SHA1_80 inline:AQEBAQEBAQEBAQEBAQEBAQEBAQEBAQEBAQEBAQEB\r\na=crypto:2 AES_CM_128_HMAC_SHA1_32 inline:AgICAgICAgICAgICAgICAgICAgICAgICAgICAgIC\r\nm=video 30004 RTP/AVP 96 97\r\nc=IN IP4 203.0.113.1\r\na=mid:1\r\nb=AS:512\r\na=rtpmap:96 VP8/90000\r\na=rtpmap:97 rtx/90000\r\na=fmtp:97 apt=96\r\na=rtcp-rsize\r\n";

const AUDIO_VIDEO_ONE_PROFILE_EACH_SECTIONS: &[SectionCase] = &[
    SectionCase {
        port: 30000,
        proto: Proto::Savpf,
        address: PROXY,
        mux: false,
        keys: Keys::Both,
    },
    SectionCase {
        port: 30004,
        proto: Proto::Avp,
        address: PROXY,
        mux: false,
        keys: Keys::None,
    },
];

const ICE_AND_KEYS_REMOVED: &[u8] =
    b"v=0\r\no=- 20518 0 IN IP4 198.51.100.1\r\ns=call\r\nc=IN IP4 198.51.100.1\r\nt=0 0\r\na=ice-lite\r\na=ice-options:trickle ice2\r\na=fingerprint:sha-256 4A:AD:B9:B1:3F:82:18:3B:54:02:12:DF:3E:5D:49:6B:19:E5:7C:AB\r\na=setup:actpass\r\nm=audio 10100 RTP/SAVPF 0\r\na=ice-ufrag:9uB6\r\na=ice-pwd:YH75Fviy6338Vbrhrlp8Yh\r\na=candidate:0 1 UDP 2122252543 192.0.2.4 10100 typ host\r\na=candidate:1 1 UDP 1686052607 203.0.113.141 10100 typ srflx raddr 192.0.2.4 rport 10100\r\na=remote-candidates:1 192.0.2.2 2000\r\na=end-of-candidates\r\na=crypto:1 AES_CM_128_HMAC_SHA1_80 inline:PS1uQCVeeCFCanVmcjkpPywjNWhcYD0mXXtxaVBR|2^20|1:4\r\na=crypto:2 AES_CM_128_HMAC_SHA1_32 inline:NzB4d1BINUAvLEw6UzF3WSJ+PSdFcGdUJShpX1Zj\r\na=sendrecv\r\n";

const ICE_AND_KEYS_REMOVED_EDITED: &[u8] =
    b"v=0\r\no=- 20518 0 IN IP4 198.51.100.1\r\ns=call\r\nc=IN IP4 198.51.100.1\r\nt=0 0\r\nm=audio 30000 RTP/AVP 0\r\nc=IN IP4 203.0.113.1\r\na=end-of-candidates\r\na=sendrecv\r\n";

const ICE_AND_KEYS_REMOVED_SECTIONS: &[SectionCase] = &[SectionCase {
    port: 30000,
    proto: Proto::Avp,
    address: PROXY,
    mux: false,
    keys: Keys::None,
}];

const ICE_AND_KEYS_TO_SAVPF: &[u8] =
    b"v=0\r\no=- 20518 0 IN IP4 198.51.100.1\r\ns=call\r\nc=IN IP4 198.51.100.1\r\nt=0 0\r\na=ice-lite\r\na=ice-options:trickle ice2\r\na=fingerprint:sha-256 4A:AD:B9:B1:3F:82:18:3B:54:02:12:DF:3E:5D:49:6B:19:E5:7C:AB\r\na=setup:actpass\r\nm=audio 10100 RTP/SAVPF 0\r\na=ice-ufrag:9uB6\r\na=ice-pwd:YH75Fviy6338Vbrhrlp8Yh\r\na=candidate:0 1 UDP 2122252543 192.0.2.4 10100 typ host\r\na=candidate:1 1 UDP 1686052607 203.0.113.141 10100 typ srflx raddr 192.0.2.4 rport 10100\r\na=remote-candidates:1 192.0.2.2 2000\r\na=end-of-candidates\r\na=crypto:1 AES_CM_128_HMAC_SHA1_80 inline:PS1uQCVeeCFCanVmcjkpPywjNWhcYD0mXXtxaVBR|2^20|1:4\r\na=crypto:2 AES_CM_128_HMAC_SHA1_32 inline:NzB4d1BINUAvLEw6UzF3WSJ+PSdFcGdUJShpX1Zj\r\na=sendrecv\r\n";

const ICE_AND_KEYS_TO_SAVPF_EDITED: &[u8] =
    b"v=0\r\no=- 20518 0 IN IP4 198.51.100.1\r\ns=call\r\nc=IN IP4 198.51.100.1\r\nt=0 0\r\nm=audio 30000 RTP/SAVPF 0\r\nc=IN IP4 203.0.113.1\r\na=end-of-candidates\r\na=sendrecv\r\na=crypto:1 AES_CM_128_HMAC_SHA1_80 inline:AQEBAQEBAQEBAQEBAQEBAQEBAQEBAQEBAQEBAQEB\r\na=crypto:2 AES_CM_128_HMAC_SHA1_32 inline:AgICAgICAgICAgICAgICAgICAgICAgICAgICAgIC\r\n";

const ICE_AND_KEYS_TO_SAVPF_SECTIONS: &[SectionCase] = &[SectionCase {
    port: 30000,
    proto: Proto::Savpf,
    address: PROXY,
    mux: false,
    keys: Keys::Both,
}];

const MEDIA_LEVEL_CONNECTIONS: &[u8] =
    b"v=0\r\no=- 1 1 IN IP4 192.0.2.7\r\ns=-\r\nt=0 0\r\nm=audio 6000 RTP/AVP 8\r\nc=IN IP4 192.0.2.7\r\na=ptime:20\r\nm=video 6002 RTP/AVP 31\r\nc=IN IP4 192.0.2.8\r\nc=IN IP4 192.0.2.9\r\na=sendonly\r\n";

const MEDIA_LEVEL_CONNECTIONS_EDITED: &[u8] =
    b"v=0\r\no=- 1 1 IN IP4 203.0.113.1\r\ns=-\r\nt=0 0\r\nm=audio 30000 RTP/AVP 8\r\nc=IN IP4 203.0.113.1\r\na=ptime:20\r\nm=video 30004 RTP/AVP 31\r\nc=IN IP4 203.0.113.1\r\na=sendonly\r\n";

const MEDIA_LEVEL_CONNECTIONS_SECTIONS: &[SectionCase] = &[
    SectionCase {
        port: 30000,
        proto: Proto::Avp,
        address: PROXY,
        mux: false,
        keys: Keys::None,
    },
    SectionCase {
        port: 30004,
        proto: Proto::Avp,
        address: PROXY,
        mux: false,
        keys: Keys::None,
    },
];

const SECOND_CONNECTION_OF_A_SECTION: &[u8] =
    b"v=0\r\no=- 1 1 IN IP4 192.0.2.7\r\ns=-\r\nt=0 0\r\nm=audio 6000 RTP/AVP 8\r\nc=IN IP4 192.0.2.7\r\na=ptime:20\r\nm=video 6002 RTP/AVP 31\r\nc=IN IP4 192.0.2.8\r\nc=IN IP4 192.0.2.9\r\na=sendonly\r\n";

const SECOND_CONNECTION_OF_A_SECTION_EDITED: &[u8] =
    b"v=0\r\no=- 1 1 IN IP4 192.0.2.7\r\ns=-\r\nt=0 0\r\nm=audio 30000 RTP/AVP 8\r\nc=IN IP4 203.0.113.1\r\na=ptime:20\r\nm=video 30004 RTP/AVP 31\r\nc=IN IP4 203.0.113.1\r\na=sendonly\r\n";

const SECOND_CONNECTION_OF_A_SECTION_SECTIONS: &[SectionCase] = &[
    SectionCase {
        port: 30000,
        proto: Proto::Avp,
        address: PROXY,
        mux: false,
        keys: Keys::None,
    },
    SectionCase {
        port: 30004,
        proto: Proto::Avp,
        address: PROXY,
        mux: false,
        keys: Keys::None,
    },
];

const SESSION_AND_MEDIA_CONNECTION: &[u8] =
    b"v=0\r\no=- 20518 0 IN IP4 198.51.100.1\r\ns=call\r\nc=IN IP4 198.51.100.1\r\nt=0 0\r\nm=audio 6000 RTP/AVP 0\r\na=ptime:20\r\nc=IN IP4 192.0.2.99\r\na=sendrecv\r\nm=video 6002 RTP/AVP 34\r\n";

const SESSION_AND_MEDIA_CONNECTION_EDITED: &[u8] =
    b"v=0\r\no=- 20518 0 IN IP4 198.51.100.1\r\ns=call\r\nc=IN IP4 203.0.113.1\r\nt=0 0\r\nm=audio 30000 RTP/AVP 0\r\na=ptime:20\r\nc=IN IP4 203.0.113.1\r\na=sendrecv\r\nm=video 30004 RTP/AVP 34\r\nc=IN IP4 203.0.113.1\r\n";

const SESSION_AND_MEDIA_CONNECTION_SECTIONS: &[SectionCase] = &[
    SectionCase {
        port: 30000,
        proto: Proto::Avp,
        address: PROXY,
        mux: false,
        keys: Keys::None,
    },
    SectionCase {
        port: 30004,
        proto: Proto::Avp,
        address: PROXY,
        mux: false,
        keys: Keys::None,
    },
];

const TWO_SESSION_CONNECTIONS: &[u8] =
    b"v=0\r\no=- 1 1 IN IP4 192.0.2.7\r\ns=-\r\nc=IN IP4 192.0.2.7\r\nc=IN IP4 192.0.2.8\r\nt=0 0\r\nm=audio 6000 RTP/AVP 8\r\n";

const TWO_SESSION_CONNECTIONS_EDITED: &[u8] =
    b"v=0\r\no=- 1 1 IN IP4 192.0.2.7\r\ns=-\r\nc=IN IP4 203.0.113.1\r\nc=IN IP4 203.0.113.1\r\nt=0 0\r\nm=audio 30000 RTP/AVP 8\r\nc=IN IP4 203.0.113.1\r\n";

const TWO_SESSION_CONNECTIONS_SECTIONS: &[SectionCase] = &[SectionCase {
    port: 30000,
    proto: Proto::Avp,
    address: PROXY,
    mux: false,
    keys: Keys::None,
}];

const TWO_SESSION_CONNECTIONS_KEPT: &[u8] =
    b"v=0\r\no=- 1 1 IN IP4 192.0.2.7\r\ns=-\r\nc=IN IP4 192.0.2.7\r\nc=IN IP4 192.0.2.8\r\nt=0 0\r\nm=audio 6000 RTP/AVP 8\r\n";

const TWO_SESSION_CONNECTIONS_KEPT_EDITED: &[u8] =
    b"v=0\r\no=- 1 1 IN IP4 203.0.113.1\r\ns=-\r\nc=IN IP4 192.0.2.7\r\nc=IN IP4 192.0.2.8\r\nt=0 0\r\nm=audio 30000 RTP/AVP 8\r\nc=IN IP4 203.0.113.1\r\n";

const TWO_SESSION_CONNECTIONS_KEPT_SECTIONS: &[SectionCase] = &[SectionCase {
    port: 30000,
    proto: Proto::Avp,
    address: PROXY,
    mux: false,
    keys: Keys::None,
}];

const RTCP_PORT_AND_ADDRESS: &[u8] =
    b"v=0\r\no=- 20518 0 IN IP4 198.51.100.1\r\ns=call\r\nc=IN IP4 198.51.100.1\r\nt=0 0\r\nm=audio 49170 RTP/AVP 0\r\na=rtcp:53020 IN IP4 192.0.2.53\r\na=sendrecv\r\n";

const RTCP_PORT_AND_ADDRESS_EDITED: &[u8] =
    b"v=0\r\no=- 20518 0 IN IP4 198.51.100.1\r\ns=call\r\nc=IN IP4 198.51.100.1\r\nt=0 0\r\nm=audio 30000 RTP/AVP 0\r\nc=IN IP4 203.0.113.1\r\na=sendrecv\r\n";

const RTCP_PORT_AND_ADDRESS_SECTIONS: &[SectionCase] = &[SectionCase {
    port: 30000,
    proto: Proto::Avp,
    address: PROXY,
    mux: false,
    keys: Keys::None,
}];

const RTCP_PORT_ALONE: &[u8] =
    b"v=0\r\no=- 20518 0 IN IP4 198.51.100.1\r\ns=call\r\nc=IN IP4 198.51.100.1\r\nt=0 0\r\nm=audio 49170 RTP/AVP 0\r\na=rtcp:53020\r\n";

const RTCP_PORT_ALONE_EDITED: &[u8] =
    b"v=0\r\no=- 20518 0 IN IP4 198.51.100.1\r\ns=call\r\nc=IN IP4 198.51.100.1\r\nt=0 0\r\nm=audio 30000 RTP/AVP 0\r\nc=IN IP4 203.0.113.1\r\n";

const RTCP_PORT_ALONE_SECTIONS: &[SectionCase] = &[SectionCase {
    port: 30000,
    proto: Proto::Avp,
    address: PROXY,
    mux: false,
    keys: Keys::None,
}];

const RTCP_WITHOUT_A_PORT: &[u8] =
    b"v=0\r\no=- 20518 0 IN IP4 198.51.100.1\r\ns=call\r\nc=IN IP4 198.51.100.1\r\nt=0 0\r\na=rtcp\r\nm=audio 49170 RTP/AVP 0\r\na=rtcp\r\n";

const RTCP_WITHOUT_A_PORT_EDITED: &[u8] =
    b"v=0\r\no=- 20518 0 IN IP4 198.51.100.1\r\ns=call\r\nc=IN IP4 198.51.100.1\r\nt=0 0\r\nm=audio 30000 RTP/AVP 0\r\nc=IN IP4 203.0.113.1\r\n";

const RTCP_WITHOUT_A_PORT_SECTIONS: &[SectionCase] = &[SectionCase {
    port: 30000,
    proto: Proto::Avp,
    address: PROXY,
    mux: false,
    keys: Keys::None,
}];

const LF_ENDS: &[u8] =
    b"v=0\no=alice 1 1 IN IP4 192.0.2.10\ns=-\nc=IN IP4 192.0.2.10\nt=0 0\nm=audio 6000 RTP/AVP 0 8\na=rtpmap:0 PCMU/8000\na=sendrecv\n";

const LF_ENDS_EDITED: &[u8] =
    b"v=0\r\no=alice 1 1 IN IP4 192.0.2.10\r\ns=-\r\nc=IN IP4 192.0.2.10\r\nt=0 0\r\nm=audio 30000 RTP/AVP 0 8\r\nc=IN IP4 203.0.113.1\r\na=rtpmap:0 PCMU/8000\r\na=sendrecv\r\n";

const LF_ENDS_SECTIONS: &[SectionCase] = &[SectionCase {
    port: 30000,
    proto: Proto::Avp,
    address: PROXY,
    mux: false,
    keys: Keys::None,
}];

const NO_FINAL_END: &[u8] =
    b"v=0\r\no=alice 1 1 IN IP4 192.0.2.10\r\ns=-\r\nc=IN IP4 192.0.2.10\r\nt=0 0\r\nm=audio 6000 RTP/AVP 0 8\r\na=rtpmap:0 PCMU/8000\r\na=sendrecv";

const NO_FINAL_END_EDITED: &[u8] =
    b"v=0\r\no=alice 1 1 IN IP4 192.0.2.10\r\ns=-\r\nc=IN IP4 192.0.2.10\r\nt=0 0\r\nm=audio 30000 RTP/AVP 0 8\r\nc=IN IP4 203.0.113.1\r\na=rtpmap:0 PCMU/8000\r\na=sendrecv\r\n";

const NO_FINAL_END_SECTIONS: &[SectionCase] = &[SectionCase {
    port: 30000,
    proto: Proto::Avp,
    address: PROXY,
    mux: false,
    keys: Keys::None,
}];

const MIXED_ENDS_AND_EMPTY_LINES_AT_THE_END: &[u8] =
    b"v=0\no=alice 1 1 IN IP4 192.0.2.10\ns=-\nc=IN IP4 192.0.2.10\r\nt=0 0\r\nm=audio 6000 RTP/AVP 0 8\r\na=rtpmap:0 PCMU/8000\r\na=sendrecv\r\n\r\n\n\r\n";

const MIXED_ENDS_AND_EMPTY_LINES_AT_THE_END_EDITED: &[u8] =
    b"v=0\r\no=alice 1 1 IN IP4 192.0.2.10\r\ns=-\r\nc=IN IP4 192.0.2.10\r\nt=0 0\r\nm=audio 30000 RTP/AVP 0 8\r\nc=IN IP4 203.0.113.1\r\na=rtpmap:0 PCMU/8000\r\na=sendrecv\r\n";

const MIXED_ENDS_AND_EMPTY_LINES_AT_THE_END_SECTIONS: &[SectionCase] = &[SectionCase {
    port: 30000,
    proto: Proto::Avp,
    address: PROXY,
    mux: false,
    keys: Keys::None,
}];

const TITLE_OF_A_SECTION: &[u8] =
    b"v=0\r\no=- 20518 0 IN IP4 198.51.100.1\r\ns=call\r\nc=IN IP4 198.51.100.1\r\nt=0 0\r\nm=audio 6000 RTP/AVP 0\r\ni=Main microphone\r\na=ptime:20\r\n";

const TITLE_OF_A_SECTION_EDITED: &[u8] =
    b"v=0\r\no=- 20518 0 IN IP4 198.51.100.1\r\ns=call\r\nc=IN IP4 198.51.100.1\r\nt=0 0\r\nm=audio 30000 RTP/AVP 0\r\ni=Main microphone\r\nc=IN IP4 203.0.113.1\r\na=ptime:20\r\n";

const TITLE_OF_A_SECTION_SECTIONS: &[SectionCase] = &[SectionCase {
    port: 30000,
    proto: Proto::Avp,
    address: PROXY,
    mux: false,
    keys: Keys::None,
}];

const TWO_TITLES_AND_A_LATER_ONE: &[u8] =
    b"v=0\r\no=- 20518 0 IN IP4 198.51.100.1\r\ns=call\r\nc=IN IP4 198.51.100.1\r\nt=0 0\r\nm=audio 6000 RTP/AVP 0\r\ni=one\r\ni=two\r\nb=AS:64\r\ni=three\r\n";

const TWO_TITLES_AND_A_LATER_ONE_EDITED: &[u8] =
    b"v=0\r\no=- 20518 0 IN IP4 198.51.100.1\r\ns=call\r\nc=IN IP4 198.51.100.1\r\nt=0 0\r\nm=audio 30000 RTP/AVP 0\r\ni=one\r\ni=two\r\nc=IN IP4 203.0.113.1\r\nb=AS:64\r\ni=three\r\n";

const TWO_TITLES_AND_A_LATER_ONE_SECTIONS: &[SectionCase] = &[SectionCase {
    port: 30000,
    proto: Proto::Avp,
    address: PROXY,
    mux: false,
    keys: Keys::None,
}];

const TITLE_AND_CONNECTION: &[u8] =
    b"v=0\r\no=- 20518 0 IN IP4 198.51.100.1\r\ns=call\r\nc=IN IP4 198.51.100.1\r\nt=0 0\r\nm=audio 6000 RTP/AVP 0\r\ni=one\r\nb=AS:64\r\nc=IN IP4 192.0.2.1\r\n";

const TITLE_AND_CONNECTION_EDITED: &[u8] =
    b"v=0\r\no=- 20518 0 IN IP4 198.51.100.1\r\ns=call\r\nc=IN IP4 198.51.100.1\r\nt=0 0\r\nm=audio 30000 RTP/AVP 0\r\ni=one\r\nb=AS:64\r\nc=IN IP4 203.0.113.1\r\n";

const TITLE_AND_CONNECTION_SECTIONS: &[SectionCase] = &[SectionCase {
    port: 30000,
    proto: Proto::Avp,
    address: PROXY,
    mux: false,
    keys: Keys::None,
}];

const TITLE_OF_THE_SESSION: &[u8] =
    b"v=0\r\no=- 1 1 IN IP4 192.0.2.7\r\ns=-\r\ni=A call\r\nc=IN IP4 192.0.2.7\r\nt=0 0\r\nm=audio 6000 RTP/AVP 8\r\n";

const TITLE_OF_THE_SESSION_EDITED: &[u8] =
    b"v=0\r\no=- 1 1 IN IP4 192.0.2.7\r\ns=-\r\ni=A call\r\nc=IN IP4 203.0.113.1\r\nt=0 0\r\nm=audio 30000 RTP/AVP 8\r\nc=IN IP4 203.0.113.1\r\n";

const TITLE_OF_THE_SESSION_SECTIONS: &[SectionCase] = &[SectionCase {
    port: 30000,
    proto: Proto::Avp,
    address: PROXY,
    mux: false,
    keys: Keys::None,
}];

const TITLE_AT_THE_END: &[u8] =
    b"v=0\r\no=- 20518 0 IN IP4 198.51.100.1\r\ns=call\r\nc=IN IP4 198.51.100.1\r\nt=0 0\r\nm=audio 6000 RTP/AVP 0\r\ni=one\r\n";

const TITLE_AT_THE_END_EDITED: &[u8] =
    b"v=0\r\no=- 20518 0 IN IP4 198.51.100.1\r\ns=call\r\nc=IN IP4 198.51.100.1\r\nt=0 0\r\nm=audio 30000 RTP/SAVP 0\r\ni=one\r\nc=IN IP4 203.0.113.1\r\na=crypto:1 AES_CM_128_HMAC_SHA1_80 inline:AQEBAQEBAQEBAQEBAQEBAQEBAQEBAQEBAQEBAQEB\r\n";

const TITLE_AT_THE_END_SECTIONS: &[SectionCase] = &[SectionCase {
    port: 30000,
    proto: Proto::Savp,
    address: PROXY,
    mux: false,
    keys: Keys::One,
}];

const NUMBER_OF_PORTS: &[u8] =
    b"v=0\r\no=- 20518 0 IN IP4 198.51.100.1\r\ns=call\r\nc=IN IP4 198.51.100.1\r\nt=0 0\r\nm=audio 6000/1 RTP/AVP 0 8\r\n";

const NUMBER_OF_PORTS_EDITED: &[u8] =
    b"v=0\r\no=- 20518 0 IN IP4 198.51.100.1\r\ns=call\r\nc=IN IP4 198.51.100.1\r\nt=0 0\r\nm=audio 30000 RTP/AVP 0 8\r\nc=IN IP4 203.0.113.1\r\n";

const NUMBER_OF_PORTS_SECTIONS: &[SectionCase] = &[SectionCase {
    port: 30000,
    proto: Proto::Avp,
    address: PROXY,
    mux: false,
    keys: Keys::None,
}];

const FAX_BESIDE_AUDIO: &[u8] =
    b"v=0\r\no=- 20518 0 IN IP4 198.51.100.1\r\ns=call\r\nc=IN IP4 198.51.100.1\r\nt=0 0\r\nm=audio 6000 RTP/AVP 0\r\nm=image 4000 udptl t38\r\na=T38FaxVersion:0\r\na=T38FaxUdpEC:t38UDPRedundancy\r\n";

const FAX_BESIDE_AUDIO_EDITED: &[u8] =
    b"v=0\r\no=- 20518 0 IN IP4 198.51.100.1\r\ns=call\r\nc=IN IP4 198.51.100.1\r\nt=0 0\r\nm=audio 30000 RTP/AVP 0\r\nc=IN IP4 203.0.113.1\r\nm=image 0 udptl t38\r\nc=IN IP4 203.0.113.1\r\na=T38FaxVersion:0\r\na=T38FaxUdpEC:t38UDPRedundancy\r\n";

const FAX_BESIDE_AUDIO_SECTIONS: &[SectionCase] = &[
    SectionCase {
        port: 30000,
        proto: Proto::Avp,
        address: PROXY,
        mux: false,
        keys: Keys::None,
    },
    SectionCase {
        port: 0,
        proto: Proto::Other,
        address: PROXY,
        mux: false,
        keys: Keys::None,
    },
];

const FAX_BEFORE_AUDIO: &[u8] =
    b"v=0\r\no=- 20518 0 IN IP4 198.51.100.1\r\ns=call\r\nc=IN IP4 198.51.100.1\r\nt=0 0\r\nm=image 4000 udptl t38\r\na=T38FaxVersion:0\r\nm=audio 6000 RTP/AVP 0\r\n";

const FAX_BEFORE_AUDIO_EDITED: &[u8] =
    b"v=0\r\no=- 20518 0 IN IP4 198.51.100.1\r\ns=call\r\nc=IN IP4 198.51.100.1\r\nt=0 0\r\nm=image 0 udptl t38\r\nc=IN IP4 203.0.113.1\r\na=T38FaxVersion:0\r\nm=audio 30000 RTP/AVP 0\r\nc=IN IP4 203.0.113.1\r\n";

const FAX_BEFORE_AUDIO_SECTIONS: &[SectionCase] = &[
    SectionCase {
        port: 0,
        proto: Proto::Other,
        address: PROXY,
        mux: false,
        keys: Keys::None,
    },
    SectionCase {
        port: 30000,
        proto: Proto::Avp,
        address: PROXY,
        mux: false,
        keys: Keys::None,
    },
];

const REJECTED_VIDEO: &[u8] =
    b"v=0\r\no=- 20518 0 IN IP4 198.51.100.1\r\ns=call\r\nc=IN IP4 198.51.100.1\r\nt=0 0\r\nm=audio 6000 RTP/AVP 0\r\nm=video 0 RTP/AVP 31\r\na=inactive\r\n";

const REJECTED_VIDEO_EDITED: &[u8] =
    b"v=0\r\no=- 20518 0 IN IP4 198.51.100.1\r\ns=call\r\nc=IN IP4 198.51.100.1\r\nt=0 0\r\nm=audio 30000 RTP/AVP 0\r\nc=IN IP4 203.0.113.1\r\nm=video 0 RTP/AVP 31\r\nc=IN IP4 203.0.113.1\r\na=inactive\r\n";

const REJECTED_VIDEO_SECTIONS: &[SectionCase] = &[
    SectionCase {
        port: 30000,
        proto: Proto::Avp,
        address: PROXY,
        mux: false,
        keys: Keys::None,
    },
    SectionCase {
        port: 0,
        proto: Proto::Avp,
        address: PROXY,
        mux: false,
        keys: Keys::None,
    },
];

const IPV6_DESCRIPTION: &[u8] =
    b"v=0\r\no=- 1 1 IN IP6 2001:db8::7\r\ns=-\r\nc=IN IP6 2001:db8::7\r\nt=0 0\r\nm=audio 6000 RTP/AVP 8\r\na=rtcp:6001 IN IP6 2001:db8::7\r\n";

const IPV6_DESCRIPTION_EDITED: &[u8] =
    b"v=0\r\no=- 1 1 IN IP4 203.0.113.1\r\ns=-\r\nc=IN IP4 203.0.113.1\r\nt=0 0\r\nm=audio 30000 RTP/AVP 8\r\nc=IN IP4 203.0.113.1\r\n";

const IPV6_DESCRIPTION_SECTIONS: &[SectionCase] = &[SectionCase {
    port: 30000,
    proto: Proto::Avp,
    address: PROXY,
    mux: false,
    keys: Keys::None,
}];

const IPV6_PROXY: &[u8] =
    b"v=0\r\no=alice 1 1 IN IP4 192.0.2.10\r\ns=-\r\nc=IN IP4 192.0.2.10\r\nt=0 0\r\nm=audio 6000 RTP/AVP 0 8\r\na=rtpmap:0 PCMU/8000\r\na=sendrecv\r\n";

const IPV6_PROXY_EDITED: &[u8] =
    b"v=0\r\no=alice 1 1 IN IP6 2001:db8::1\r\ns=-\r\nc=IN IP6 2001:db8::1\r\nt=0 0\r\nm=audio 30000 RTP/AVP 0 8\r\nc=IN IP6 2001:db8::1\r\na=rtpmap:0 PCMU/8000\r\na=sendrecv\r\n";

const IPV6_PROXY_SECTIONS: &[SectionCase] = &[SectionCase {
    port: 30000,
    proto: Proto::Avp,
    address: PROXY_IPV6,
    mux: false,
    keys: Keys::None,
}];

const A_FAMILY_FOR_EACH_SECTION: &[u8] =
    b"v=0\r\no=- 20518 0 IN IP4 198.51.100.1\r\ns=call\r\nc=IN IP4 198.51.100.1\r\nt=0 0\r\nm=audio 6000 RTP/AVP 0\r\nm=video 6002 RTP/AVP 34\r\nc=IN IP4 192.0.2.1\r\n";

const A_FAMILY_FOR_EACH_SECTION_EDITED: &[u8] =
    b"v=0\r\no=- 20518 0 IN IP4 198.51.100.1\r\ns=call\r\nc=IN IP4 198.51.100.1\r\nt=0 0\r\nm=audio 30000 RTP/AVP 0\r\nc=IN IP4 203.0.113.1\r\nm=video 30004 RTP/AVP 34\r\nc=IN IP6 2001:db8::1\r\n";

const A_FAMILY_FOR_EACH_SECTION_SECTIONS: &[SectionCase] = &[
    SectionCase {
        port: 30000,
        proto: Proto::Avp,
        address: PROXY,
        mux: false,
        keys: Keys::None,
    },
    SectionCase {
        port: 30004,
        proto: Proto::Avp,
        address: PROXY_IPV6,
        mux: false,
        keys: Keys::None,
    },
];

const HOLD: &[u8] =
    b"v=0\r\no=- 1 2 IN IP4 192.0.2.7\r\ns=-\r\nc=IN IP4 0.0.0.0\r\nt=0 0\r\nm=audio 6000 RTP/AVP 8 101\r\na=rtpmap:101 telephone-event/8000\r\na=inactive\r\n";

const HOLD_EDITED: &[u8] =
    b"v=0\r\no=- 1 2 IN IP4 192.0.2.7\r\ns=-\r\nc=IN IP4 203.0.113.1\r\nt=0 0\r\nm=audio 30000 RTP/AVP 8 101\r\nc=IN IP4 203.0.113.1\r\na=rtpmap:101 telephone-event/8000\r\na=inactive\r\n";

const HOLD_SECTIONS: &[SectionCase] = &[SectionCase {
    port: 30000,
    proto: Proto::Avp,
    address: PROXY,
    mux: false,
    keys: Keys::None,
}];

const LOOK_ALIKES_STAY: &[u8] =
    b"v=0\r\no=- 20518 0 IN IP4 198.51.100.1\r\ns=call\r\nc=IN IP4 198.51.100.1\r\nt=0 0\r\na=groups:BUNDLE 0\r\na=ice:lite\r\nm=audio 6000 RTP/AVP 0\r\na=candidates:1\r\na=Candidate:1\r\na=ice-ufrag2:x\r\na=ice-mismatch\r\na=crypto2:1\r\na=rtcp-rsize\r\na=rtcp-xr:rcvr-rtt\r\na=rtcp-mux-only\r\na=rtcp-fbx:1\r\na=setup1\r\nk=crypto:1\r\na=\r\na=:candidate\r\na=fmtp:1 candidate\r\n";

const LOOK_ALIKES_STAY_EDITED: &[u8] =
    b"v=0\r\no=- 20518 0 IN IP4 198.51.100.1\r\ns=call\r\nc=IN IP4 198.51.100.1\r\nt=0 0\r\na=groups:BUNDLE 0\r\na=ice:lite\r\nm=audio 30000 RTP/AVP 0\r\nc=IN IP4 203.0.113.1\r\na=candidates:1\r\na=Candidate:1\r\na=ice-ufrag2:x\r\na=ice-mismatch\r\na=crypto2:1\r\na=rtcp-rsize\r\na=rtcp-xr:rcvr-rtt\r\na=rtcp-mux-only\r\na=rtcp-fbx:1\r\na=setup1\r\nk=crypto:1\r\na=\r\na=:candidate\r\na=fmtp:1 candidate\r\n";

const LOOK_ALIKES_STAY_SECTIONS: &[SectionCase] = &[SectionCase {
    port: 30000,
    proto: Proto::Avp,
    address: PROXY,
    mux: false,
    keys: Keys::None,
}];

const ATTRIBUTES_WITHOUT_VALUES: &[u8] =
    b"v=0\r\no=- 20518 0 IN IP4 198.51.100.1\r\ns=call\r\nc=IN IP4 198.51.100.1\r\nt=0 0\r\na=group\r\nm=audio 6000 RTP/AVP 0\r\na=candidate\r\na=rtcp-mux\r\na=rtcp-mux:x\r\na=rtcp-fb\r\na=setup\r\na=crypto\r\na=fingerprint\r\n";

const ATTRIBUTES_WITHOUT_VALUES_EDITED: &[u8] =
    b"v=0\r\no=- 20518 0 IN IP4 198.51.100.1\r\ns=call\r\nc=IN IP4 198.51.100.1\r\nt=0 0\r\nm=audio 30000 RTP/AVP 0\r\nc=IN IP4 203.0.113.1\r\n";

const ATTRIBUTES_WITHOUT_VALUES_SECTIONS: &[SectionCase] = &[SectionCase {
    port: 30000,
    proto: Proto::Avp,
    address: PROXY,
    mux: false,
    keys: Keys::None,
}];

const SHARED_PORTS: &[u8] =
    b"v=0\r\nc=IN IP4 198.51.100.1\r\na=rtcp-mux\r\nm=audio 6000 RTP/AVP 0\r\na=rtcp-mux\r\na=mid:0\r\na=rtcp-mux:x\r\nm=audio 6002 RTP/AVP 0\r\na=rtcp-mux\r\na=rtcp-mux-only\r\nm=audio 6004 RTP/AVP 0";

const SHARED_PORTS_EDITED: &[u8] =
    b"v=0\r\nc=IN IP4 198.51.100.1\r\na=rtcp-mux\r\nm=audio 30000 RTP/SAVP 0\r\nc=IN IP4 203.0.113.1\r\na=mid:0\r\na=rtcp-mux\r\na=crypto:1 AES_CM_128_HMAC_SHA1_80 inline:AQEBAQEBAQEBAQEBAQEBAQEBAQEBAQEBAQEBAQEB\r\nm=audio 30002 RTP/AVP 0\r\nc=IN IP4 203.0.113.1\r\na=rtcp-mux-only\r\nm=audio 30004 RTP/AVP 0\r\nc=IN IP4 203.0.113.1\r\na=rtcp-mux\r\n";

const SHARED_PORTS_SECTIONS: &[SectionCase] = &[
    SectionCase {
        port: 30000,
        proto: Proto::Savp,
        address: PROXY,
        mux: true,
        keys: Keys::One,
    },
    SectionCase {
        port: 30002,
        proto: Proto::Avp,
        address: PROXY,
        mux: false,
        keys: Keys::None,
    },
    SectionCase {
        port: 30004,
        proto: Proto::Avp,
        address: PROXY,
        mux: true,
        keys: Keys::None,
    },
];

const FEEDBACK_UNDER_ANOTHER_PROTOCOL: &[u8] =
    b"v=0\r\no=- 20518 0 IN IP4 198.51.100.1\r\ns=call\r\nc=IN IP4 198.51.100.1\r\nt=0 0\r\nm=audio 0 TCP/RTP/AVP 0\r\na=rtcp-fb:* nack\r\nm=video 6002 RTP/AVP 34\r\n";

const FEEDBACK_UNDER_ANOTHER_PROTOCOL_EDITED: &[u8] =
    b"v=0\r\no=- 20518 0 IN IP4 198.51.100.1\r\ns=call\r\nc=IN IP4 198.51.100.1\r\nt=0 0\r\nm=audio 0 TCP/RTP/AVP 0\r\nc=IN IP4 203.0.113.1\r\na=rtcp-fb:* nack\r\nm=video 30004 RTP/AVP 34\r\nc=IN IP4 203.0.113.1\r\n";

const FEEDBACK_UNDER_ANOTHER_PROTOCOL_SECTIONS: &[SectionCase] = &[
    SectionCase {
        port: 0,
        proto: Proto::Other,
        address: PROXY,
        mux: false,
        keys: Keys::None,
    },
    SectionCase {
        port: 30004,
        proto: Proto::Avp,
        address: PROXY,
        mux: false,
        keys: Keys::None,
    },
];

const FEEDBACK_BEFORE_THE_FIRST_SECTION: &[u8] =
    b"v=0\r\no=- 20518 0 IN IP4 198.51.100.1\r\ns=call\r\nc=IN IP4 198.51.100.1\r\nt=0 0\r\na=rtcp-fb:* nack\r\nm=audio 6000 RTP/AVPF 0\r\na=rtcp-fb:* nack\r\n";

const FEEDBACK_BEFORE_THE_FIRST_SECTION_EDITED: &[u8] =
    b"v=0\r\no=- 20518 0 IN IP4 198.51.100.1\r\ns=call\r\nc=IN IP4 198.51.100.1\r\nt=0 0\r\na=rtcp-fb:* nack\r\nm=audio 30000 RTP/AVP 0\r\nc=IN IP4 203.0.113.1\r\n";

const FEEDBACK_BEFORE_THE_FIRST_SECTION_SECTIONS: &[SectionCase] = &[SectionCase {
    port: 30000,
    proto: Proto::Avp,
    address: PROXY,
    mux: false,
    keys: Keys::None,
}];

const A_SECOND_ORIGIN_STAYS: &[u8] =
    b"v=0\r\no=- 1 1 IN IP4 192.0.2.7\r\no=- 2 2 IN IP4 192.0.2.8\r\ns=-\r\nc=IN IP4 192.0.2.7\r\nt=0 0\r\nm=audio 6000 RTP/AVP 8\r\n";

const A_SECOND_ORIGIN_STAYS_EDITED: &[u8] =
    b"v=0\r\no=- 1 1 IN IP4 203.0.113.1\r\no=- 2 2 IN IP4 192.0.2.8\r\ns=-\r\nc=IN IP4 192.0.2.7\r\nt=0 0\r\nm=audio 30000 RTP/AVP 8\r\nc=IN IP4 203.0.113.1\r\n";

const A_SECOND_ORIGIN_STAYS_SECTIONS: &[SectionCase] = &[SectionCase {
    port: 30000,
    proto: Proto::Avp,
    address: PROXY,
    mux: false,
    keys: Keys::None,
}];

const FORMATS_STAY_AS_THEY_ARE: &[u8] =
    b"v=0\r\no=- 20518 0 IN IP4 198.51.100.1\r\ns=call\r\nc=IN IP4 198.51.100.1\r\nt=0 0\r\nm=audio 06000 RTP/AVP 0  8 \r\nm=video 6002 RTP/AVP 34 \r\n";

const FORMATS_STAY_AS_THEY_ARE_EDITED: &[u8] =
    b"v=0\r\no=- 20518 0 IN IP4 198.51.100.1\r\ns=call\r\nc=IN IP4 198.51.100.1\r\nt=0 0\r\nm=audio 30000 RTP/AVP 0  8 \r\nc=IN IP4 203.0.113.1\r\nm=video 30004 RTP/SAVPF 34 \r\nc=IN IP4 203.0.113.1\r\na=crypto:1 AES_CM_128_HMAC_SHA1_80 inline:AQEBAQEBAQEBAQEBAQEBAQEBAQEBAQEBAQEBAQEB\r\na=crypto:2 AES_CM_128_HMAC_SHA1_32 inline:AgICAgICAgICAgICAgICAgICAgICAgICAgICAgIC\r\n";

const FORMATS_STAY_AS_THEY_ARE_SECTIONS: &[SectionCase] = &[
    SectionCase {
        port: 30000,
        proto: Proto::Avp,
        address: PROXY,
        mux: false,
        keys: Keys::None,
    },
    SectionCase {
        port: 30004,
        proto: Proto::Savpf,
        address: PROXY,
        mux: false,
        keys: Keys::Both,
    },
];

const NO_SECTION: &[u8] =
    b"v=0\r\no=- 1 1 IN IP4 192.0.2.7\r\ns=-\r\nc=IN IP4 192.0.2.7\r\nt=0 0\r\n";

const NO_SECTION_EDITED: &[u8] =
    b"v=0\r\no=- 1 1 IN IP4 203.0.113.1\r\ns=-\r\nc=IN IP4 203.0.113.1\r\nt=0 0\r\n";

const NO_SECTION_SECTIONS: &[SectionCase] = &[];

const KEYS_AT_THE_END_OF_EACH_SECTION: &[u8] =
    b"v=0\r\no=- 20518 0 IN IP4 198.51.100.1\r\ns=call\r\nc=IN IP4 198.51.100.1\r\nt=0 0\r\nm=audio 6000 RTP/AVP 0\r\na=sendrecv\r\nm=audio 6002 RTP/AVP 8\r\nm=video 6004 RTP/AVP 34\r\nb=AS:64\r\n";

const KEYS_AT_THE_END_OF_EACH_SECTION_EDITED: &[u8] =
    b"v=0\r\no=- 20518 0 IN IP4 198.51.100.1\r\ns=call\r\nc=IN IP4 198.51.100.1\r\nt=0 0\r\nm=audio 30000 RTP/SAVP 0\r\nc=IN IP4 203.0.113.1\r\na=sendrecv\r\na=crypto:1 AES_CM_128_HMAC_SHA1_80 inline:AQEBAQEBAQEBAQEBAQEBAQEBAQEBAQEBAQEBAQEB\r\nm=audio 30004 RTP/SAVP 8\r\nc=IN IP4 203.0.113.1\r\na=crypto:1 AES_CM_128_HMAC_SHA1_80 inline:AQEBAQEBAQEBAQEBAQEBAQEBAQEBAQEBAQEBAQEB\r\na=crypto:2 AES_CM_128_HMAC_SHA1_32 inline:AgICAgICAgICAgICAgICAgICAgICAgICAgICAgIC\r\nm=video 30008 RTP/SAVPF 34\r\nc=IN IP4 203.0.113.1\r\nb=AS:64\r\na=crypto:1 AES_CM_128_HMAC_SHA1_80 inline:AQEBAQEBAQEBAQEBAQEBAQEBAQEBAQEBAQEBAQEB\r\n";

const KEYS_AT_THE_END_OF_EACH_SECTION_SECTIONS: &[SectionCase] = &[
    SectionCase {
        port: 30000,
        proto: Proto::Savp,
        address: PROXY,
        mux: false,
        keys: Keys::One,
    },
    SectionCase {
        port: 30004,
        proto: Proto::Savp,
        address: PROXY,
        mux: false,
        keys: Keys::Both,
    },
    SectionCase {
        port: 30008,
        proto: Proto::Savpf,
        address: PROXY,
        mux: false,
        keys: Keys::One,
    },
];

const EIGHT_SECTIONS: &[u8] =
    b"v=0\r\no=- 20518 0 IN IP4 198.51.100.1\r\ns=call\r\nc=IN IP4 198.51.100.1\r\nt=0 0\r\nm=audio 6000 RTP/AVP 0\r\na=mid:0\r\nm=audio 6002 RTP/AVP 0\r\na=mid:1\r\nm=audio 6004 RTP/AVP 0\r\na=mid:2\r\nm=audio 6006 RTP/AVP 0\r\na=mid:3\r\nm=audio 6008 RTP/AVP 0\r\na=mid:4\r\nm=audio 6010 RTP/AVP 0\r\na=mid:5\r\nm=audio 6012 RTP/AVP 0\r\na=mid:6\r\nm=audio 6014 RTP/AVP 0\r\na=mid:7\r\n";

const EIGHT_SECTIONS_EDITED: &[u8] =
    b"v=0\r\no=- 20518 0 IN IP4 198.51.100.1\r\ns=call\r\nc=IN IP4 198.51.100.1\r\nt=0 0\r\nm=audio 30000 RTP/AVP 0\r\nc=IN IP4 203.0.113.1\r\na=mid:0\r\nm=audio 30004 RTP/AVP 0\r\nc=IN IP4 203.0.113.1\r\na=mid:1\r\nm=audio 30008 RTP/AVP 0\r\nc=IN IP4 203.0.113.1\r\na=mid:2\r\nm=audio 30012 RTP/AVP 0\r\nc=IN IP4 203.0.113.1\r\na=mid:3\r\nm=audio 30016 RTP/AVP 0\r\nc=IN IP4 203.0.113.1\r\na=mid:4\r\nm=audio 30020 RTP/AVP 0\r\nc=IN IP4 203.0.113.1\r\na=mid:5\r\nm=audio 30024 RTP/AVP 0\r\nc=IN IP4 203.0.113.1\r\na=mid:6\r\nm=audio 30028 RTP/AVP 0\r\nc=IN IP4 203.0.113.1\r\na=mid:7\r\n";

const EIGHT_SECTIONS_SECTIONS: &[SectionCase] = &[
    SectionCase {
        port: 30000,
        proto: Proto::Avp,
        address: PROXY,
        mux: false,
        keys: Keys::None,
    },
    SectionCase {
        port: 30004,
        proto: Proto::Avp,
        address: PROXY,
        mux: false,
        keys: Keys::None,
    },
    SectionCase {
        port: 30008,
        proto: Proto::Avp,
        address: PROXY,
        mux: false,
        keys: Keys::None,
    },
    SectionCase {
        port: 30012,
        proto: Proto::Avp,
        address: PROXY,
        mux: false,
        keys: Keys::None,
    },
    SectionCase {
        port: 30016,
        proto: Proto::Avp,
        address: PROXY,
        mux: false,
        keys: Keys::None,
    },
    SectionCase {
        port: 30020,
        proto: Proto::Avp,
        address: PROXY,
        mux: false,
        keys: Keys::None,
    },
    SectionCase {
        port: 30024,
        proto: Proto::Avp,
        address: PROXY,
        mux: false,
        keys: Keys::None,
    },
    SectionCase {
        port: 30028,
        proto: Proto::Avp,
        address: PROXY,
        mux: false,
        keys: Keys::None,
    },
];

const A_LINE_OF_A_THOUSAND_BYTES: &[u8] =
    b"v=0\r\no=- 20518 0 IN IP4 198.51.100.1\r\ns=call\r\nc=IN IP4 198.51.100.1\r\nt=0 0\r\nm=audio 6000 RTP/AVP 0\r\na=fmtp:96 xxxxxxxxxxxxxxxxxxxxxxxxxxxxxxxxxxxxxxxxxxxxxxxxxxxxxxxxxxxxxxxxxxxxxxxxxxxxxxxxxxxxxxxxxxxxxxxxxxxxxxxxxxxxxxxxxxxxxxxxxxxxxxxxxxxxxxxxxxxxxxxxxxxxxxxxxxxxxxxxxxxxxxxxxxxxxxxxxxxxxxxxxxxxxxxxxxxxxxxxxxxxxxxxxxxxxxxxxxxxxxxxxxxxxxxxxxxxxxxxxxxxxxxxxxxxxxxxxxxxxxxxxxxxxxxxxxxxxxxxxxxxxxxxxxxxxxxxxxxxxxxxxxxxxxxxxxxxxxxxxxxxxxxxxxxxxxxxxxxxxxxxxxxxxxxxxxxxxxxxxxxxxxxxxxxxxxxxxxxxxxxxxxxxxxxxxxxxxxxxxxxxxxxxxxxxxxxxxxxxxxxxxxxxxxxxxxxxxxxxxxxxxxxxxxxxxxxxxxxxxxxxxxxxxxxxxxxxxxxxxxxxxxxxxxxxxxxxxxxxxxxxxxxxxxxxxxxxxxxxxxxxxxxxxxxxxxxxxxxxxxxxxxxxxxxxxxxxxxxxxxxxxxxxxxxxxxxxxxxxxxxxxxxxxxxxxxxxxxxxxxxxxxxxxxxxxxxxxxxxxxxxxxxxxxxxxxxxxxxxxxxxxxxxxxxxxxxxxxxxxxxxxxxxxxxxxxxxxxxxxxxxxxxxxxxxxxxxxxxxxxxxxxxxxxxxxxxxxxxxxxxxxxxxxxxxxxxxxxxxxxxxxxxxxxxxxxxxxxxxxxxxxxxxxxxxxxxxxxxxxxxxxxxxxxxxxxxxxxxxxxxxxxxxxxxxxxxxxxxxxxxxxxxxxxxxxxxxxxxxxxxxxxxxxxxxxxxxxxxxxxxxxxxxxxxxxxxxxxxxxxxxxxxxxxxxxxxxxxxxxxxxxxxxxxxxxxxxxxxxxxxxxxxxxxxxxxxxxxxxxxxxxxxxxxxxxxxxxxxxxxxxxxxxxxxxxxxxxxxxxxxxxxxxxx\r\n";

const A_LINE_OF_A_THOUSAND_BYTES_EDITED: &[u8] =
    b"v=0\r\no=- 20518 0 IN IP4 198.51.100.1\r\ns=call\r\nc=IN IP4 198.51.100.1\r\nt=0 0\r\nm=audio 30000 RTP/AVP 0\r\nc=IN IP4 203.0.113.1\r\na=fmtp:96 xxxxxxxxxxxxxxxxxxxxxxxxxxxxxxxxxxxxxxxxxxxxxxxxxxxxxxxxxxxxxxxxxxxxxxxxxxxxxxxxxxxxxxxxxxxxxxxxxxxxxxxxxxxxxxxxxxxxxxxxxxxxxxxxxxxxxxxxxxxxxxxxxxxxxxxxxxxxxxxxxxxxxxxxxxxxxxxxxxxxxxxxxxxxxxxxxxxxxxxxxxxxxxxxxxxxxxxxxxxxxxxxxxxxxxxxxxxxxxxxxxxxxxxxxxxxxxxxxxxxxxxxxxxxxxxxxxxxxxxxxxxxxxxxxxxxxxxxxxxxxxxxxxxxxxxxxxxxxxxxxxxxxxxxxxxxxxxxxxxxxxxxxxxxxxxxxxxxxxxxxxxxxxxxxxxxxxxxxxxxxxxxxxxxxxxxxxxxxxxxxxxxxxxxxxxxxxxxxxxxxxxxxxxxxxxxxxxxxxxxxxxxxxxxxxxxxxxxxxxxxxxxxxxxxxxxxxxxxxxxxxxxxxxxxxxxxxxxxxxxxxxxxxxxxxxxxxxxxxxxxxxxxxxxxxxxxxxxxxxxxxxxxxxxxxxxxxxxxxxxxxxxxxxxxxxxxxxxxxxxxxxxxxxxxxxxxxxxxxxxxxxxxxxxxxxxxxxxxxxxxxxxxxxxxxxxxxxxxxxxxxxxxxxxxxxxxxxxxxxxxxxxxxxxxxxxxxxxxxxxxxxxxxxxxxxxxxxxxxxxxxxxxxxxxxxxxxxxxxxxxxxxxxxxxxxxxxxxxxxxxxxxxxxxxxxxxxxxxxxxxxxxxxxxxxxxxxxxxxxxxxxxxxxxxxxxxxxxxxxxxxxxxxxxxxxxxxxxxxxxxxxxxxxxxxxxxxxxxxxxxxxxxxxxxxxxxxxxxxxxxxxxxxxxxxxxxxxxxxxxxxxxxxxxxxxxxxxxxxxxxxxxxxxxxxxxxxxxxxxxxxxxxxxxxxxxxxxxxxxxxxxxxxxxxxxxxxxxxxxxxxxxxxxxxxxxxxxxxxxxxxxxxxxxxx\r\n";

const A_LINE_OF_A_THOUSAND_BYTES_SECTIONS: &[SectionCase] = &[SectionCase {
    port: 30000,
    proto: Proto::Avp,
    address: PROXY,
    mux: false,
    keys: Keys::None,
}];

const A_HUNDRED_LINES_IN_A_SECTION: &[u8] =
    b"v=0\r\no=- 20518 0 IN IP4 198.51.100.1\r\ns=call\r\nc=IN IP4 198.51.100.1\r\nt=0 0\r\nm=audio 6000 RTP/AVP 0\r\na=fmtp:0 x=0\r\na=fmtp:1 x=1\r\na=fmtp:2 x=2\r\na=fmtp:3 x=3\r\na=fmtp:4 x=4\r\na=fmtp:5 x=5\r\na=fmtp:6 x=6\r\na=fmtp:7 x=7\r\na=fmtp:8 x=8\r\na=fmtp:9 x=9\r\na=fmtp:10 x=10\r\na=fmtp:11 x=11\r\na=fmtp:12 x=12\r\na=fmtp:13 x=13\r\na=fmtp:14 x=14\r\na=fmtp:15 x=15\r\na=fmtp:16 x=16\r\na=fmtp:17 x=17\r\na=fmtp:18 x=18\r\na=fmtp:19 x=19\r\na=fmtp:20 x=20\r\na=fmtp:21 x=21\r\na=fmtp:22 x=22\r\na=fmtp:23 x=23\r\na=fmtp:24 x=24\r\na=fmtp:25 x=25\r\na=fmtp:26 x=26\r\na=fmtp:27 x=27\r\na=fmtp:28 x=28\r\na=fmtp:29 x=29\r\na=fmtp:30 x=30\r\na=fmtp:31 x=31\r\na=fmtp:32 x=32\r\na=fmtp:33 x=33\r\na=fmtp:34 x=34\r\na=fmtp:35 x=35\r\na=fmtp:36 x=36\r\na=fmtp:37 x=37\r\na=fmtp:38 x=38\r\na=fmtp:39 x=39\r\na=fmtp:40 x=40\r\na=fmtp:41 x=41\r\na=fmtp:42 x=42\r\na=fmtp:43 x=43\r\na=fmtp:44 x=44\r\na=fmtp:45 x=45\r\na=fmtp:46 x=46\r\na=fmtp:47 x=47\r\na=fmtp:48 x=48\r\na=fmtp:49 x=49\r\na=candidate:0\r\na=candidate:1\r\na=candidate:2\r\na=candidate:3\r\na=candidate:4\r\na=candidate:5\r\na=candidate:6\r\na=candidate:7\r\na=candidate:8\r\na=candidate:9\r\na=candidate:10\r\na=candidate:11\r\na=candidate:12\r\na=candidate:13\r\na=candidate:14\r\na=candidate:15\r\na=candidate:16\r\na=candidate:17\r\na=candidate:18\r\na=candidate:19\r\na=candidate:20\r\na=candidate:21\r\na=candidate:22\r\na=candidate:23\r\na=candidate:24\r\na=candidate:25\r\na=candidate:26\r\na=candidate:27\r\na=candidate:28\r\na=candidate:29\r\na=candidate:30\r\na=candidate:31\r\na=candidate:32\r\na=candidate:33\r\na=candidate:34\r\na=candidate:35\r\na=candidate:36\r\na=candidate:37\r\na=candidate:38\r\na=candidate:39\r\na=candidate:40\r\na=candidate:41\r\na=candidate:42\r\na=candidate:43\r\na=candidate:44\r\na=candidate:45\r\na=candidate:46\r\na=candidate:47\r\na=candidate:48\r\na=candidate:49\r\n";

const A_HUNDRED_LINES_IN_A_SECTION_EDITED: &[u8] =
    b"v=0\r\no=- 20518 0 IN IP4 198.51.100.1\r\ns=call\r\nc=IN IP4 198.51.100.1\r\nt=0 0\r\nm=audio 30000 RTP/AVP 0\r\nc=IN IP4 203.0.113.1\r\na=fmtp:0 x=0\r\na=fmtp:1 x=1\r\na=fmtp:2 x=2\r\na=fmtp:3 x=3\r\na=fmtp:4 x=4\r\na=fmtp:5 x=5\r\na=fmtp:6 x=6\r\na=fmtp:7 x=7\r\na=fmtp:8 x=8\r\na=fmtp:9 x=9\r\na=fmtp:10 x=10\r\na=fmtp:11 x=11\r\na=fmtp:12 x=12\r\na=fmtp:13 x=13\r\na=fmtp:14 x=14\r\na=fmtp:15 x=15\r\na=fmtp:16 x=16\r\na=fmtp:17 x=17\r\na=fmtp:18 x=18\r\na=fmtp:19 x=19\r\na=fmtp:20 x=20\r\na=fmtp:21 x=21\r\na=fmtp:22 x=22\r\na=fmtp:23 x=23\r\na=fmtp:24 x=24\r\na=fmtp:25 x=25\r\na=fmtp:26 x=26\r\na=fmtp:27 x=27\r\na=fmtp:28 x=28\r\na=fmtp:29 x=29\r\na=fmtp:30 x=30\r\na=fmtp:31 x=31\r\na=fmtp:32 x=32\r\na=fmtp:33 x=33\r\na=fmtp:34 x=34\r\na=fmtp:35 x=35\r\na=fmtp:36 x=36\r\na=fmtp:37 x=37\r\na=fmtp:38 x=38\r\na=fmtp:39 x=39\r\na=fmtp:40 x=40\r\na=fmtp:41 x=41\r\na=fmtp:42 x=42\r\na=fmtp:43 x=43\r\na=fmtp:44 x=44\r\na=fmtp:45 x=45\r\na=fmtp:46 x=46\r\na=fmtp:47 x=47\r\na=fmtp:48 x=48\r\na=fmtp:49 x=49\r\n";

const A_HUNDRED_LINES_IN_A_SECTION_SECTIONS: &[SectionCase] = &[SectionCase {
    port: 30000,
    proto: Proto::Avp,
    address: PROXY,
    mux: false,
    keys: Keys::None,
}];

pub(crate) const WHOLE_CALLS: &[Case] = &[
    Case {
        text: PLAIN_AUDIO,
        address: PROXY,
        replace_origin: false,
        replace_session: false,
        sections: PLAIN_AUDIO_SECTIONS,
        edited: PLAIN_AUDIO_EDITED,
    },
    Case {
        text: PLAIN_AUDIO_REPLACED,
        address: PROXY,
        replace_origin: true,
        replace_session: true,
        sections: PLAIN_AUDIO_REPLACED_SECTIONS,
        edited: PLAIN_AUDIO_REPLACED_EDITED,
    },
    Case {
        text: PLAIN_AUDIO_TO_SRTP,
        address: PROXY,
        replace_origin: false,
        replace_session: false,
        sections: PLAIN_AUDIO_TO_SRTP_SECTIONS,
        edited: PLAIN_AUDIO_TO_SRTP_EDITED,
    },
    Case {
        text: ANSWER,
        address: PROXY,
        replace_origin: false,
        replace_session: false,
        sections: ANSWER_SECTIONS,
        edited: ANSWER_EDITED,
    },
    Case {
        text: SRTP_ANSWER_TO_PLAIN,
        address: PROXY,
        replace_origin: false,
        replace_session: false,
        sections: SRTP_ANSWER_TO_PLAIN_SECTIONS,
        edited: SRTP_ANSWER_TO_PLAIN_EDITED,
    },
    Case {
        text: AUDIO_VIDEO_FEEDBACK_KEPT,
        address: PROXY,
        replace_origin: false,
        replace_session: false,
        sections: AUDIO_VIDEO_FEEDBACK_KEPT_SECTIONS,
        edited: AUDIO_VIDEO_FEEDBACK_KEPT_EDITED,
    },
    Case {
        text: AUDIO_VIDEO_FEEDBACK_REMOVED,
        address: PROXY,
        replace_origin: false,
        replace_session: false,
        sections: AUDIO_VIDEO_FEEDBACK_REMOVED_SECTIONS,
        edited: AUDIO_VIDEO_FEEDBACK_REMOVED_EDITED,
    },
    Case {
        text: AUDIO_VIDEO_ONE_PROFILE_EACH,
        address: PROXY,
        replace_origin: true,
        replace_session: true,
        sections: AUDIO_VIDEO_ONE_PROFILE_EACH_SECTIONS,
        edited: AUDIO_VIDEO_ONE_PROFILE_EACH_EDITED,
    },
    Case {
        text: ICE_AND_KEYS_REMOVED,
        address: PROXY,
        replace_origin: false,
        replace_session: false,
        sections: ICE_AND_KEYS_REMOVED_SECTIONS,
        edited: ICE_AND_KEYS_REMOVED_EDITED,
    },
];

pub(crate) const CONNECTIONS_AND_ENDS: &[Case] = &[
    Case {
        text: ICE_AND_KEYS_TO_SAVPF,
        address: PROXY,
        replace_origin: false,
        replace_session: false,
        sections: ICE_AND_KEYS_TO_SAVPF_SECTIONS,
        edited: ICE_AND_KEYS_TO_SAVPF_EDITED,
    },
    Case {
        text: MEDIA_LEVEL_CONNECTIONS,
        address: PROXY,
        replace_origin: true,
        replace_session: true,
        sections: MEDIA_LEVEL_CONNECTIONS_SECTIONS,
        edited: MEDIA_LEVEL_CONNECTIONS_EDITED,
    },
    Case {
        text: SECOND_CONNECTION_OF_A_SECTION,
        address: PROXY,
        replace_origin: false,
        replace_session: false,
        sections: SECOND_CONNECTION_OF_A_SECTION_SECTIONS,
        edited: SECOND_CONNECTION_OF_A_SECTION_EDITED,
    },
    Case {
        text: SESSION_AND_MEDIA_CONNECTION,
        address: PROXY,
        replace_origin: false,
        replace_session: true,
        sections: SESSION_AND_MEDIA_CONNECTION_SECTIONS,
        edited: SESSION_AND_MEDIA_CONNECTION_EDITED,
    },
    Case {
        text: TWO_SESSION_CONNECTIONS,
        address: PROXY,
        replace_origin: false,
        replace_session: true,
        sections: TWO_SESSION_CONNECTIONS_SECTIONS,
        edited: TWO_SESSION_CONNECTIONS_EDITED,
    },
    Case {
        text: TWO_SESSION_CONNECTIONS_KEPT,
        address: PROXY,
        replace_origin: true,
        replace_session: false,
        sections: TWO_SESSION_CONNECTIONS_KEPT_SECTIONS,
        edited: TWO_SESSION_CONNECTIONS_KEPT_EDITED,
    },
    Case {
        text: RTCP_PORT_AND_ADDRESS,
        address: PROXY,
        replace_origin: false,
        replace_session: false,
        sections: RTCP_PORT_AND_ADDRESS_SECTIONS,
        edited: RTCP_PORT_AND_ADDRESS_EDITED,
    },
    Case {
        text: RTCP_PORT_ALONE,
        address: PROXY,
        replace_origin: false,
        replace_session: false,
        sections: RTCP_PORT_ALONE_SECTIONS,
        edited: RTCP_PORT_ALONE_EDITED,
    },
    Case {
        text: RTCP_WITHOUT_A_PORT,
        address: PROXY,
        replace_origin: false,
        replace_session: false,
        sections: RTCP_WITHOUT_A_PORT_SECTIONS,
        edited: RTCP_WITHOUT_A_PORT_EDITED,
    },
];

pub(crate) const TITLES_AND_PROTOCOLS: &[Case] = &[
    Case {
        text: LF_ENDS,
        address: PROXY,
        replace_origin: false,
        replace_session: false,
        sections: LF_ENDS_SECTIONS,
        edited: LF_ENDS_EDITED,
    },
    Case {
        text: NO_FINAL_END,
        address: PROXY,
        replace_origin: false,
        replace_session: false,
        sections: NO_FINAL_END_SECTIONS,
        edited: NO_FINAL_END_EDITED,
    },
    Case {
        text: MIXED_ENDS_AND_EMPTY_LINES_AT_THE_END,
        address: PROXY,
        replace_origin: false,
        replace_session: false,
        sections: MIXED_ENDS_AND_EMPTY_LINES_AT_THE_END_SECTIONS,
        edited: MIXED_ENDS_AND_EMPTY_LINES_AT_THE_END_EDITED,
    },
    Case {
        text: TITLE_OF_A_SECTION,
        address: PROXY,
        replace_origin: false,
        replace_session: false,
        sections: TITLE_OF_A_SECTION_SECTIONS,
        edited: TITLE_OF_A_SECTION_EDITED,
    },
    Case {
        text: TWO_TITLES_AND_A_LATER_ONE,
        address: PROXY,
        replace_origin: false,
        replace_session: false,
        sections: TWO_TITLES_AND_A_LATER_ONE_SECTIONS,
        edited: TWO_TITLES_AND_A_LATER_ONE_EDITED,
    },
    Case {
        text: TITLE_AND_CONNECTION,
        address: PROXY,
        replace_origin: false,
        replace_session: false,
        sections: TITLE_AND_CONNECTION_SECTIONS,
        edited: TITLE_AND_CONNECTION_EDITED,
    },
    Case {
        text: TITLE_OF_THE_SESSION,
        address: PROXY,
        replace_origin: false,
        replace_session: true,
        sections: TITLE_OF_THE_SESSION_SECTIONS,
        edited: TITLE_OF_THE_SESSION_EDITED,
    },
    Case {
        text: TITLE_AT_THE_END,
        address: PROXY,
        replace_origin: false,
        replace_session: false,
        sections: TITLE_AT_THE_END_SECTIONS,
        edited: TITLE_AT_THE_END_EDITED,
    },
    Case {
        text: NUMBER_OF_PORTS,
        address: PROXY,
        replace_origin: false,
        replace_session: false,
        sections: NUMBER_OF_PORTS_SECTIONS,
        edited: NUMBER_OF_PORTS_EDITED,
    },
];

pub(crate) const FAMILIES_AND_NAMES: &[Case] = &[
    Case {
        text: FAX_BESIDE_AUDIO,
        address: PROXY,
        replace_origin: false,
        replace_session: false,
        sections: FAX_BESIDE_AUDIO_SECTIONS,
        edited: FAX_BESIDE_AUDIO_EDITED,
    },
    Case {
        text: FAX_BEFORE_AUDIO,
        address: PROXY,
        replace_origin: false,
        replace_session: false,
        sections: FAX_BEFORE_AUDIO_SECTIONS,
        edited: FAX_BEFORE_AUDIO_EDITED,
    },
    Case {
        text: REJECTED_VIDEO,
        address: PROXY,
        replace_origin: false,
        replace_session: false,
        sections: REJECTED_VIDEO_SECTIONS,
        edited: REJECTED_VIDEO_EDITED,
    },
    Case {
        text: IPV6_DESCRIPTION,
        address: PROXY,
        replace_origin: true,
        replace_session: true,
        sections: IPV6_DESCRIPTION_SECTIONS,
        edited: IPV6_DESCRIPTION_EDITED,
    },
    Case {
        text: IPV6_PROXY,
        address: PROXY_IPV6,
        replace_origin: true,
        replace_session: true,
        sections: IPV6_PROXY_SECTIONS,
        edited: IPV6_PROXY_EDITED,
    },
    Case {
        text: A_FAMILY_FOR_EACH_SECTION,
        address: PROXY,
        replace_origin: false,
        replace_session: false,
        sections: A_FAMILY_FOR_EACH_SECTION_SECTIONS,
        edited: A_FAMILY_FOR_EACH_SECTION_EDITED,
    },
    Case {
        text: HOLD,
        address: PROXY,
        replace_origin: false,
        replace_session: true,
        sections: HOLD_SECTIONS,
        edited: HOLD_EDITED,
    },
    Case {
        text: LOOK_ALIKES_STAY,
        address: PROXY,
        replace_origin: false,
        replace_session: false,
        sections: LOOK_ALIKES_STAY_SECTIONS,
        edited: LOOK_ALIKES_STAY_EDITED,
    },
    Case {
        text: ATTRIBUTES_WITHOUT_VALUES,
        address: PROXY,
        replace_origin: false,
        replace_session: false,
        sections: ATTRIBUTES_WITHOUT_VALUES_SECTIONS,
        edited: ATTRIBUTES_WITHOUT_VALUES_EDITED,
    },
    Case {
        text: SHARED_PORTS,
        address: PROXY,
        replace_origin: false,
        replace_session: false,
        sections: SHARED_PORTS_SECTIONS,
        edited: SHARED_PORTS_EDITED,
    },
];

pub(crate) const ORDERS_AND_SIZES: &[Case] = &[
    Case {
        text: FEEDBACK_UNDER_ANOTHER_PROTOCOL,
        address: PROXY,
        replace_origin: false,
        replace_session: false,
        sections: FEEDBACK_UNDER_ANOTHER_PROTOCOL_SECTIONS,
        edited: FEEDBACK_UNDER_ANOTHER_PROTOCOL_EDITED,
    },
    Case {
        text: FEEDBACK_BEFORE_THE_FIRST_SECTION,
        address: PROXY,
        replace_origin: false,
        replace_session: false,
        sections: FEEDBACK_BEFORE_THE_FIRST_SECTION_SECTIONS,
        edited: FEEDBACK_BEFORE_THE_FIRST_SECTION_EDITED,
    },
    Case {
        text: A_SECOND_ORIGIN_STAYS,
        address: PROXY,
        replace_origin: true,
        replace_session: false,
        sections: A_SECOND_ORIGIN_STAYS_SECTIONS,
        edited: A_SECOND_ORIGIN_STAYS_EDITED,
    },
    Case {
        text: FORMATS_STAY_AS_THEY_ARE,
        address: PROXY,
        replace_origin: false,
        replace_session: false,
        sections: FORMATS_STAY_AS_THEY_ARE_SECTIONS,
        edited: FORMATS_STAY_AS_THEY_ARE_EDITED,
    },
    Case {
        text: NO_SECTION,
        address: PROXY,
        replace_origin: true,
        replace_session: true,
        sections: NO_SECTION_SECTIONS,
        edited: NO_SECTION_EDITED,
    },
    Case {
        text: KEYS_AT_THE_END_OF_EACH_SECTION,
        address: PROXY,
        replace_origin: false,
        replace_session: false,
        sections: KEYS_AT_THE_END_OF_EACH_SECTION_SECTIONS,
        edited: KEYS_AT_THE_END_OF_EACH_SECTION_EDITED,
    },
    Case {
        text: EIGHT_SECTIONS,
        address: PROXY,
        replace_origin: false,
        replace_session: false,
        sections: EIGHT_SECTIONS_SECTIONS,
        edited: EIGHT_SECTIONS_EDITED,
    },
    Case {
        text: A_LINE_OF_A_THOUSAND_BYTES,
        address: PROXY,
        replace_origin: false,
        replace_session: false,
        sections: A_LINE_OF_A_THOUSAND_BYTES_SECTIONS,
        edited: A_LINE_OF_A_THOUSAND_BYTES_EDITED,
    },
    Case {
        text: A_HUNDRED_LINES_IN_A_SECTION,
        address: PROXY,
        replace_origin: false,
        replace_session: false,
        sections: A_HUNDRED_LINES_IN_A_SECTION_SECTIONS,
        edited: A_HUNDRED_LINES_IN_A_SECTION_EDITED,
    },
];
