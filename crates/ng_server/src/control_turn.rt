//! How a control turn ends.

/// How a control turn ended.
#[derive(Clone, Copy, PartialEq, Eq, Debug)]
pub enum ControlTurn {
    /// A reply was sent.
    Replied,
    /// The datagram has no frame: it gets no reply.
    Silent,
    /// The link had nothing at this call.
    Nothing,
    /// The link gives no more.
    End,
    /// The take failed.
    ReadFault,
    /// The send of the reply failed. The command and its kept reply stand.
    ReplyFault,
}
