//! Which attributes are removed.

ghost use Rattle.std.specs.Prelude.{◌≡◌, ◌==◌, drop, ◌≤◌, length};
ghost use Rattle.std.specs.List.{list_any, before_first};
ghost use Rattle.std.specs.Str.{bytes_eq};
ghost use Rattle.sdp_edit.specs.Attributes.{is_attribute, attribute_name, ice_names, key_names, port_names, is_removed_name, is_removed, is_mux_attribute, is_feedback};

// How many bytes stand before the first colon.
fn name_length(text: &[u8]) -> usize
    ensures length { result ≡ length (before_first (λ byte. byte == 58) text.now) }
    ensures within { result ≤ length text.now }
{
    text.iter().take_while(|byte| **byte != b':').count()
}

// The name of an attribute, without its value.
fn attribute_name(line: &[u8]) -> &[u8]
    requires { 2 ≤ length line.now }
    ensures { result.now ≡ attribute_name line.now }
{
    let text = &line[2..];
    &text[..name_length(text)]
}

fn is_ice_name(name: &[u8]) -> bool
    ensures { result ≡ list_any (bytes_eq name.now) ice_names }
{
    name == b"candidate".as_slice()
        || name == b"remote-candidates".as_slice()
        || name == b"ice-ufrag".as_slice()
        || name == b"ice-pwd".as_slice()
        || name == b"ice-options".as_slice()
        || name == b"ice-lite".as_slice()
}

fn is_key_name(name: &[u8]) -> bool
    ensures { result ≡ list_any (bytes_eq name.now) key_names }
{
    name == b"fingerprint".as_slice() || name == b"setup".as_slice() || name == b"crypto".as_slice()
}

fn is_port_name(name: &[u8]) -> bool
    ensures { result ≡ list_any (bytes_eq name.now) port_names }
{
    name == b"rtcp".as_slice() || name == b"group".as_slice()
}

fn is_removed_name(name: &[u8]) -> bool
    ensures { result ≡ is_removed_name name.now }
{
    is_ice_name(name) || is_key_name(name) || is_port_name(name)
}

/// Whether the line is an attribute that is removed wherever it stands.
#[tactic(auto, unfolding(crate::specs::Attributes::is_removed))]
pub(crate) fn is_removed(line: &[u8]) -> bool
    ensures { result ≡ is_removed line.now }
{
    line.starts_with(b"a=") && is_removed_name(attribute_name(line))
}

/// Whether the line is an attribute `rtcp-mux`, with a value or without one.
#[tactic(auto, unfolding(crate::specs::Attributes::is_mux_attribute))]
pub(crate) fn is_mux_attribute(line: &[u8]) -> bool
    ensures { result ≡ is_mux_attribute line.now }
{
    line.starts_with(b"a=") && attribute_name(line) == b"rtcp-mux".as_slice()
}

/// Whether the line is an attribute of early feedback.
#[tactic(auto, unfolding(crate::specs::Attributes::is_feedback))]
pub(crate) fn is_feedback(line: &[u8]) -> bool
    ensures { result ≡ is_feedback line.now }
{
    line.starts_with(b"a=") && attribute_name(line) == b"rtcp-fb".as_slice()
}
