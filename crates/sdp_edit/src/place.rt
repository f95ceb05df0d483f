//! What the lines before a line say of it.

ghost use Rattle.std.specs.Prelude.{◌≡◌, ◌-◌, ◌<◌, ◌^◌, [], List, ℕ, ◌∷◌};
ghost use Rattle.sdp_text.specs.Roles.{is_media, is_connection, is_origin};
ghost use Rattle.sdp_edit.specs.Places.{line_place, is_title};

/// What the lines before a line, or up to it, say of the place where it stands.
#[derive(Clone, Copy)]
pub(crate) struct Place {
    /// How many `m=` lines there were: the number of the section, and 0 before the first one.
    pub(crate) section: usize,
    /// Whether a `c=` line stood there since the last `m=` line.
    pub(crate) has_connection: bool,
    /// Whether an `o=` line stood there.
    pub(crate) has_origin: bool,
    /// Whether nothing but `i=` lines stood there since the last `m=` line.
    pub(crate) is_head: bool,
}

pub(crate) fn is_media(line: &[u8]) -> bool
    ensures { result ≡ is_media line.now }
{
    line.starts_with(b"m=")
}

pub(crate) fn is_connection(line: &[u8]) -> bool
    ensures { result ≡ is_connection line.now }
{
    line.starts_with(b"c=")
}

pub(crate) fn is_origin(line: &[u8]) -> bool
    ensures { result ≡ is_origin line.now }
{
    line.starts_with(b"o=")
}

pub(crate) fn is_title(line: &[u8]) -> bool
    ensures { result ≡ is_title line.now }
{
    line.starts_with(b"i=")
}

impl Place {
    /// The place of the first line.
    #[tactic(auto, unfolding(crate::specs::Places::line_place))]
    pub(crate) fn start() -> Place
        ensures { result ≡ line_place [] }
    {
        Place {
            section: 0,
            has_connection: false,
            has_origin: false,
            is_head: true,
        }
    }

    /// The place after a line.
    pub(crate) fn after(self, line: &[u8]) -> Place
        requires { self.section < 2 ^ 64 - 1 }
        ensures { (before : List (List ℕ)) → self ≡ line_place before → result ≡ line_place (line.now ∷ before) }
    {
        let has_origin = is_origin(line) | self.has_origin;
        if is_media(line) {
            Place {
                section: self.section + 1,
                has_connection: false,
                has_origin,
                is_head: true,
            }
        } else {
            Place {
                section: self.section,
                has_connection: is_connection(line) | self.has_connection,
                has_origin,
                is_head: is_title(line) & self.is_head,
            }
        }
    }
}
