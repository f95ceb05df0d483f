use crate::answers::Failed;

/// A master key of 16 bytes and after it the master salt of 14, as a crypto line carries them (RFC 4568 section 6.1, RFC 3711 section 8.2).
pub type KeyAndSalt = [u8; 30];

/// A draw from a key source.
#[derive(Drop)]
pub enum KeyCall {
    /// A master key with its salt.
    Drawn {
        /// The key and the salt.
        key: KeyAndSalt,
    },
    /// The draw failed.
    Failed,
}

/// The source of master keys and salts.
pub trait KeySource {
    ghost use Rattle.std.specs.Prelude.{ℕ, Option, List};
    ghost use Rattle.relay_outside.specs.DeviceLogs.{Gains, HasCause};
    ghost use Rattle.relay_outside.specs.Keys.{drawn_as};
    ghost use Rattle.relay_outside.specs.declared.keys.KeyCall.{KeyCall};

    /// The draws since the source was made, where it logs them.
    ghost log: { Self → Option (List KeyCall) };

    /// The count of faults.
    ghost faults: { Self → ℕ };

    /// Draws a master key and its salt.
    fn draw(&mut self) -> Result<KeyAndSalt, Failed>
        ensures log { Gains (log self.old) (log self.new) (drawn_as result) }
        ensures cause { HasCause (faults self.old) (faults self.new) result };
}
