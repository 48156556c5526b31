//! Addresses among the words.

ghost use Rattle.std.specs.Prelude.{◌≡◌, ◌↔◌, IsTrue};
ghost use Rattle.command_words.specs.Addresses.{SpellsAddress, is_address};

use std::net::SocketAddr;

/// Whether a text spells an IP address and a port.
pub fn is_address(text: &[u8]) -> bool
    ensures exact { result ≡ is_address text.now }
    ensures value { IsTrue result ↔ SpellsAddress text.now }
{
    SocketAddr::parse_ascii(text).is_ok()
}
