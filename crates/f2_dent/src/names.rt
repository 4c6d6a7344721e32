// The names in directories.
use std::marker::Model;

/// A name of 1 to 255 bytes.
#[derive(Clone, Copy, Debug, PartialEq, Eq)]
pub struct Name {
    // zeros behind the name
    bytes: [u8; 255],
    len: u8,
}

impl Model for Name {
    ghost use Rattle.std.specs.Prelude.{ℕ, List, take, length};
    ghost use Rattle.std.proofs.Common.{sym};
    ghost use Rattle.f2_dent.specs.Names.{IsHeld, held_bytes};

    ghost Value = { List ℕ };

    ghost view = { λ n. take n.len n.bytes };

    ghost invariant = { λ n. IsHeld n.bytes n.len };

    ghost inverse = { λ name. record { bytes = held_bytes name; len = length name } };

    ghost inverse_ok = { λ n held i. record { bytes = sym held.rest i; len = held.length i } };
}

impl Name {
    ghost use Rattle.std.specs.Prelude.{◌≡◌, ◌&&◌, if◌then◌else◌, length, nat_le, Some, None};
    ghost use Rattle.f2_dent.specs.Names.{IsName};

    /// The name with these bytes, where there are 1 to 255 of them.
    pub fn new(bytes: &[u8]) -> Option<Name>
        ensures { result ≡ (if nat_le 1 (length bytes.now) && nat_le (length bytes.now) 255 then Some bytes.now else None) }
    {
        if bytes.is_empty() || bytes.len() > 255 {
            return None;
        }
        let mut held = [0; 255];
        held[..bytes.len()].copy_from_slice(bytes);
        Some(Name {
            bytes: held,
            len: bytes.len() as u8,
        })
    }

    /// The bytes.
    pub fn bytes(&self) -> &[u8]
        ensures same { result.now ≡ self.now }
        ensures name { IsName self.now }
    {
        &self.bytes[..usize::from(self.len)]
    }
}
