//! Names: of stages, parameters and variables.

ghost use Rattle.std.specs.Prelude.{◌≡◌, IsTrue, IsSome, IfSome, ◌↔◌};
ghost use Rattle.std.specs.List.{list_all};
ghost use Rattle.pipe_tokens.specs.Character.{is_name_byte};
ghost use Rattle.pipe_tokens.specs.Naming.{is_identifier, is_identifier_of_name_length};

use crate::character::is_name_byte;
use std::marker::Model;
use std::{fmt, str};

/// The most bytes that a name has.
pub const MAX_NAME: usize = 32;

/// A name: a letter, then letters, digits and `_`, 1 to 32 bytes in all. Case matters.
#[derive(Clone, Copy, Debug, PartialEq, Eq, PartialOrd, Ord, Hash)]
pub struct Name {
    bytes: [u8; 32],
    len: u8,
}

impl Model for Name {
    ghost use Rattle.std.specs.Prelude.{ℕ, ◌-◌, ◌++◌, List, length, take, replicate};
    ghost use Rattle.pipe_tokens.specs.Naming.{HoldsName};
    ghost use Rattle.pipe_tokens.specs.Padding.{len_again, bytes_again};

    ghost Value = { List ℕ };

    ghost view = { λ n. take n.len n.bytes };

    ghost invariant = { λ n. HoldsName n.bytes n.len };

    ghost inverse = { λ name. record { bytes = name ++ replicate (32 - length name) 0; len = length name } };

    ghost inverse_ok = { λ n h. λ i. record { bytes = bytes_again n.bytes n.len h i; len = len_again n.bytes n.len h i } };
}

impl Name {
    /// The name that the bytes spell, if they are one.
    pub fn from_bytes(bytes: &[u8]) -> Option<Self>
        ensures named { IsSome result ↔ IsTrue (is_identifier_of_name_length bytes.now) }
        ensures same { IfSome result (λ name. name ≡ bytes.now) }
    {
        if !is_identifier_of_name_length(bytes) {
            return None;
        }
        let mut padded = [0; MAX_NAME];
        padded[..bytes.len()].copy_from_slice(bytes);
        Some(Name {
            bytes: padded,
            len: bytes.len() as u8,
        })
    }

    /// The bytes of the name.
    pub fn as_bytes(&self) -> &[u8]
        ensures bytes { result.now ≡ self.now }
        ensures name { IsTrue (is_identifier_of_name_length result.now) }
    {
        &self.bytes[..self.len as usize]
    }
}

/// The name itself.
impl fmt::Display for Name {
    ghost use Rattle.std.specs.Prelude.{Some};

    ghost output = { λ name. Some name };

    #[tactic(auto, using(crate::proofs::Shown::name_is_text))]
    fn fmt<W: fmt::Write>(&self, f: &mut fmt::Formatter<W>) -> fmt::Result {
        match str::from_utf8(self.as_bytes()) {
            Ok(text) => f.write_str(text),
            Err(_) => Ok(()),
        }
    }
}

fn is_identifier(bytes: &[u8]) -> bool
    ensures { result ≡ is_identifier bytes.now }
{
    match bytes.split_first() {
        Some((first, others)) => first.is_ascii_alphabetic() && has_only_name_bytes(others),
        None => false,
    }
}

fn has_only_name_bytes(bytes: &[u8]) -> bool
    ensures { result ≡ list_all is_name_byte bytes.now }
{
    bytes.iter().all(|b| is_name_byte(*b))
}

fn is_identifier_of_name_length(bytes: &[u8]) -> bool
    ensures { result ≡ is_identifier_of_name_length bytes.now }
{
    is_identifier(bytes) && bytes.len() <= MAX_NAME
}
