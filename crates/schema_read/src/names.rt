// Names by which maps look things up: the case of ASCII letters does not count.
ghost use Rattle.std.specs.Prelude.{◌≡◌, fold, IfOk};
ghost use Rattle.std.specs.Cmp.{on_equiv, on_per, partial_equiv_from_equiv};
ghost use Rattle.std.specs.Cmp.Lexicographic.{nat_list_eq_equiv};
ghost use Rattle.std.specs.Str.{str_to_ascii_lowercase};
ghost use Rattle.schema_spec.specs.Words.{same_name as same_name_of};
ghost use Rattle.schema_read.specs.Names.{hashed_name};
ghost use Rattle.schema_read.specs.NamesLaws.{hashed-alike};

use indexmap::Equivalent;
use rbu_value::Bytes;
use schema_tokens::same_name;
use std::alloc::{AllocError, Global};
use std::hash::{Hash, Hasher};
use std::marker::Model;

/// A name that a map keeps.
#[derive(Drop)]
pub(crate) struct Name {
    bytes: Bytes,
}

impl Model for Name {
    ghost use Rattle.std.specs.Prelude.{List, ℕ};

    ghost Value = { List ℕ };

    ghost view = { λ name. name.bytes };
}

impl Name {
    /// A copy of the name.
    pub fn of(alloc: Global, name: &[u8]) -> Result<Name, AllocError>
        ensures { IfOk result (λ copy. copy ≡ name.now) }
    {
        Ok(Name {
            bytes: Bytes::of(alloc, name)?,
        })
    }

    pub fn from_vec(name: Vec<u8>) -> Name
        ensures { result ≡ name.items }
    {
        Name {
            bytes: Bytes::from_vec(name),
        }
    }
}

/// A name that is only looked up, which takes no memory.
#[derive(Clone, Copy)]
pub(crate) struct NameQuery<'a> {
    pub bytes: &'a [u8],
}

// Feeds a name to a hasher, each byte in lower case.
fn hash_name<H: Hasher>(name: &[u8], state: &mut H)
    ensures { state.new ≡ fold H.write state.old (hashed_name name.now) }
{
    let mut left = name;
    while let [byte, rest @ ..] = left {
        state.write_u8(byte.to_ascii_lowercase());
        left = rest;
    }
    state.write_u8(255);
}

impl PartialEq for Name {
    ghost eq = { same_name_of };

    ghost laws = { on_per str_to_ascii_lowercase (partial_equiv_from_equiv nat_list_eq_equiv) };

    fn eq(&self, other: &Name) -> bool {
        same_name(self.bytes.as_slice(), other.bytes.as_slice())
    }
}

impl Eq for Name {
    ghost laws = { on_equiv str_to_ascii_lowercase nat_list_eq_equiv };
}

impl Hash for Name {
    ghost hash_input = { hashed_name };

    ghost respects_eq = { hashed-alike };

    fn hash<H: Hasher>(&self, state: &mut H) {
        hash_name(self.bytes.as_slice(), state);
    }
}

impl<'a> PartialEq for NameQuery<'a> {
    ghost eq = { λ x y. same_name_of x.bytes.now y.bytes.now };

    ghost laws = { on_per (λ name. str_to_ascii_lowercase name.bytes.now) (partial_equiv_from_equiv nat_list_eq_equiv) };

    fn eq(&self, other: &NameQuery<'a>) -> bool {
        same_name(self.bytes, other.bytes)
    }
}

impl<'a> Eq for NameQuery<'a> {
    ghost laws = { on_equiv (λ name. str_to_ascii_lowercase name.bytes.now) nat_list_eq_equiv };
}

impl<'a> Hash for NameQuery<'a> {
    ghost hash_input = { λ name. hashed_name name.bytes.now };

    ghost respects_eq = { λ x y. hashed-alike x.bytes.now y.bytes.now };

    fn hash<H: Hasher>(&self, state: &mut H) {
        hash_name(self.bytes, state);
    }
}

impl<'a> Equivalent<Name> for NameQuery<'a> {
    ghost equivalent = { λ query name. same_name_of query.bytes.now name };

    ghost respects_hash = { λ query name. hashed-alike query.bytes.now name };

    ghost respects_eq = { λ query x y. (on_equiv str_to_ascii_lowercase nat_list_eq_equiv).congr query.bytes.now x y };

    fn equivalent(&self, name: &Name) -> bool {
        same_name(self.bytes, name.bytes.as_slice())
    }
}
