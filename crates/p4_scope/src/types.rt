//! Types: the kinds that they stand for.
ghost use Rattle.std.specs.Prelude.{◌≡◌};
ghost use Rattle.p4_scope.specs.Types.{is_width, name_kind, type_place, type_kind, plain, plain_kind, bits};

use crate::kind::Kind;
use crate::refusal::{earlier, fault};
use crate::scope::Scope;
use crate::thing::Thing;
use p4_ast::{P4Name, P4Type};
use rp_base::{Refused, Why};

/// Whether bits may have this width.
pub fn is_width(w: u128) -> bool
    ensures { result ≡ is_width w }
{
    1 <= w && w <= 128
}

fn plain(at: u64, f: Option<Refused>, k: Kind) -> (Option<Refused>, Kind)
    ensures { result ≡ plain at f k }
{
    match k {
        Kind::Header(_) => (earlier(f, fault(Why::Kind, at)), Kind::Failed),
        Kind::Struct(_) => (earlier(f, fault(Why::Kind, at)), Kind::Failed),
        Kind::Std => (earlier(f, fault(Why::Kind, at)), Kind::Failed),
        k => (f, k),
    }
}

/// A kind that must be bits, or fails at this place.
pub fn bits(at: u64, f: Option<Refused>, k: Kind) -> (Option<Refused>, Kind)
    ensures { result ≡ bits at f k }
{
    match k {
        Kind::Bits(w) => (f, Kind::Bits(w)),
        Kind::Failed => (f, Kind::Failed),
        _ => (earlier(f, fault(Why::Kind, at)), Kind::Failed),
    }
}

/// The place of a type.
pub fn type_place(t: &P4Type) -> u64
    ensures { result ≡ type_place t.now }
{
    match t {
        P4Type::Bit { at, .. } => *at,
        P4Type::Bool { at } => *at,
        P4Type::Name { at, .. } => *at,
        P4Type::StdT { at } => *at,
    }
}

impl Scope {
    /// The kind that a type's name stands for.
    pub fn name_kind(&self, x: &P4Name) -> (Option<Refused>, Kind)
        ensures { result ≡ name_kind x.now self.now }
    {
        match self.find(x) {
            None => (fault(Why::Unknown, x.at), Kind::Failed),
            Some(Thing::Type(k)) => (None, k),
            Some(_) => (fault(Why::Kind, x.at), Kind::Failed),
        }
    }

    /// The kind that a type stands for.
    pub fn type_kind(&self, t: &P4Type) -> (Option<Refused>, Kind)
        ensures { result ≡ type_kind t.now self.now }
    {
        match t {
            P4Type::Bit { width, .. } => {
                if is_width(width.value) {
                    (None, Kind::Bits(width.value as u8))
                } else {
                    (fault(Why::Width, width.at), Kind::Failed)
                }
            }
            P4Type::Bool { .. } => (None, Kind::Bool),
            P4Type::Name { name, .. } => self.name_kind(name),
            P4Type::StdT { .. } => (None, Kind::Std),
        }
    }

    /// The kind of a variable, a constant or an action's parameter, which fails at this place where it is neither bits nor bool.
    pub fn plain_kind(&self, at: u64, t: &P4Type) -> (Option<Refused>, Kind)
        ensures { result ≡ plain_kind at t.now self.now }
    {
        let (f, k) = self.type_kind(t);
        plain(at, f, k)
    }
}
