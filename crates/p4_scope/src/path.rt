//! Paths: what a name with fields behind it stands for.
ghost use Rattle.std.specs.Prelude.{◌≡◌, bytes_eq};
ghost use Rattle.std.specs.Map.{lookup};
ghost use Rattle.p4_scope.specs.Scopes.{find};
ghost use Rattle.p4_scope.specs.Paths.{fields_of, field, std_fields, behind, value_kind, path_kind, root, is_fixed, header_path};

use crate::kind::Kind;
use crate::refusal::{earlier, fault};
use crate::scope::Scope;
use crate::thing::Thing;
use p4_ast::{P4Name, P4Path};
use rp_base::{Refused, Why};

fn std_field(x: &[u8]) -> Option<Kind>
    ensures { result ≡ lookup (bytes_eq x.now) std_fields }
{
    if x == b"in_port".as_slice() || x == b"out_port".as_slice() {
        Some(Kind::Bits(16))
    } else if x == b"drop".as_slice() {
        Some(Kind::Bits(1))
    } else {
        None
    }
}

/// Whether it has a value that isn't written.
pub fn is_fixed(t: Option<Thing>) -> bool
    ensures { result ≡ is_fixed t }
{
    match t {
        Some(Thing::Const(_, _)) => true,
        Some(Thing::Param(_)) => true,
        _ => false,
    }
}

impl Scope {
    fn field_of(&self, n: u64, x: &P4Name) -> Option<Kind>
        ensures { result ≡ lookup (bytes_eq x.now.text) (fields_of self.now n) }
    {
        match self.records.get(n as usize) {
            None => None,
            Some(r) => r.fields.find(x.text.as_slice()),
        }
    }

    // A field of what has this kind.
    fn field(&self, k: Kind, x: &P4Name) -> (Option<Refused>, Kind)
        ensures { result ≡ field k x.now self.now }
    {
        let found = match k {
            Kind::Failed => {
                return (None, Kind::Failed);
            }
            Kind::Header(n) => self.field_of(n, x),
            Kind::Struct(n) => self.field_of(n, x),
            Kind::Std => std_field(x.text.as_slice()),
            _ => None,
        };
        match found {
            Some(k) => (None, k),
            None => (fault(Why::Unknown, x.at), Kind::Failed),
        }
    }

    fn behind(&self, f: Option<Refused>, k: Kind, names: &[P4Name]) -> (Option<Refused>, Kind)
        ensures { result ≡ behind (f, k) names.now self.now }
    {
        let mut f = f;
        let mut k = k;
        for x in names {
            let (g, j) = self.field(k, x);
            f = earlier(f, g);
            k = j;
        }
        (f, k)
    }

    fn value_kind(&self, x: &P4Name) -> (Option<Refused>, Kind)
        ensures { result ≡ value_kind x.now (find x.now.text self.now) }
    {
        match self.find(x) {
            None => (fault(Why::Unknown, x.at), Kind::Failed),
            Some(Thing::Const(k, _)) => (None, k),
            Some(Thing::Var(k)) => (None, k),
            Some(Thing::Param(k)) => (None, k),
            Some(_) => (fault(Why::Kind, x.at), Kind::Failed),
        }
    }

    /// The kind of a path.
    pub fn path_kind(&self, p: &P4Path) -> (Option<Refused>, Kind)
        ensures { result ≡ path_kind p.now self.now }
    {
        let names = p.names.as_slice();
        match names {
            [] => (fault(Why::Unknown, p.at), Kind::Failed),
            [x, rest @ ..] => {
                let (f, k) = self.value_kind(x);
                self.behind(f, k, rest)
            }
        }
    }

    /// What the first name of a path stands for.
    pub fn root(&self, p: &P4Path) -> Option<Thing>
        ensures { result ≡ root p.now.names self.now }
    {
        match p.names.as_slice() {
            [] => None,
            [x, ..] => self.find(x),
        }
    }

    /// The fault of a path that must be a header.
    pub fn header_path(&self, p: &P4Path) -> Option<Refused>
        ensures { result ≡ header_path p.now self.now }
    {
        let (f, k) = self.path_kind(p);
        match k {
            Kind::Header(_) => f,
            Kind::Failed => f,
            _ => earlier(f, fault(Why::Kind, p.at)),
        }
    }
}
