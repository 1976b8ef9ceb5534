//! Parameters of the parser and of the two controls.
ghost use Rattle.std.specs.Prelude.{◌≡◌, OnOk};
ghost use Rattle.p4_scope.specs.Params.{struct_by, struct_kind, same_by, same_param, may_hold, holding_fault, parser_param};

use crate::kind::Kind;
use crate::refusal::{earlier, fault, fault_if};
use crate::scope::{Record, Scope};
use crate::thing::Thing;
use p4_ast::{P4Name, P4Param};
use rp_base::{NoMemory, Refused, Why};
use std::alloc::Global;

fn struct_by(at: u64, f: Option<Refused>, k: Kind) -> (Option<Refused>, Kind)
    ensures { result ≡ struct_by at f k }
{
    match k {
        Kind::Struct(n) => (f, Kind::Struct(n)),
        Kind::Failed => (f, Kind::Failed),
        _ => (earlier(f, fault(Why::Kind, at)), Kind::Failed),
    }
}

fn same_by(at: u64, j: Kind, k: Kind) -> Option<Refused>
    ensures { result ≡ same_by at j k }
{
    match (j, k) {
        (Kind::Struct(n), Kind::Struct(m)) => fault_if(n != m, Why::Kind, at),
        _ => None,
    }
}

fn may_hold(of_headers: bool, r: &Record) -> bool
    ensures { result ≡ may_hold of_headers r.now }
{
    if of_headers {
        r.only_headers
    } else {
        !r.has_header
    }
}

impl Scope {
    /// The kind of a parameter, which must be a structure.
    pub fn struct_kind(&self, x: &P4Name) -> (Option<Refused>, Kind)
        ensures { result ≡ struct_kind x.now self.now }
    {
        let (f, k) = self.name_kind(x);
        struct_by(x.at, f, k)
    }

    fn holding_fault(&self, of_headers: bool, k: Kind) -> Option<Refused>
        ensures { result ≡ holding_fault of_headers k self.now }
    {
        let Kind::Struct(n) = k else {
            return None;
        };
        match self.records.get(n as usize) {
            None => None,
            Some(r) => fault_if(!may_hold(of_headers, r), Why::Kind, r.at),
        }
    }
}

/// A parameter of a control, which must be the structure of the parser's.
///
/// # Errors
/// `NoMemory`.
pub fn same_param(alloc: Global, want: Kind, p: &P4Param, s: &mut Scope) -> Result<(), NoMemory>
    ensures { OnOk result (s.new ≡ same_param want p.now s.old) }
{
    let (f, k) = s.struct_kind(&p.type_);
    s.note(earlier(f, same_by(p.type_.at, want, k)));
    s.declare(alloc, &p.name, Thing::Var(k))
}

/// A parameter of the parser: the structure of headers, or that of metadata.
///
/// # Errors
/// `NoMemory`.
pub fn parser_param(
    alloc: Global,
    of_headers: bool,
    p: &P4Param,
    s: &mut Scope,
) -> Result<(), NoMemory>
    ensures { OnOk result (s.new ≡ parser_param of_headers p.now s.old) }
{
    let (f, k) = s.struct_kind(&p.type_);
    let g = s.holding_fault(of_headers, k);
    s.note(earlier(f, g));
    s.declare(alloc, &p.name, Thing::Var(k))
}
