//! Headers, structures and typedefs.
ghost use Rattle.std.specs.Prelude.{◌≡◌, [], OnOk, IfOk};
ghost use Rattle.std.specs.List.{list_all, list_any};
ghost use Rattle.p4_scope.specs.Types.{no_fields, add_field, header_fields, struct_fields, total, is_header_width, is_odd, is_header, has_header, header, struct_, typedef};

use crate::kind::Kind;
use crate::named::Named;
use crate::refusal::{earlier, fault_if};
use crate::scope::{Record, Scope};
use crate::thing::Thing;
use crate::types::bits;
use p4_ast::{P4Field, P4Header, P4Name, P4Struct, P4Typedef};
use rp_base::{NoMemory, Refused, Why};
use std::alloc::Global;
use std::marker::Model;

/// The fields so far: their first fault, their kinds by name, and the kinds of all, also of those with a name of before.
#[derive(Drop)]
pub struct Fields {
    fault: Option<Refused>,
    named: Named<Kind>,
    kinds: Vec<Kind>,
}

impl Model for Fields {
    ghost use Rattle.p4_scope.specs.Types.{Fields as FieldsValue};

    ghost Value = { FieldsValue };

    ghost view = { λ f. record { fault = f.fault; named = f.named; kinds = f.kinds.items } };
}

impl Fields {
    fn new(alloc: Global) -> Fields
        ensures { result ≡ no_fields }
    {
        Fields {
            fault: None,
            named: Named::new(alloc),
            kinds: Vec::new(alloc),
        }
    }

    fn add(
        &mut self,
        alloc: Global,
        x: &P4Name,
        f: Option<Refused>,
        k: Kind,
    ) -> Result<(), NoMemory>
        ensures { OnOk result (self.new ≡ add_field x.now (f, k) self.old) }
    {
        let twice = self.named.find(x.text.as_slice()).is_some();
        if !twice {
            self.named.add(alloc, x.text.as_slice(), k)?;
        }
        self.fault = earlier(earlier(self.fault, f), fault_if(twice, Why::Twice, x.at));
        self.kinds.push(k)?;
        Ok(())
    }
}

fn header_fields(alloc: Global, fields: &[P4Field], s: &Scope) -> Result<Fields, NoMemory>
    ensures { IfOk result (λ r. r ≡ header_fields fields.now s.now no_fields) }
{
    let mut fs = Fields::new(alloc);
    for field in fields {
        let (f, k) = s.type_kind(&field.type_);
        let (f, k) = bits(field.at, f, k);
        fs.add(alloc, &field.name, f, k)?;
    }
    Ok(fs)
}

fn struct_fields(alloc: Global, fields: &[P4Field], s: &Scope) -> Result<Fields, NoMemory>
    ensures { IfOk result (λ r. r ≡ struct_fields fields.now s.now no_fields) }
{
    let mut fs = Fields::new(alloc);
    for field in fields {
        let (f, k) = s.type_kind(&field.type_);
        fs.add(alloc, &field.name, f, k)?;
    }
    Ok(fs)
}

fn total(kinds: &[Kind]) -> Option<u128>
    ensures { result ≡ total kinds.now 0 }
{
    let mut n: u128 = 0;
    for k in kinds {
        match k {
            Kind::Bits(w) => {
                n += *w as u128;
            }
            _ => {
                return None;
            }
        }
    }
    Some(n)
}

fn is_header_width(w: u128) -> bool
    ensures { result ≡ is_header_width w }
{
    w % 8 == 0 && w <= 1024
}

fn is_odd(kinds: &[Kind]) -> bool
    ensures { result ≡ is_odd kinds.now }
{
    match total(kinds) {
        None => false,
        Some(w) => !is_header_width(w),
    }
}

fn is_header(k: Kind) -> bool
    ensures { result ≡ is_header k }
{
    match k {
        Kind::Header(_) => true,
        Kind::Failed => true,
        _ => false,
    }
}

fn all_headers(kinds: &[Kind]) -> bool
    ensures { result ≡ list_all is_header kinds.now }
{
    for k in kinds {
        if !is_header(*k) {
            return false;
        }
    }
    true
}

fn has_header(s: &Scope, k: Kind) -> bool
    ensures { result ≡ has_header s.now k }
{
    match k {
        Kind::Header(_) => true,
        Kind::Struct(n) => match s.records.get(n as usize) {
            None => false,
            Some(r) => r.has_header,
        },
        _ => false,
    }
}

fn any_header(s: &Scope, kinds: &[Kind]) -> bool
    ensures { result ≡ list_any (has_header s.now) kinds.now }
{
    for k in kinds {
        if has_header(s, *k) {
            return true;
        }
    }
    false
}

/// A header, behind which its name is visible.
///
/// # Errors
/// `NoMemory`.
pub fn header(alloc: Global, h: &P4Header, s: &mut Scope) -> Result<(), NoMemory>
    ensures { OnOk result (s.new ≡ header h.now s.old) }
{
    let Fields {
        fault,
        named,
        kinds,
    } = header_fields(alloc, h.fields.as_slice(), s)?;
    let n = s.next_record();
    s.note(earlier(fault, fault_if(is_odd(kinds.as_slice()), Why::Width, h.at)));
    s.add_record(Record {
        at: h.at,
        fields: named,
        only_headers: false,
        has_header: false,
    })?;
    s.declare(alloc, &h.name, Thing::Type(Kind::Header(n)))
}

/// A structure, behind which its name is visible.
///
/// # Errors
/// `NoMemory`.
pub fn structure(alloc: Global, t: &P4Struct, s: &mut Scope) -> Result<(), NoMemory>
    ensures { OnOk result (s.new ≡ struct_ t.now s.old) }
{
    let Fields {
        fault,
        named,
        kinds,
    } = struct_fields(alloc, t.fields.as_slice(), s)?;
    let n = s.next_record();
    let only_headers = all_headers(kinds.as_slice());
    let has_header = any_header(s, kinds.as_slice());
    s.note(fault);
    s.add_record(Record {
        at: t.at,
        fields: named,
        only_headers,
        has_header,
    })?;
    s.declare(alloc, &t.name, Thing::Type(Kind::Struct(n)))
}

/// A typedef, behind which its name is visible.
///
/// # Errors
/// `NoMemory`.
pub fn typedef(alloc: Global, t: &P4Typedef, s: &mut Scope) -> Result<(), NoMemory>
    ensures { OnOk result (s.new ≡ typedef t.now s.old) }
{
    let (f, k) = s.type_kind(&t.type_);
    s.note(f);
    s.declare(alloc, &t.name, Thing::Type(k))
}
