//! Copies of parameters, deparsers and packages.
ghost use Rattle.std.specs.Prelude.{◌≡◌, IfOk};

use p4_ast::{P4Deparser, P4Emit, P4Package, P4Param};
use p4_scope::copy::{name_copy, path_copy};
use rp_base::NoMemory;
use sqlite_items::{Boxed, Items};
use std::alloc::Global;

/// An equal parameter.
///
/// # Errors
/// `NoMemory`.
pub fn param_copy(alloc: Global, p: &P4Param) -> Result<Boxed<P4Param>, NoMemory>
    ensures { IfOk result (λ c. c ≡ p.now) }
{
    let type_ = name_copy(&p.type_)?;
    let name = name_copy(&p.name)?;
    let copied = P4Param {
        at: p.at,
        type_,
        name,
    };
    Ok(Boxed::new(alloc, copied)?)
}

fn emit_copy(alloc: Global, e: &P4Emit) -> Result<P4Emit, NoMemory>
    ensures { IfOk result (λ c. c ≡ e.now) }
{
    let name = name_copy(&e.name)?;
    Ok(P4Emit {
        at: e.at,
        name,
        path: path_copy(alloc, &e.path)?,
    })
}

fn emits_copy(alloc: Global, xs: &[P4Emit]) -> Result<Items<P4Emit>, NoMemory>
    ensures { IfOk result (λ c. c ≡ xs.now) }
{
    let mut copies = Items::new(alloc);
    for x in xs {
        copies.push(emit_copy(alloc, x)?)?;
    }
    Ok(copies)
}

/// An equal deparser.
///
/// # Errors
/// `NoMemory`.
pub fn deparser_copy(alloc: Global, d: &P4Deparser) -> Result<Boxed<P4Deparser>, NoMemory>
    ensures { IfOk result (λ c. c ≡ d.now) }
{
    let name = name_copy(&d.name)?;
    let packet = name_copy(&d.packet)?;
    let headers = param_copy(alloc, &d.headers)?;
    let emits = emits_copy(alloc, d.emits.as_slice())?;
    let copied = P4Deparser {
        at: d.at,
        name,
        packet,
        headers: headers.into_inner(),
        emits,
    };
    Ok(Boxed::new(alloc, copied)?)
}

/// An equal package.
///
/// # Errors
/// `NoMemory`.
pub fn package_copy(k: &P4Package) -> Result<P4Package, NoMemory>
    ensures { IfOk result (λ c. c ≡ k.now) }
{
    let parser = name_copy(&k.parser)?;
    let ingress = name_copy(&k.ingress)?;
    Ok(P4Package {
        at: k.at,
        parser,
        ingress,
        deparser: name_copy(&k.deparser)?,
    })
}
