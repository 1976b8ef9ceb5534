//! Copies of names, paths and types: the walk goes over a tree that it only reads.
ghost use Rattle.std.specs.Prelude.{◌≡◌, IfOk};

use p4_ast::{P4Field, P4Left, P4Name, P4Path, P4Type};
use rp_base::NoMemory;
use sqlite_items::Items;
use std::alloc::Global;

/// An equal name.
///
/// # Errors
/// `NoMemory`.
pub fn name_copy(x: &P4Name) -> Result<P4Name, NoMemory>
    ensures { IfOk result (λ c. c ≡ x.now) }
{
    Ok(P4Name {
        at: x.at,
        text: x.text.copy()?,
    })
}

/// Equal names.
///
/// # Errors
/// `NoMemory`.
pub fn names_copy(alloc: Global, xs: &[P4Name]) -> Result<Items<P4Name>, NoMemory>
    ensures { IfOk result (λ c. c ≡ xs.now) }
{
    let mut names = Items::new(alloc);
    for x in xs {
        names.push(name_copy(x)?)?;
    }
    Ok(names)
}

/// An equal path.
///
/// # Errors
/// `NoMemory`.
pub fn path_copy(alloc: Global, p: &P4Path) -> Result<P4Path, NoMemory>
    ensures { IfOk result (λ c. c ≡ p.now) }
{
    Ok(P4Path {
        at: p.at,
        names: names_copy(alloc, p.names.as_slice())?,
    })
}

/// An equal type.
///
/// # Errors
/// `NoMemory`.
pub fn type_copy(t: &P4Type) -> Result<P4Type, NoMemory>
    ensures { IfOk result (λ c. c ≡ t.now) }
{
    match t {
        P4Type::Bit { at, width } => Ok(P4Type::Bit {
            at: *at,
            width: *width,
        }),
        P4Type::Bool { at } => Ok(P4Type::Bool { at: *at }),
        P4Type::Name { at, name } => Ok(P4Type::Name {
            at: *at,
            name: name_copy(name)?,
        }),
        P4Type::StdT { at } => Ok(P4Type::StdT { at: *at }),
    }
}

/// An equal left side.
///
/// # Errors
/// `NoMemory`.
pub fn left_copy(alloc: Global, l: &P4Left) -> Result<P4Left, NoMemory>
    ensures { IfOk result (λ c. c ≡ l.now) }
{
    Ok(P4Left {
        at: l.at,
        path: path_copy(alloc, &l.path)?,
        slice: l.slice,
    })
}

fn field_copy(f: &P4Field) -> Result<P4Field, NoMemory>
    ensures { IfOk result (λ c. c ≡ f.now) }
{
    let name = name_copy(&f.name)?;
    Ok(P4Field {
        at: f.at,
        type_: type_copy(&f.type_)?,
        name,
    })
}

/// Equal fields.
///
/// # Errors
/// `NoMemory`.
pub fn fields_copy(alloc: Global, fs: &[P4Field]) -> Result<Items<P4Field>, NoMemory>
    ensures { IfOk result (λ c. c ≡ fs.now) }
{
    let mut fields = Items::new(alloc);
    for f in fs {
        fields.push(field_copy(f)?)?;
    }
    Ok(fields)
}
