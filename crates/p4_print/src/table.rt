//! Keysets and tables.
ghost use Rattle.std.specs.Prelude.{◌≡◌, ◌∷◌, ◌++◌, [], OnOk};
ghost use Rattle.p4_print.specs.Text.{text, piece};
ghost use Rattle.p4_print.specs.Shared.{the, all};
ghost use Rattle.p4_print.specs.Expressions.{where_so};
ghost use Rattle.p4_print.specs.Tables.{masked_tokens, act_tokens, match_sign};
ghost use Rattle.p4_lex.specs.declared.token.Sign.TheVariants as sign;

use crate::expression::{write_args, write_operand};
use crate::shared::write_number;
use crate::written::{Written, write_all, write_listed, write_maybe};
use p4_ast::{
    P4Acts, P4Call, P4Default, P4Entries, P4Entry, P4Expr, P4Key, P4Keys, P4Keyset, P4Match,
    P4Name, P4One, P4Size, P4Table,
};
use rp_base::{Bytes, NoMemory};
use sqlite_items::Boxed;

// An expression, with its mask where it has one.
#[tactic(auto, using(crate::proofs::Steps::texts), unfolding(crate::specs::Tables::masked_tokens))]
fn write_masked(e: &P4Expr, mask: &Option<Boxed<P4Expr>>, out: &mut Bytes) -> Result<(), NoMemory>
    ensures { OnOk result (out.new ≡ out.old ++ text (masked_tokens e.now mask.now)) }
{
    match mask {
        None => e.write(out),
        Some(mask) => {
            write_operand(e, out)?;
            out.append(b"&&& ")?;
            write_operand(mask.get(), out)
        }
    }
}

impl Written for P4One {
    ghost use Rattle.p4_print.specs.Tables.{one_tokens};

    ghost tokens = { one_tokens };

    #[tactic(auto, using(crate::proofs::Steps::texts), unfolding(crate::specs::Tables::one_tokens))]
    fn write(&self, out: &mut Bytes) -> Result<(), NoMemory> {
        match self {
            P4One::Any { at: _ } => out.append(b"_ "),
            P4One::Expr { at: _, expr, mask } => write_masked(expr.get(), mask, out),
        }
    }
}

impl Written for P4Keyset {
    ghost use Rattle.p4_print.specs.Tables.{keyset_tokens};

    ghost tokens = { keyset_tokens };

    #[tactic(auto, using(crate::proofs::Steps::texts), unfolding(crate::specs::Tables::keyset_tokens))]
    fn write(&self, out: &mut Bytes) -> Result<(), NoMemory> {
        match self {
            P4Keyset::Default { at: _ } => out.append(b"default "),
            P4Keyset::One(one) => one.write(out),
            P4Keyset::Tuple { at: _, ones } => {
                out.append(b"( ")?;
                write_listed(ones.as_slice(), out)?;
                out.append(b") ")
            }
        }
    }
}

impl Written for P4Key {
    ghost use Rattle.p4_print.specs.Tables.{key_tokens};

    ghost tokens = { key_tokens };

    #[tactic(auto, using(crate::proofs::Steps::texts), unfolding(crate::specs::Tables::key_tokens))]
    fn write(&self, out: &mut Bytes) -> Result<(), NoMemory> {
        self.expr.write(out)?;
        out.append(b": ")?;
        write_match(self.matching, out)?;
        out.append(b";\n")
    }
}

// How a key is matched.
fn write_match(matching: P4Match, out: &mut Bytes) -> Result<(), NoMemory>
    ensures { OnOk result (out.new ≡ out.old ++ piece (the (match_sign matching))) }
{
    match matching {
        P4Match::Exact => out.append(b"exact "),
        P4Match::Lpm => out.append(b"lpm "),
        P4Match::Ternary => out.append(b"ternary "),
    }
}

impl Written for P4Keys {
    ghost use Rattle.p4_print.specs.Tables.{keys_tokens};

    ghost tokens = { keys_tokens };

    #[tactic(auto, using(crate::proofs::Steps::texts), unfolding(crate::specs::Tables::keys_tokens))]
    fn write(&self, out: &mut Bytes) -> Result<(), NoMemory> {
        out.append(b"key = {\n")?;
        write_all(self.keys.as_slice(), out)?;
        out.append(b"}\n")
    }
}

// Appends each action that a table lists.
#[tactic(auto, using(crate::proofs::Steps::texts))]
fn write_names(names: &[P4Name], out: &mut Bytes) -> Result<(), NoMemory>
    ensures { OnOk result (out.new ≡ out.old ++ text (all act_tokens names.now)) }
{
    for name in names {
        name.write(out)?;
        out.append(b";\n")?;
    }
    Ok(())
}

impl Written for P4Acts {
    ghost use Rattle.p4_print.specs.Tables.{acts_tokens};

    ghost tokens = { acts_tokens };

    #[tactic(auto, using(crate::proofs::Steps::texts), unfolding(crate::specs::Tables::acts_tokens))]
    fn write(&self, out: &mut Bytes) -> Result<(), NoMemory> {
        out.append(b"actions = {\n")?;
        write_names(self.names.as_slice(), out)?;
        out.append(b"}\n")
    }
}

impl Written for P4Call {
    ghost use Rattle.p4_print.specs.Tables.{call_tokens};

    ghost tokens = { call_tokens };

    #[tactic(auto, using(crate::proofs::Steps::texts), unfolding(crate::specs::Tables::call_tokens))]
    fn write(&self, out: &mut Bytes) -> Result<(), NoMemory> {
        self.name.write(out)?;
        write_args(self.args.as_slice(), out)
    }
}

// The word `const` where it is written.
#[tactic(auto, using(crate::proofs::Steps::texts))]
fn write_const(written: bool, out: &mut Bytes) -> Result<(), NoMemory>
    ensures { OnOk result (out.new ≡ out.old ++ text (where_so written sign.Const)) }
{
    if written {
        out.append(b"const ")
    } else {
        Ok(())
    }
}

impl Written for P4Default {
    ghost use Rattle.p4_print.specs.Tables.{default_tokens};

    ghost tokens = { default_tokens };

    #[tactic(auto, using(crate::proofs::Steps::texts), unfolding(crate::specs::Tables::default_tokens))]
    fn write(&self, out: &mut Bytes) -> Result<(), NoMemory> {
        write_const(self.const_, out)?;
        out.append(b"default_action = ")?;
        self.call.write(out)?;
        out.append(b";\n")
    }
}

impl Written for P4Entry {
    ghost use Rattle.p4_print.specs.Tables.{entry_tokens};

    ghost tokens = { entry_tokens };

    #[tactic(auto, using(crate::proofs::Steps::texts), unfolding(crate::specs::Tables::entry_tokens))]
    fn write(&self, out: &mut Bytes) -> Result<(), NoMemory> {
        self.keyset.write(out)?;
        out.append(b": ")?;
        self.call.write(out)?;
        out.append(b";\n")
    }
}

impl Written for P4Entries {
    ghost use Rattle.p4_print.specs.Tables.{entries_tokens};

    ghost tokens = { entries_tokens };

    #[tactic(auto, using(crate::proofs::Steps::texts), unfolding(crate::specs::Tables::entries_tokens))]
    fn write(&self, out: &mut Bytes) -> Result<(), NoMemory> {
        write_const(self.const_, out)?;
        out.append(b"entries = {\n")?;
        write_all(self.entries.as_slice(), out)?;
        out.append(b"}\n")
    }
}

impl Written for P4Size {
    ghost use Rattle.p4_print.specs.Tables.{size_tokens};

    ghost tokens = { size_tokens };

    #[tactic(auto, using(crate::proofs::Steps::texts), unfolding(crate::specs::Tables::size_tokens))]
    fn write(&self, out: &mut Bytes) -> Result<(), NoMemory> {
        out.append(b"size = ")?;
        write_number(&self.number, out)?;
        out.append(b";\n")
    }
}

impl Written for P4Table {
    ghost use Rattle.p4_print.specs.Tables.{table_tokens};

    ghost tokens = { table_tokens };

    #[tactic(auto, using(crate::proofs::Steps::texts), unfolding(crate::specs::Tables::table_tokens))]
    fn write(&self, out: &mut Bytes) -> Result<(), NoMemory> {
        out.append(b"table ")?;
        self.name.write(out)?;
        out.append(b"{\n")?;
        self.keys.write(out)?;
        self.acts.write(out)?;
        write_maybe(&self.default, out)?;
        write_maybe(&self.entries, out)?;
        write_maybe(&self.size, out)?;
        out.append(b"}\n")
    }
}
