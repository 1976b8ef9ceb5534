//! Statements.
ghost use Rattle.std.specs.Prelude.{◌≡◌, ◌∷◌, ◌++◌, [], OnOk};
ghost use Rattle.p4_print.specs.Text.{text, piece};
ghost use Rattle.p4_print.specs.Shared.{maybe};
ghost use Rattle.p4_print.specs.Statements.{outcome_name, validity_name, behind_sign, cast_tokens, applied_tokens, block_tokens, stmt_tokens, if_tokens};
ghost use Rattle.p4_print.specs.Expressions.{where_so};
ghost use Rattle.p4_lex.specs.declared.token.Sign.TheVariants as sign;
ghost use Rattle.p4_lex.specs.declared.token.Lexeme.TheVariants as lexeme;

use crate::expression::write_args;
use crate::written::{Written, write_maybe};
use p4_ast::{
    P4Apply, P4Assign, P4Block, P4Callstmt, P4Cond, P4Expr, P4If, P4Keystmt, P4Name, P4Outcome,
    P4Read, P4Stmt, P4Type, P4Valid, P4Validity, P4Var, P4Write,
};
use rp_base::{Bytes, NoMemory};
use sqlite_items::Boxed;

// A first value.
#[tactic(auto, using(crate::proofs::Steps::texts))]
fn write_value(value: &Option<Boxed<P4Expr>>, out: &mut Bytes) -> Result<(), NoMemory>
    ensures { OnOk result (out.new ≡ out.old ++ text (maybe (behind_sign sign.Assign) value.now)) }
{
    match value {
        None => Ok(()),
        Some(e) => {
            out.append(b"= ")?;
            e.write(out)
        }
    }
}

impl Written for P4Var {
    ghost use Rattle.p4_print.specs.Statements.{var_tokens};

    ghost tokens = { var_tokens };

    #[tactic(auto, using(crate::proofs::Steps::texts), unfolding(crate::specs::Statements::var_tokens))]
    fn write(&self, out: &mut Bytes) -> Result<(), NoMemory> {
        self.type_.write(out)?;
        self.name.write(out)?;
        write_value(&self.expr, out)?;
        out.append(b";\n")
    }
}

impl Written for P4Assign {
    ghost use Rattle.p4_print.specs.Statements.{assign_tokens};

    ghost tokens = { assign_tokens };

    #[tactic(auto, using(crate::proofs::Steps::texts), unfolding(crate::specs::Statements::assign_tokens))]
    fn write(&self, out: &mut Bytes) -> Result<(), NoMemory> {
        self.left.write(out)?;
        out.append(b"= ")?;
        self.expr.write(out)?;
        out.append(b";\n")
    }
}

// A cast of what is read.
#[tactic(auto, using(crate::proofs::Steps::texts))]
fn write_cast(type_: &Option<Boxed<P4Type>>, out: &mut Bytes) -> Result<(), NoMemory>
    ensures { OnOk result (out.new ≡ out.old ++ text (maybe cast_tokens type_.now)) }
{
    match type_ {
        None => Ok(()),
        Some(t) => {
            out.append(b"( ")?;
            t.write(out)?;
            out.append(b") ")
        }
    }
}

impl Written for P4Read {
    ghost use Rattle.p4_print.specs.Statements.{read_tokens};

    ghost tokens = { read_tokens };

    #[tactic(auto, using(crate::proofs::Steps::texts), unfolding(crate::specs::Statements::read_tokens))]
    fn write(&self, out: &mut Bytes) -> Result<(), NoMemory> {
        self.left.write(out)?;
        out.append(b"= ")?;
        write_cast(&self.type_, out)?;
        self.name.write(out)?;
        out.append(b". read ( ")?;
        write_maybe(&self.expr, out)?;
        out.append(b") ;\n")
    }
}

// A second argument.
#[tactic(auto, using(crate::proofs::Steps::texts))]
fn write_second(second: &Option<Boxed<P4Expr>>, out: &mut Bytes) -> Result<(), NoMemory>
    ensures { OnOk result (out.new ≡ out.old ++ text (maybe (behind_sign sign.Comma) second.now)) }
{
    match second {
        None => Ok(()),
        Some(e) => {
            out.append(b", ")?;
            e.write(out)
        }
    }
}

impl Written for P4Write {
    ghost use Rattle.p4_print.specs.Statements.{write_tokens};

    ghost tokens = { write_tokens };

    #[tactic(auto, using(crate::proofs::Steps::texts), unfolding(crate::specs::Statements::write_tokens))]
    fn write(&self, out: &mut Bytes) -> Result<(), NoMemory> {
        self.name.write(out)?;
        out.append(b". write ( ")?;
        self.expr.write(out)?;
        write_second(&self.second, out)?;
        out.append(b") ;\n")
    }
}

impl Written for P4Keystmt {
    ghost use Rattle.p4_print.specs.Statements.{keystmt_tokens};

    ghost tokens = { keystmt_tokens };

    #[tactic(auto, using(crate::proofs::Steps::texts), unfolding(crate::specs::Statements::keystmt_tokens))]
    fn write(&self, out: &mut Bytes) -> Result<(), NoMemory> {
        out.append(b"flow_key ( ")?;
        self.expr.write(out)?;
        out.append(b") ;\n")
    }
}

impl Written for P4Valid {
    ghost use Rattle.p4_print.specs.Statements.{valid_tokens};

    ghost tokens = { valid_tokens };

    #[tactic(auto, using(crate::proofs::Steps::texts), unfolding(crate::specs::Statements::valid_tokens))]
    fn write(&self, out: &mut Bytes) -> Result<(), NoMemory> {
        self.path.write(out)?;
        out.append(b". ")?;
        write_validity(self.validity, out)?;
        out.append(b"( ) ;\n")
    }
}

// The word that makes a header valid or invalid.
fn write_validity(validity: P4Validity, out: &mut Bytes) -> Result<(), NoMemory>
    ensures { OnOk result (out.new ≡ out.old ++ piece (lexeme.Name (validity_name validity))) }
{
    match validity {
        P4Validity::SetValid => out.append(b"setValid "),
        P4Validity::SetInvalid => out.append(b"setInvalid "),
    }
}

impl Written for P4Apply {
    ghost use Rattle.p4_print.specs.Statements.{apply_tokens};

    ghost tokens = { apply_tokens };

    #[tactic(auto, using(crate::proofs::Steps::texts), unfolding(crate::specs::Statements::apply_tokens))]
    fn write(&self, out: &mut Bytes) -> Result<(), NoMemory> {
        self.name.write(out)?;
        out.append(b". apply ( ) ;\n")
    }
}

impl Written for P4Callstmt {
    ghost use Rattle.p4_print.specs.Statements.{callstmt_tokens};

    ghost tokens = { callstmt_tokens };

    #[tactic(auto, using(crate::proofs::Steps::texts), unfolding(crate::specs::Statements::callstmt_tokens))]
    fn write(&self, out: &mut Bytes) -> Result<(), NoMemory> {
        self.name.write(out)?;
        write_args(self.args.as_slice(), out)?;
        out.append(b";\n")
    }
}

// The application of a table, and the outcome that is asked for.
#[tactic(auto, using(crate::proofs::Steps::texts), unfolding(crate::specs::Statements::applied_tokens))]
fn write_applied(
    negated: bool,
    outcome: P4Outcome,
    name: &P4Name,
    out: &mut Bytes,
) -> Result<(), NoMemory>
    ensures { OnOk result (out.new ≡ out.old ++ text (applied_tokens negated name.now outcome)) }
{
    write_not(negated, out)?;
    name.write(out)?;
    out.append(b". apply ( ) . ")?;
    write_outcome(outcome, out)
}

// The name of an outcome.
fn write_outcome(outcome: P4Outcome, out: &mut Bytes) -> Result<(), NoMemory>
    ensures { OnOk result (out.new ≡ out.old ++ piece (lexeme.Name (outcome_name outcome))) }
{
    match outcome {
        P4Outcome::Hit => out.append(b"hit "),
        P4Outcome::Miss => out.append(b"miss "),
    }
}

// A `!` where the condition has one.
#[tactic(auto, using(crate::proofs::Steps::texts))]
fn write_not(negated: bool, out: &mut Bytes) -> Result<(), NoMemory>
    ensures { OnOk result (out.new ≡ out.old ++ text (where_so negated sign.Not)) }
{
    if negated { out.append(b"! ") } else { Ok(()) }
}

impl Written for P4Cond {
    ghost use Rattle.p4_print.specs.Statements.{cond_tokens};

    ghost tokens = { cond_tokens };

    #[tactic(auto, using(crate::proofs::Steps::texts), unfolding(crate::specs::Statements::cond_tokens))]
    fn write(&self, out: &mut Bytes) -> Result<(), NoMemory> {
        match self {
            P4Cond::Expr(e) => e.write(out),
            P4Cond::Apply {
                at: _,
                negated,
                name,
                outcome,
            } => write_applied(*negated, *outcome, name, out),
        }
    }
}

#[cycle(statements)]
#[tactic(auto, using(crate::proofs::Steps::texts))]
fn write_stmt(s: &P4Stmt, out: &mut Bytes) -> Result<(), NoMemory>
    ensures { OnOk result (out.new ≡ out.old ++ text (stmt_tokens s.now)) }
{
    match s {
        P4Stmt::Block(b) => write_block(b, out),
        P4Stmt::Var(v) => v.write(out),
        P4Stmt::Assign(a) => a.write(out),
        P4Stmt::Read(r) => r.write(out),
        P4Stmt::Write(w) => w.write(out),
        P4Stmt::Keystmt(k) => k.write(out),
        P4Stmt::Valid(v) => v.write(out),
        P4Stmt::Apply(a) => a.write(out),
        P4Stmt::Callstmt(c) => c.write(out),
        P4Stmt::If(i) => write_if(i, out),
    }
}

#[cycle(statements)]
#[tactic(auto, using(crate::proofs::Steps::texts))]
fn write_if(i: &P4If, out: &mut Bytes) -> Result<(), NoMemory>
    ensures { OnOk result (out.new ≡ out.old ++ text (if_tokens i.now)) }
{
    out.append(b"if ( ")?;
    i.cond.write(out)?;
    out.append(b") ")?;
    write_block(&i.then, out)?;
    match &i.else_ {
        None => Ok(()),
        Some(b) => {
            out.append(b"else ")?;
            write_block(b, out)
        }
    }
}

#[cycle(statements)]
#[tactic(auto, using(crate::proofs::Steps::texts))]
fn write_block(b: &P4Block, out: &mut Bytes) -> Result<(), NoMemory>
    ensures { OnOk result (out.new ≡ out.old ++ text (block_tokens b.now)) }
{
    out.append(b"{\n")?;
    for s in b.stmts.as_slice() {
        write_stmt(s, out)?;
    }
    out.append(b"}\n")
}

impl Written for P4Block {
    ghost use Rattle.p4_print.specs.Statements.{block_tokens};

    ghost tokens = { block_tokens };

    #[tactic(auto, using(crate::proofs::Steps::texts))]
    fn write(&self, out: &mut Bytes) -> Result<(), NoMemory> {
        write_block(self, out)
    }
}
