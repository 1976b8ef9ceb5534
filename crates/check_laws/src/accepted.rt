//! What a program is that the checks accept, in its checked form.
ghost use Rattle.std.specs.Prelude.{◌≡◌, None};
ghost use Rattle.rp_app.specs.Application.{IsApplication};
ghost use Rattle.p4_ast.specs.declared.program.P4Program.{P4Program as ProgramValue};
ghost use Rattle.p4_check.specs.Programs.{bad_tree, checked, cells_of};
ghost use Rattle.app_meaning.specs.Programs.{cell_count, application};
ghost use Rattle.app_meaning.specs.Premises.{IsSound};

/// A program that the checks accept is sound in its checked form: it has no fourth parameter and at most 256 cells, it names `rp`
/// nowhere, and it reaches cells only behind a `flow_key` in a tail block, behind which no other stands. The checks count its cells
/// as its meaning does, and it is an application.
pub fn checked_programs_are_sound()
    ensures sound { (p : ProgramValue) → bad_tree p ≡ None → IsSound (checked p) }
    ensures cells { (p : ProgramValue) → bad_tree p ≡ None → cells_of p ≡ cell_count (checked p) }
    ensures application { (p : ProgramValue) → bad_tree p ≡ None → IsApplication (application (checked p)) }
{}
