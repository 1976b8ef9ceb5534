//! What is proved of the meaning of programs and of tables.
ghost use Rattle.std.specs.Prelude.{◌≡◌, ◌≤◌, ℕ, List, Option, Some, None, true, false, length};
ghost use Rattle.std.specs.List.{AllByRecursion};
ghost use Rattle.rp_base.specs.declared.node.Packet.{Packet as PacketValue};
ghost use Rattle.rp_app.specs.Application.{IsApplication};
ghost use Rattle.p4_ast.specs.declared.program.P4Program.{P4Program as ProgramValue};
ghost use Rattle.app_meaning.specs.Programs.{application, cell_count, outcome, key};
ghost use Rattle.app_meaning.specs.Premises.{program_keyed};
ghost use Rattle.p4_ast.specs.declared.table.P4Call.{P4Call};
ghost use Rattle.app_data.specs.declared.value.Value.{Value};
ghost use Rattle.app_data.specs.declared.value.Match.{Match};
ghost use Rattle.app_meaning.specs.Matches.{fits, winner, Wins};

/// The row that a table finds has, among the rows that match, the longest prefix, and is the first of those; without an lpm key it
/// is the first that matches. Where none is found none matches.
pub fn tables_find_the_longest_prefix()
    ensures wins { (lpm : Option ℕ) (keys : List Value) (rows : List (List Match × P4Call)) (r : List Match × P4Call) → winner lpm keys rows ≡ Some r → Wins lpm keys rows r }
    ensures none { (lpm : Option ℕ) (keys : List Value) (rows : List (List Match × P4Call)) → winner lpm keys rows ≡ None → AllByRecursion (λ r. fits r.0 keys ≡ false) rows }
{}

/// A source whose cells are at most 256 and are reached only behind a `flow_key` in a tail block is an application: its keys have 1
/// to 16 bytes, its deltas rise and name cells that there are, its outputs have the packet's mark and at most 1,500 bytes, and a
/// packet without a key writes nothing and has one output whatever the cells are. A key doesn't depend on the cells.
pub fn programs_are_applications()
    ensures promised { (p : ProgramValue) → p.ingress.rp ≡ None → cell_count p ≤ 256 → program_keyed p ≡ true → IsApplication (application p) }
    ensures one_key { (p : ProgramValue) → p.ingress.rp ≡ None → cell_count p ≤ 256 → program_keyed p ≡ true → (cells : List ℕ) (packet : PacketValue) → length cells ≡ cell_count p → (outcome p 0 cells packet).key ≡ key p packet }
{}
