//! The rows of both nodes as tables: which row an input meets, and what is known where it is met. What nodes send, over the
//! state that their step leaves.

ghost use Rattle.std.specs.Prelude.{◌≡◌, List, Some, slice_get, ℕ};
ghost use Rattle.rp_base.specs.declared.event.Event.{Event};
ghost use Rattle.rp_base.specs.declared.event.Lost.{Lost};
ghost use Rattle.rp_base.specs.declared.node.Packet.{Packet};
ghost use Rattle.rp_app.specs.Application.{Application};
ghost use Rattle.proto_data.specs.declared.message.Input.{Input};
ghost use Rattle.proto_data.specs.declared.message.Msg.{Msg};
ghost use Rattle.proto_model.specs.Feeds.{Each};
ghost use Rattle.proto_model.specs.ReplicaRows.{Loses, Resends, store_row, store_step};
ghost use Rattle.proto_model.specs.ReplicaState.{Replica};
ghost use Rattle.proto_model.specs.Stands.{entries_of};
ghost use Rattle.proto_model.specs.SwitchRow.{switch_row};
ghost use Rattle.proto_model.specs.SwitchRows.{switch_step};
ghost use Rattle.proto_model.specs.SwitchState.{Switch};
ghost use Rattle.proto_model.specs.World.{ReplicaNode, Setup, SwitchNode, opened};
ghost use Rattle.proto_model.specs.WorldStep.{world_after};
ghost use Rattle.proto_safety.specs.StoreSent.{SaysBook};
ghost use Rattle.proto_safety.specs.StoreTable.{Taken};
ghost use Rattle.proto_safety.specs.SwitchSent.{SentNow};
ghost use Rattle.proto_safety.specs.SwitchTable.{RowTaken};

/// The row that an input meets at a switch is one of the table's, under what the table says there.
pub fn switch_rows_stand_in_the_table()
    ensures { (app : Application) (s : Switch) (now : ℕ) (input : Input) → RowTaken app s now input (switch_row app s now input) }
{}

/// The row that a message meets at a replica is one of the table's, under what the table says there.
pub fn store_rows_stand_in_the_table()
    ensures messages { (s : Replica) (now : ℕ) (m : Msg) → Taken s now m.from m.body (store_row s now (Input.Msg m)) }
    ensures packets { (s : Replica) (now : ℕ) (p : Packet) → store_row s now (Input.Packet p) ≡ Loses Lost.Role }
    ensures alarms { (s : Replica) (now : ℕ) → store_row s now Input.Alarm ≡ Resends }
{}

/// Each message that a step of a switch sends is a request of this switch that says what it is after the step: the slot's lease,
/// a copy, the running round.
pub fn switches_say_what_they_are()
    ensures { (app : Application) (setup : Setup) (events : List Event) (n : ℕ) (node : SwitchNode) (input : Input) →
        slice_get (world_after app (opened app.cell_count setup) events).switches n ≡ Some node →
        Each (SentNow (switch_step app node.state node.clock input).0) (switch_step app node.state node.clock input).1.sent }
{}

/// Each message that a step of a replica sends says what its book has after the step: a Forward goes to the successor with the
/// entry at its index, a Have tells no more than is known to be committed, and Grants and Acks are the tail's and say what the
/// book says of the flow.
pub fn replicas_say_what_their_books_have()
    ensures { (app : Application) (setup : Setup) (events : List Event) (n : ℕ) (node : ReplicaNode) (input : Input) →
        slice_get (world_after app (opened app.cell_count setup) events).replicas n ≡ Some node →
        SaysBook (entries_of node.book) (store_step node.state node.clock input) }
{}
