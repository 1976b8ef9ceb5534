//! Books of replicas: prefixes along a configuration, and the committed book.

ghost use Rattle.std.specs.Prelude.{List, ℕ};
ghost use Rattle.rp_base.specs.declared.event.Event.{Event};
ghost use Rattle.rp_app.specs.Application.{Application};
ghost use Rattle.proto_model.specs.Feeds.{Each};
ghost use Rattle.proto_model.specs.Stands.{Stands};
ghost use Rattle.proto_model.specs.World.{ReplicaNode, Setup, opened};
ghost use Rattle.proto_model.specs.WorldStep.{world_after};
ghost use Rattle.proto_safety.specs.Epochs.{EpochsOf};
ghost use Rattle.proto_safety.specs.EpochOrder.{EpochsRise, SerialByEpoch};
ghost use Rattle.proto_model.specs.Committed.{committed_book};
ghost use Rattle.key_table.specs.Table.{Key};
ghost use Rattle.proto_safety.specs.Books.{HoldsIn, InOrder, IsPrefix, book_of, committed_of};

/// Each replica's records are its entries, applied one after the other.
pub fn replicas_stand()
    ensures { (app : Application) (setup : Setup) (events : List Event) →
        Each (λ (r : ReplicaNode). Stands r.state r.book) (world_after app (opened app.cell_count setup) events).replicas }
{}

/// Books are prefixes along each configuration, and what the store knows as committed is.
pub fn books_are_in_order()
    ensures { (app : Application) (setup : Setup) (events : List Event) → InOrder (world_after app (opened app.cell_count setup) events) }
{}

/// No running replica is missing from a configuration that the master once made, and each entry of that configuration's
/// Forwards stands in the books of those before the sender in it.
pub fn configurations_hold()
    ensures { (app : Application) (setup : Setup) (events more : List Event) →
        HoldsIn (world_after app (opened app.cell_count setup) events).config
        (world_after app (world_after app (opened app.cell_count setup) events) more) }
{}

/// Each entry of a book is the Grant of its epoch, or stands behind it, and an epoch has one Grant.
pub fn epochs_are_granted_once()
    ensures each { (app : Application) (setup : Setup) (events : List Event) (n : ℕ) → EpochsOf (book_of (world_after app (opened app.cell_count setup) events).replicas n) }
    ensures committed { (app : Application) (setup : Setup) (events : List Event) → EpochsOf (committed_of (world_after app (opened app.cell_count setup) events).replicas) }
{}

/// Epochs of a flow rise by one from 1, along every replica's book and along the committed one. So a flow's serial list goes by
/// rising epoch: the committed items of the first, then those of the second, and so on.
pub fn epochs_rise_by_one()
    ensures each { (app : Application) (setup : Setup) (events : List Event) (key : Key) →
        Each (λ (r : ReplicaNode). EpochsRise key r.book) (world_after app (opened app.cell_count setup) events).replicas }
    ensures committed { (app : Application) (setup : Setup) (events : List Event) (key : Key) →
        EpochsRise key (committed_book (world_after app (opened app.cell_count setup) events)) }
    ensures serial { (app : Application) (setup : Setup) (events : List Event) (key : Key) → SerialByEpoch (world_after app (opened app.cell_count setup) events) key }
{}

/// The committed book only grows.
pub fn committed_book_grows()
    ensures { (app : Application) (setup : Setup) (events more : List Event) →
        IsPrefix (committed_of (world_after app (opened app.cell_count setup) events).replicas)
        (committed_of (world_after app (world_after app (opened app.cell_count setup) events) more).replicas) }
{}
