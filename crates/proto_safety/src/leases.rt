//! Leases: how long they last, whose they are, and when a flow goes over to its next epoch.

ghost use Rattle.std.specs.Prelude.{◌⊎◌, ◌≡◌, [], ◌∷◌, ◌++◌, List};
ghost use Rattle.rp_base.specs.Clocks.{TermsHold};
ghost use Rattle.rp_base.specs.declared.event.Event.{Event};
ghost use Rattle.rp_app.specs.Application.{Application};
ghost use Rattle.proto_model.specs.World.{Setup, opened};
ghost use Rattle.proto_model.specs.WorldStep.{world_after};
ghost use Rattle.proto_safety.specs.Books.{In};
ghost use Rattle.proto_safety.specs.FirstLaws.{AreFirsts, IsNow};
ghost use Rattle.proto_safety.specs.Firsts.{firsts_of};
ghost use Rattle.proto_safety.specs.LeaseLaws.{First, Leases};

/// The first sendings of a run are those of its requests, in every mode: each request that a switch sent is there, once, and no
/// other. One that an event adds has the moment that the switch's clock read then.
pub fn first_sendings_stand()
    ensures requests { (app : Application) (setup : Setup) (events : List Event) →
        AreFirsts (firsts_of app setup events) (world_after app (opened app.cell_count setup) events).frames }
    ensures moments { (app : Application) (setup : Setup) (events : List Event) (event : Event) (f : First) →
        In (firsts_of app setup (events ++ event ∷ [])) f →
        In (firsts_of app setup events) f ⊎ IsNow (world_after app (opened app.cell_count setup) events) f }
{}

/// In every mode, with terms by which a lease has ended at its switch before the store gives the flow to another, and with the
/// first sendings of the run's requests: what passed at a replica since it applied a request's entry is bounded, by the ratio,
/// by what passed at the switch since it first sent that request; a lease ends one term after the first sending of a request of
/// its epoch whose entry is committed; a slot has the greatest incarnation and nonce of its switch's Asks for the flow; in every
/// book the Grant of the next epoch stands behind that of the epoch before, and goes to the same switch by a later Ask, or to any
/// switch once each request of that epoch, whose entry stands there, has run out where it was sent. So no slot is live, and no
/// Asking whose Grant stands is young, where a running replica has a later epoch. Switches that failed keep to it too.
pub fn leases_hold()
    ensures { (app : Application) (setup : Setup) →
        TermsHold setup.terms.t_switch setup.terms.t_store setup.terms.ratio → (events : List Event) →
        Leases (firsts_of app setup events) (world_after app (opened app.cell_count setup) events) }
{}
