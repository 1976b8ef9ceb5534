//! That what a datagram comes to is what a pump of the definitions makes of it.
ghost use Rattle.std.specs.Prelude.{◌≡◌, ◌++◌, Option, ℕ, false};
ghost use Rattle.rp_base.specs.declared.node.Node.{Node as NodeValue};
ghost use Rattle.rp_app.specs.Application.{Application};
ghost use Rattle.proto_model.specs.Pumping.{Pumped, datagram};
ghost use Rattle.link_run.specs.Answering.{after_datagram};

/// While a pump goes on, a datagram makes of it what `take_datagram` says of the world, the lines and the end.
pub fn datagrams_are_pumped()
    ensures { (app : Application) (node : NodeValue) (p : Pumped) (frame : Option ℕ) → p.ended ≡ false → datagram app node p frame ≡ after_datagram app node p frame }
{}
