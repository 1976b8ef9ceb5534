//! The routes of a world: what a router holds follows the world's own view.
ghost use Rattle.std.specs.Prelude.{◌≡◌, ℕ, Option};
ghost use Rattle.rp_base.specs.declared.node.Node.{Node};
ghost use Rattle.rp_base.specs.declared.event.Event.{Event};
ghost use Rattle.rp_app.specs.Application.{Application};
ghost use Rattle.key_table.specs.Table.{Key};
ghost use Rattle.proto_model.specs.Routing.{picked};
ghost use Rattle.proto_model.specs.World.{World, Setup, opened, believed_switches};
ghost use Rattle.proto_model.specs.WorldStep.{act_of, detected, runs_now};
ghost use Rattle.reroute.specs.Routes.{first_routes, switches_up, seen, detection};
ghost use Rattle.reroute.specs.Worlds.{routes_of, act_by, HasFailed};

/// A router that holds the routes of a world opens as the world does, picks the switch that the world picks, refuses the detections
/// that it refuses, and believes after any other what it believes. A replica that is detected so has failed.
pub fn routes_follow_worlds()
    ensures opens { (cells : ℕ) (setup : Setup) → routes_of (opened cells setup) ≡ first_routes setup.switches setup.replicas }
    ensures picks { (w : World) (key : Option Key) → picked (switches_up (routes_of w).believed) key ≡ picked (believed_switches w) key }
    ensures acts { (app : Application) (w : World) (node : Node) → act_of app w (Event.Detect node) ≡ act_by node (detection (routes_of w) node (runs_now w node)).1 }
    ensures detects { (w : World) (node : Node) → HasFailed w node → routes_of (detected w node) ≡ seen (routes_of w) node (runs_now w node) }
{}
