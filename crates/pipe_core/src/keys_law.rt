//! The laws of a pipe's view, stated as the contract of a function with an empty body, so that the
//! checker proves them.

ghost use Rattle.pipe_core.specs.Views.{ViewsAgree, PacketsAreNamed};

/// If two maps from keys to packets agree on the keys of a pipe, they give it the same view; the
/// packets in that view are those that its keys refer to.
pub fn keys_say_all()
    ensures agree { ViewsAgree }
    ensures packets { PacketsAreNamed }
{}
