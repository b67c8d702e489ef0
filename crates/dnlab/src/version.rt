//! The version that the program reports. The build writes it into the copy that it builds: the
//! commit, and the kit that proved it.

/// The version, the commit and the kit.
pub const VERSION: &str = "0.2.0 (commit unknown, not proved)";
