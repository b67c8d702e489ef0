//! The version that the library reports. The build writes it into the copy that it builds, as for
//! the program.

/// The version, the commit and the kit.
pub const VERSION: &str = "0.2.0 (commit unknown, not proved)";
