//! Laws about tracing.

ghost use Rattle.emu_laws.specs.Tracing.{TracingOnlyAdds};

/// In every run, tracing adds the records of creations, arrivals and identifiers, and changes
/// nothing else: neither another record nor their order, nor a counter, nor any later event.
pub fn tracing_only_adds()
    ensures { TracingOnlyAdds }
{}
