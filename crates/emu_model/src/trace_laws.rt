//! The laws about the outcome of each packet and about its trace records, each stated as the
//! contract of a function with an empty body, so that the checker proves it.

ghost use Rattle.emu_model.specs.TraceLaws.{EachPacketOnce, EachMakeOnce, MakeComesFirst, FinishesKeepOrder, ExitsKeepOrder};

/// Each packet created is delivered, dropped or held, once in total.
pub fn each_packet_once()
    ensures { EachPacketOnce }
{}

/// In a traced run, each packet created has one `make`.
pub fn each_make_once()
    ensures { EachMakeOnce }
{}

/// In a traced run, every record about a packet is after its `make`.
pub fn make_comes_first()
    ensures { MakeComesFirst }
{}

/// In a traced run, packets finish in an instance in the order in which they arrived there.
pub fn finishes_keep_order()
    ensures { FinishesKeepOrder }
{}

/// Packets leave an instance in the order in which they finished there.
pub fn exits_keep_order()
    ensures { ExitsKeepOrder }
{}
