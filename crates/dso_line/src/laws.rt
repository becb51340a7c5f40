//! The laws of what goes through rings. Each is the contract of a function that does nothing.
ghost use Rattle.dso_line.specs.Ways.{WaysMeet};

/// Where the bytes that a cell took from a ring are the first of those that the other end's cell gave: its log takes
/// what the other's log sends, in order and once, and it was greeted no more often than the other greeted.
pub fn ways_meet()
    ensures { WaysMeet }
{}
