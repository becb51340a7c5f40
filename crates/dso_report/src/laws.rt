//! The laws of reports (`specs/Laws.antt`). Each is the contract of a function that does nothing.
ghost use Rattle.dso_report.specs.Laws.{MapsShowTheirSlots, OneGraphText, OneReport, StatesAreWhole, OrdersAreClosed};
ghost use Rattle.dso_report.specs.LeftOut.{ReportsLeaveNothingOut};
ghost use Rattle.dso_report.specs.Told.{ThreadsNameWhatTheyWereTold};

/// A state has one report.
pub fn one_report()
    ensures { OneReport }
{}

/// A graph has one text.
pub fn one_graph_text()
    ensures { OneGraphText }
{}

/// A report leaves nothing out: a state that lacks the name of a root, of a class or of a field, or a text or an object that its report
/// would tell, has none.
pub fn reports_leave_nothing_out()
    ensures { ReportsLeaveNothingOut }
{}

/// In each state that a legal history of a sound program leads to, nothing is missing that the report names: each root and each
/// object of a class has its words, each field has a value, and each value in a field or printed names an object or a text that is
/// there.
pub fn states_are_whole()
    ensures { StatesAreWhole }
{}

/// Wherever a thread of sound code follows its program with listed replies, its next request names only texts of the program, and texts
/// and objects that replies told it: what it stores or prints, the objects that it reads and writes, and the monitors that it takes.
pub fn threads_name_what_they_were_told()
    ensures { ThreadsNameWhatTheyWereTold }
{}

/// Each object that the report shows has a number.
pub fn orders_are_closed()
    ensures { OrdersAreClosed }
{}

/// Of each map is shown what its slots hold: each slot that holds an object has its entry, each entry is of such a slot, and the keys
/// don't fall from an entry to a later one.
pub fn maps_show_their_slots()
    ensures { MapsShowTheirSlots }
{}
