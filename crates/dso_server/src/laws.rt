//! That the server's calls make entries of the server rule, which entries change nothing, and which servers lack
//! nothing (`specs/Laws.antt`). These are the contracts of functions that do nothing.
ghost use Rattle.dso_server.specs.Laws.{BreaksChangeNothing, LostByRule, LostChangeNothing, NamedIsKnown, NothingIsLackedLater};
ghost use Rattle.dso_server.specs.Laws.{RejoinsChangeNothing, TakenByRule};

/// What [`crate::Server::take`] and [`crate::Server::lose`] tell makes the entries of the server rule.
pub fn calls_follow_the_rule()
    ensures taken { TakenByRule }
    ensures lost { LostByRule }
{}

/// A server stands for its entries also with a break or a rejoin of a connection, and with a message of a lost client.
pub fn others_change_nothing()
    ensures breaks { BreaksChangeNothing }
    ensures rejoins { RejoinsChangeNothing }
    ensures lost { LostChangeNothing }
{}

/// A server that lacks no stored object has what any message names, and what [`crate::Server::take`] and
/// [`crate::Server::lose`] tell keeps it so.
pub fn nothing_is_lacked()
    ensures known { NamedIsKnown }
    ensures later { NothingIsLackedLater }
{}
