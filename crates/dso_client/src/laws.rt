//! Which entries of a client change nothing that it keeps (`specs/Laws.antt`). This is the contract of a function that
//! does nothing.
ghost use Rattle.dso_client.specs.Laws.{RejoinsChangeNothing};

/// A client stands for its entries also with a rejoin of its connection.
pub fn rejoins_change_nothing()
    ensures { RejoinsChangeNothing }
{}
