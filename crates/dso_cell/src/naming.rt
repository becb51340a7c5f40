//! What the type of a locked cell names.
use std::marker::Brand;

/// Names the cluster that a locked cell is of, with its rings, if it names one. Each epoch picks the cluster that its
/// own cells go by.
pub trait Naming {
    ghost use Rattle.std.specs.Prelude.{Option};
    ghost use Rattle.dso_cell.specs.Clusters.{Cluster};

    ghost cluster: { Option Cluster };
}

impl Naming for Brand {
    ghost use Rattle.std.specs.Prelude.{None};

    ghost cluster = { None };
}
