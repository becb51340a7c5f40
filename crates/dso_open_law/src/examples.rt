//! An example of what an entry touches.
ghost use Rattle.dso_open_law.specs.PrintCloses.{PrintCloses};

/// A thread that prints keeps another from entering a lock at `Read`, since it next enters the lock at `Write`.
pub fn print_closes()
    ensures { PrintCloses }
{}
