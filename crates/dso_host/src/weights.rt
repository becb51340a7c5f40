//! What the journal that is gathered of cells weighs (`specs/Journals.antt`).
ghost use Rattle.std.specs.Prelude.{◌-◌, ◌^◌, ◌≡◌, min, sum_by};
ghost use Rattle.dso_legal.specs.Slots.{weight};
ghost use Rattle.dso_line.specs.Letters.{newest};
ghost use Rattle.dso_host.specs.Journals.{logs_in};

use crate::Cells;

impl Cells {
    /// The weight of all logs, and 2^64 - 1 where that is more. It takes no memory.
    pub fn weight(&self) -> u64
        ensures { result ≡ min (sum_by (λ log. weight (newest log)) (logs_in self.now)) (2 ^ 64 - 1) }
    {
        let mut sum = self.server.weight();
        for cell in &self.clients {
            sum = sum.saturating_add(cell.weight());
        }
        sum
    }
}
