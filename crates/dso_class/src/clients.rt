//! The clients that threads are for (`specs/NameFaults.antt`).

ghost use Rattle.std.specs.Prelude.{◌≡◌, ◌↔◌, pos, IfSome, IsNone};
ghost use Rattle.dso_class.specs.NameFaults.{IsClient};

use dso_config::Config;

/// The client of this number, None where it isn't there.
pub(crate) fn client_of(config: &Config, number: i64) -> Option<u8>
    ensures is { IfSome result (λ client. number ≡ pos client) }
    ensures there { IfSome result (λ client. IsClient config.now number) }
    ensures none { IsNone result ↔ (IsClient config.now number → ⊥) }
{
    let clients = config.clients;
    match u8::try_from(number) {
        Ok(client) if 1 <= client && client <= clients => Some(client),
        _ => None,
    }
}
