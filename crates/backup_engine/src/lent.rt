//! A disk that is lent to a core.
ghost use Rattle.std.specs.Prelude.{◌≡◌};

use refusals::Refusal;

/// The disk of a core that was not opened.
pub(crate) fn handed_back<D>(refused: (D, Refusal)) -> D
    ensures { result ≡ refused.0 }
{
    refused.0
}
