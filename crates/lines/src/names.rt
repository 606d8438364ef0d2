// Names of readers.
ghost use Rattle.std.specs.Prelude.{◌≡◌};
ghost use Rattle.lines.specs.Named.{unit_named};

use unit::IntervalUnit;

// The default unit that a name such as `in_days` tells.
#[tactic(auto, unfolding(crate::specs::Named::unit_named))]
pub fn default_unit(name: &[u8]) -> Option<IntervalUnit>
    ensures { result ≡ unit_named name.now }
{
    match name {
        [b'i', b'n', b'_', unit @ ..] => IntervalUnit::from_str(unit),
        _ => None,
    }
}
